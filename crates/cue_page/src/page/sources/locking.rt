//! The show lock: a move of the place and a release want a word. It is kept here alone, and for a minute without use.
//! Made by `tools/page` of `page/script/locking.js`: change that.

/// The text of this element.
pub(super) const TEXT: &str = r#"
"use strict";
const HELD = 60000;
let word = { text: "", until: 0 }, waiting = "";

const wantsWord = (press) => manner.locked && (press.startsWith("goto ") || press.startsWith("release "));
const hasWord = () => word.text !== "" && now() < word.until;

// The word for this press, if it wants one; a use keeps it for another minute.
function wordFor(press) {
  if (!wantsWord(press) || !hasWord()) return undefined;
  word.until = now() + HELD;
  return word.text;
}

function forget() {
  word = { text: "", until: 0 };
}

// Asks for the word of a press.
function askWord(press, why) {
  forget();
  waiting = press;
  write("lock-why", why || "The show is locked. " + pressWords(press) + " wants its word:");
  at("lock-word").value = "";
  at("lock").hidden = false;
  at("lock-word").focus();
}

function closeLock() {
  waiting = "";
  at("lock-word").value = "";
  at("lock-word").blur();
  at("lock").hidden = true;
}

function showLock(isLocked) {
  if (word.text !== "" && !hasWord()) forget();
  at("locked").hidden = !isLocked || hasWord();
  at("lock-again").hidden = !isLocked || !hasWord();
  if (!isLocked && !at("lock").hidden) closeLock();
}

at("lock").addEventListener("submit", (event) => {
  event.preventDefault();
  const press = waiting, text = at("lock-word").value;
  if (!/^[!-~]+$/.test(text)) { askWord(press, "This is not its word. " + pressWords(press) + " wants it:"); return; }
  word = { text, until: now() + HELD };
  closeLock();
  send(press);
});

// No key of the form is a press; Esc leaves it.
at("lock").addEventListener("keydown", (event) => {
  event.stopPropagation();
  if (event.key === "Escape") closeLock();
});

at("lock-leave").addEventListener("click", closeLock);
at("lock-again").addEventListener("click", () => { forget(); showManner(); });
"#;
