//! Which devices stand elsewhere than the stack supposes, by the last part of each; and the question that STANDBY asks
//! because of one that its cues move. GO and CANCEL ask nothing.
//! Made by `tools/page` of `page/script/whereabouts.js`: change that.

/// The text of this element.
pub(super) const TEXT: &str = r#"
"use strict";
// The press of STANDBY that was asked about: its cue, because of which devices, and since when. None if none was.
let question = null, wasElsewhere = false;

const isElsewhere = (one) => one.last !== null;
const numbersOf = (some) => some.map((one) => one.device);
const askedNow = () => numbersOf(view.whereabouts.filter((one) => one.asks));

// That these devices stand elsewhere: more than two are counted.
function elsewhereWords(devices) {
  if (devices.length === 1) return "Device " + devicesWords(devices) + " stands elsewhere";
  return (devices.length === 2 ? "Devices " + devicesWords(devices) : devices.length + " devices") + " stand elsewhere";
}

// The last part of a device, and the cue that the stack supposes to be its last.
function partWords({ last, supposed }) {
  const part = last.part === null ? "" : ", " + last.part;
  return (last.failed ? "failed in " : "last ") + cueWords(last) + part + "; supposed " + namedCue(supposed);
}

function elsewhereRow(one) {
  const row = make("li", one.asks ? "asks" : ""), words = make("span");
  const then = one.asks ? "; STANDBY asks once more" : "";
  words.append(make("b", "", deviceName(one.device)), " " + partWords(one) + then);
  row.append(make("span", "number", one.device), words);
  return row;
}

// Those of which nothing was heard stand apart: they are neither right nor elsewhere.
function whereaboutsRows() {
  const unheard = numbersOf(view.whereabouts.filter((one) => !isElsewhere(one)));
  const rows = view.whereabouts.filter(isElsewhere).map(elsewhereRow);
  if (unheard.length) rows.push(make("li", "unheard", "Nothing was heard of device " + devicesWords(unheard)));
  return rows;
}

// What a screen reader is told when others stand elsewhere.
function elsewhereSaid(devices) {
  if (devices.length) return elsewhereWords(devices);
  return wasElsewhere ? "No device stands elsewhere" : "";
}

function showWhereabouts() {
  const devices = numbersOf(view.whereabouts.filter(isElsewhere));
  wasElsewhere = wasElsewhere || devices.length > 0;
  at("whereabouts").hidden = !view.whereabouts.length;
  write("whereabouts-title", devices.length ? "Stands elsewhere" : "Stands unknown");
  place("elsewhere", whereaboutsRows, JSON.stringify([view.whereabouts, renamed]));
  write("elsewhere-said", elsewhereSaid(devices));
}

// The question goes as soon as another cue is next, others stand elsewhere, or the cue stands by.
function followQuestion() {
  if (question === null) return;
  const isOver = view.next.cue !== question.cue || askedNow().join() !== question.devices
    || view.live.some((one) => one.cue === question.cue);
  if (isOver) question = null;
}

function ask(cue, devices) {
  const asked = { cue, devices: devices.join(), since: now() };
  question = asked;
  say(pressWords("standby " + cue) + " asks: " + elsewhereWords(devices) + ". Press STANDBY again to stand by anyway",
    "open", Infinity, () => question === asked);
  showKeys();
}

// Whether a press waits for an answer: it asks, unless it was asked already and this press is the answer. A second tap
// within a second is the same press.
function asksFirst(press) {
  const [verb, cue] = press.split(" "), devices = askedNow();
  if (verb !== "standby" || !devices.length) return false;
  followQuestion();
  if (question === null) {
    ask(cue, devices);
    return true;
  }
  if (now() - question.since < TAP) return true;
  question = null;
  showKeys();
  return false;
}

// The second button of STANDBY stands in the place of the first, and has the focus if that had it.
function showQuestion(lit) {
  const [here, away] = question ? ["anyway", "standby"] : ["standby", "anyway"];
  if (at("anyway").disabled === !!lit) at("anyway").disabled = !lit;
  if (question) write("anyway-why", elsewhereWords(askedNow()) + ": stand by anyway");
  if (!at(here).hidden) return;
  const hadFocus = document.activeElement === at(away);
  at(here).hidden = false;
  at(away).hidden = true;
  if (hadFocus) at(here).focus();
}

at("anyway").addEventListener("click", (event) => {
  if (event.detail > 0) event.currentTarget.blur();
  press("standby");
});
"#;
