//! Whose choice it is: GO of a window is for what was stood by or chosen in this window. Another window of the same
//! desk shows the choice, and gives it only after Choose there.
//! Made by `tools/page` of `page/script/windows.js`: change that.

/// The text of this element.
pub(super) const TEXT: &str = r#"
"use strict";
const OWN = "cuedesk-own";
// The ask of a STANDBY of this window whose attempt is not shown yet; the attempt that is its choice; and the one that
// it has just chosen, until the desk has answered.
let awaited = null, own = null, expected = null;

function keepOwn() {
  try { sessionStorage.setItem(OWN, JSON.stringify({ run, own })); } catch (error) { /* it lasts until a reload */ }
}

// What this window chose before it was loaded again, if the desk is the same.
function recallOwn() {
  try {
    const kept = JSON.parse(sessionStorage.getItem(OWN));
    if (kept && kept.run === run) own = kept.own;
  } catch (error) { /* nothing was kept */ }
}

// A STANDBY of this window is its choice once its attempt is shown, and no longer once one of another window was sent.
function followChoice() {
  const said = view.said;
  if (said && said.press.startsWith("standby ") && said.ask > awaited) awaited = null;
  if (said && said.ask === awaited && said.kind === "refused") awaited = null;
  if (awaited === null || view.chosen === null) return;
  own = view.chosen;
  awaited = null;
  keepOwn();
}

// A choice of this window is on its way.
function expectOwn(press) {
  const [verb, number] = press.split(" ");
  expected = verb === "choose" ? Number(number) : null;
}

// A press of this window that was sent: a STANDBY, or a choice.
function ownPress(press, told) {
  const [verb, number] = press.split(" ");
  expected = null;
  if (verb === "standby" && told.view.said && told.view.said.press === press) awaited = told.view.said.ask;
  if (verb !== "choose") return;
  own = Number(number);
  awaited = null;
  keepOwn();
}

const isOwn = () => view !== null && view.chosen !== null && [own, expected].includes(view.chosen);
"#;
