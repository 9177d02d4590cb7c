//! The clocks of an evening: the time, how long ago the last GO was, and, if the page keeps marks, how long the act or
//! the interval has lasted. The marks stand in a file, so they are the same after a new start, and in the report.
//! Made by `tools/page` of `page/script/clocks.js`: change that.

/// The text of this element.
pub(super) const TEXT: &str = r#"
"use strict";
// In seconds: what is older than that is of another evening, and a curtain that was down so long rises on another show.
const EVENING = 43200, BETWEEN = 5400, LATER = 500, WRITTEN = 3000;
const two = (number) => String(number).padStart(2, "0");
const clockWords = (seconds) =>
  Math.floor(seconds / 3600) + ":" + two(Math.floor(seconds / 60) % 60) + ":" + two(Math.floor(seconds) % 60);
const lasted = (moment) => clockWords(Math.max(0, Date.now() / 1000 - moment));

// When this browser saw the last GO given, in milliseconds since 1970; it is kept over a new start of the page.
let lastGiven = Number(recall("last-go")) || 0;
function followGo() {
  const given = view.live.filter((one) => one.given !== null).map((one) => Date.now() - one.given);
  const newest = Math.max(0, ...given);
  if (newest < lastGiven + LATER) return;
  lastGiven = newest;
  keep("last-go", String(newest));
}

// Which act it is or which interval, since when, and when the curtain first went up; null if it did not.
function showTime() {
  const all = (manner.marks || []).filter((mark) => mark.at >= Date.now() / 1000 - EVENING);
  const isNew = (mark, at) => mark.up && at > 0 && !all[at - 1].up && mark.at - all[at - 1].at > BETWEEN;
  const marks = all.slice(Math.max(0, all.findLastIndex(isNew))), first = marks.find((mark) => mark.up);
  if (!first) return null;
  const later = marks.slice(marks.indexOf(first));
  const last = later.filter((mark, at) => mark.up || later[at - 1].up).pop();
  return { act: later.filter((mark) => mark.up).length, up: last.up, at: last.at, first: first.at };
}

function timeWords(time) {
  const what = time.up ? "Act " + time.act : "Curtain down", lasts = " " + lasted(time.at);
  return what + lasts + (time.at === time.first ? "" : " \u00b7 " + lasted(time.first) + " since curtain up");
}

// The mark that is next: a curtain that is up goes down.
const nextMark = () => { const time = showTime(); return time && time.up ? "mark down" : "mark up"; };
const markName = (press) => press === "mark up" ? "Curtain up" : "Curtain down";

function showClocks() {
  const time = showTime(), goes = lastGiven > Date.now() - 1000 * EVENING, press = nextMark();
  write("wall", new Date().toLocaleTimeString("en-GB"));
  at("last-go").hidden = !goes;
  write("last-go", goes ? "last GO " + lasted(lastGiven / 1000) + " ago" : "");
  at("act").hidden = time === null;
  write("act", time ? timeWords(time) : "");
  at("curtain").hidden = manner.marks === null || isHeld();
  at("curtain").classList.toggle("asks", sure.press === press);
  write("curtain", (sure.press === press ? "Press again: " : "") + markName(press));
}

// Says that a mark is not in the file by now, if that is so.
function missesMark(press, count) {
  if (manner.marks !== null && manner.marks.length <= count)
    say(markName(press) + " is not seen in the file: look there, and at the window of cuedesk web, before you press " +
      "again", "refused", NOTED);
}

// A mark is written down by the desk: nothing is sent to the controller.
async function sendMark(press) {
  const count = manner.marks.length, asked = now();
  try {
    const reply = await fetch("/command", { method: "POST", headers: { "Cuedesk-Token": token }, body: press });
    const told = await reply.json();
    if (!reply.ok) { say(markName(press) + ": " + told.words, "refused", NOTED); return; }
    take(told, asked);
    setTimeout(missesMark, WRITTEN, press, count);
  } catch (error) {
    say(markName(press) + ": the desk does not answer; look at the clock before you press again", "refused", NOTED);
  }
}

at("curtain").addEventListener("click", (event) => {
  if (event.detail > 0) event.currentTarget.blur();
  const press = nextMark(), isSure = sure.press === press && now() < sure.until;
  sure = isSure ? { press: "", until: 0 } : { press, until: now() + SURE };
  if (isSure) sendMark(press);
  draw();
});
"#;
