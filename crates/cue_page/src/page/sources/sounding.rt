//! What calls an eye that is elsewhere: two tones and a flash at a failure, a silent device, a dead controller, and a
//! desk that does not answer; one tone three seconds before the ten seconds of a cue are over.
//! Made by `tools/page` of `page/script/sounding.js`: change that.

/// The text of this element.
pub(super) const TEXT: &str = r#"
"use strict";
const CALLING = ["failed", "moving", "device", "silent", "unshown", "desk"];
const HIGH = 880, LOW = 587, TONE = 0.2, FLASH = 2400, FIRST = 2500;
let calledOut = new Set(), flashUntil = 0, audio = null, isAllowed = false, isWaking = false, sounded = 0;
let endsSoon = new Set(), warned = 0;
let wantsSound = recall("sound") !== "off";

// A browser may want a press before it lets a page sound. What sounds nothing rests.
try { audio = new AudioContext(); } catch (error) { audio = null; }

function tone(pitch, begin) {
  const source = audio.createOscillator(), volume = audio.createGain();
  source.frequency.value = pitch;
  volume.gain.setValueAtTime(0, begin);
  volume.gain.linearRampToValueAtTime(0.3, begin + 0.02);
  volume.gain.setValueAtTime(0.3, begin + TONE - 0.03);
  volume.gain.linearRampToValueAtTime(0, begin + TONE);
  source.connect(volume).connect(audio.destination);
  source.start(begin);
  source.stop(begin + TONE);
}

// Plays these tones, one after the other. Answers whether the page may sound.
function play(tones) {
  if (!wantsSound || !isAllowed) return false;
  audio.resume().then(() => {
    tones.forEach((pitch, index) => tone(pitch, audio.currentTime + index * TONE));
    setTimeout(() => audio.suspend(), 1000 * TONE * (tones.length + 2));
  }, () => {});
  return true;
}

// The two tones, twice; `sounded` counts how often they came.
function sound() {
  if (play([HIGH, LOW, HIGH, LOW])) sounded += 1;
}

// One tone, once for each cue whose ten seconds end soon; `warned` counts how often it came.
function warn() {
  const soon = isDark() ? [] : view.live.filter(isSoon).map((attempt) => attempt.attempt);
  if (soon.some((attempt) => !endsSoon.has(attempt)) && play([LOW])) warned += 1;
  endsSoon = new Set(soon);
}

function showSound() {
  const words = !wantsSound ? "Sound off" : isAllowed ? "Sound on" : audio ? "Press to allow sound" : "No sound here";
  write("sound", words);
  at("sound").classList.toggle("asks", words !== "Sound on");
  at("sound").setAttribute("aria-label", "Sound at alarms: " + words);
}

// Any press allows the sound, if the browser waits for one.
function wake() {
  isWaking = audio !== null && !isAllowed;
  if (isWaking) audio.resume().catch(() => {});
}

function allow() {
  if (audio.state !== "running" || isAllowed) return;
  isAllowed = true;
  audio.suspend();
  showSound();
}

// Whether the page has a view, or has waited for its first one long enough.
const hasBegun = () => view !== null || now() > FIRST;

// Calls if something is wrong that was not wrong before. A desk that does not answer hides what else is wrong.
function callOut() {
  if (!hasBegun()) return;
  warn();
  const wrong = alarmsNow().filter((one) => CALLING.includes(one.kind)).map((one) => one.kind + " " + one.of);
  if (wrong.some((one) => !calledOut.has(one))) {
    flashUntil = now() + FLASH;
    sound();
  }
  calledOut = new Set(isDark() ? [...calledOut, ...wrong] : wrong);
  at("flash").classList.toggle("is-new", now() < flashUntil);
  at("flash").classList.toggle("stands", wrong.length > 0);
}

// The press that allows the sound does not also turn it off.
at("sound").addEventListener("click", (event) => {
  if (event.detail > 0) event.currentTarget.blur();
  if (!isWaking) {
    wantsSound = !wantsSound;
    keep("sound", wantsSound ? "on" : "off");
  }
  showSound();
  if (isWaking) audio.resume().then(allow).then(sound).catch(() => {});
  else sound();
});

for (const kind of ["pointerdown", "keydown"]) document.addEventListener(kind, wake, true);
if (audio) audio.addEventListener("statechange", allow);
showSound();
if (audio) allow();
"#;
