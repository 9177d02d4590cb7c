//! How the page looks in this browser: its theme, and the size of its type. The browser keeps it.
//! Made by `tools/page` of `page/script/settings.js`: change that.

/// The text of this element.
pub(super) const TEXT: &str = r#"
"use strict";
const THEMES = ["dark", "light"], SIZES = ["normal", "large", "largest"];
const look = document.documentElement.dataset;

// What the browser has kept: in its storage, or, if it has none, after the # of the address.
function recall(name) {
  const behind = new URLSearchParams(location.hash.slice(1)).get(name);
  try { return localStorage.getItem("cuedesk-" + name) || behind; } catch (error) { return behind; }
}

function keep(name, value) {
  try {
    localStorage.setItem("cuedesk-" + name, value);
  } catch (error) {
    const behind = new URLSearchParams(location.hash.slice(1));
    behind.set(name, value);
    history.replaceState(null, "", "\u0023" + behind);
  }
}

function showLook() {
  write("theme", look.theme === "dark" ? "Light" : "Dark");
  at("theme").setAttribute("aria-label", "The page is " + look.theme + ": change it");
  write("size", "Type: " + look.size);
  at("size").setAttribute("aria-label", "The type is " + look.size + ": change it");
}

// How much room there is, in letters: larger type makes a window small, as a browser's zoom does.
const LOW_ROOM = 39, SLIM_ROOM = 60, NARROW_ROOM = 40, FLAT_ROOM = 30;
function measure() {
  const letter = parseFloat(getComputedStyle(document.documentElement).fontSize);
  const wide = innerWidth / letter, high = innerHeight / letter;
  document.body.classList.toggle("low", high < LOW_ROOM);
  document.body.classList.toggle("slim", wide < SLIM_ROOM);
  document.body.classList.toggle("narrow", wide < NARROW_ROOM && high >= FLAT_ROOM);
}

// A button that goes through these values of a setting, one a press.
function goThrough(id, values) {
  look[id] = values.includes(recall(id)) ? recall(id) : values[0];
  at(id).addEventListener("click", (event) => {
    if (event.detail > 0) event.currentTarget.blur();
    look[id] = values[(values.indexOf(look[id]) + 1) % values.length];
    keep(id, look[id]);
    showLook();
    measure();
    toPlace();
  });
}

goThrough("theme", THEMES);
goThrough("size", SIZES);
showLook();
addEventListener("resize", measure);
measure();
"#;
