//! How the page draws a view. It decides nothing: what is lit, and what each button sends, stands in the view.
//! Made by `tools/page` of `page/script/drawing.js`: change that.

/// The text of this element.
pub(super) const TEXT: &str = r#"
"use strict";
// What may change between two views.
function showLit() {
  showKeys();
  showClocks();
  showAge();
  showAlarms();
  showWords();
  callOut();
}

// Draws the newest view, and notes whether that was of a desk that answers.
function draw() {
  if (!view) return;
  wasDark = isDark();
  showManner();
  showStack();
  showLive();
  showWhereabouts();
  showTimes();
  showEnds();
  showSpoken();
  showLit();
}
"#;
