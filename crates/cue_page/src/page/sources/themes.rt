//! The colours of the page, dark and light, each with a contrast of at least 7 to 1; and those of cues.
//! Made by `tools/page` of `page/style/themes.css`: change that.

/// The text of this element.
pub(super) const TEXT: &str = r#"
:root { color-scheme: dark; --ground: #0b0d10; --panel: #14181d; --line: #3a434e; --text: #eceff2; --soft: #b9c2cc;
  --amber: #ffc247; --green: #4be39b; --red: #ffb1a8; --blue: #a9d1ff; --violet: #d5c6ff; --chip: #2a323b;
  --edge: #5d6977; --off: #171b20; --wrong: #3a0f0b; --wrong-text: #ffffff; --focus: #ffffff; }
:root[data-theme="light"] { color-scheme: light; --ground: #f2f4f6; --panel: #ffffff; --line: #a3adb8; --text: #11151a;
  --soft: #39424c; --amber: #5e3b00; --green: #00482a; --red: #8a0f06; --blue: #0a3a70; --violet: #47248a;
  --chip: #dfe4e9; --edge: #6b7783; --off: #e6eaee; --wrong: #ffe1dd; --wrong-text: #4a0500; --focus: #11151a; }
:root { --amber-fill: #ffc247; --on-amber: #1d1200; --green-fill: #4be39b; --on-green: #00210f; --red-fill: #ffb1a8;
  --on-red: #2b0400; --glow: #4be39b66; }
.red { --mark: #ff4d42; } .orange { --mark: #ff8f1f; } .yellow { --mark: #ffd91a; } .green { --mark: #1fb565; }
.blue { --mark: #3b8cff; } .purple { --mark: #a866ff; } .white { --mark: #ffffff; }
"#;
