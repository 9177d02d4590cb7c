//! How the page looks.

/// The style of the page: black on white, and no attempt is torn at the end of a sheet.
pub const STYLE: &str = r#"
body { font: 11pt/1.35 "DejaVu Sans", Arial, sans-serif; color: #000; background: #fff; max-width: 60em; margin: 1em auto;
  padding: 0 1em; }
h1 { font-size: 18pt; margin: 0; }
h2 { font-size: 13pt; margin: 1.2em 0 0.3em; border-bottom: 1px solid #000; break-after: avoid; }
p { margin: 0.1em 0; }
.span { font-size: 13pt; }
.signed { width: 100%; margin-top: 0.6em; }
.signed td { border-bottom: 1px solid #000; height: 2.2em; }
.room { border: 1px solid #000; height: 9em; }
.note { font-style: italic; }
table { border-collapse: collapse; margin: 0.2em 0; }
thead { display: table-header-group; }
th { text-align: left; font-weight: normal; border-bottom: 1px solid #000; }
th, td { padding: 0.1em 0.8em 0.1em 0; vertical-align: top; overflow-wrap: anywhere; text-align: start; }
tr { break-inside: avoid; }
.front { white-space: nowrap; font-variant-numeric: tabular-nums; }
.attempts { width: 100%; font-size: 0.85em; }
.attempts td { border-bottom: 1px solid #bbb; }
.attempts td:nth-child(2) { font-weight: bold; }
.attempts td:nth-child(-n + 6):not(:nth-child(3)), .attempts th { white-space: nowrap; font-variant-numeric: tabular-nums; }
.failed, .cancelled, .open { background: #eee; }
.failed td:nth-child(7), .cancelled td:nth-child(7), .open td:nth-child(7) { font-weight: bold; }
@media print { body { max-width: none; margin: 0; padding: 0; font-size: 10pt; } }
"#;
