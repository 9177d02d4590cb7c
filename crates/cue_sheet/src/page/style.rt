//! The style of the page: black on white, for paper.

/// The text between the tags of `style`.
pub(super) const STYLE: &str = r#"
body { margin: 2em auto; max-width: 60em; padding: 0 1em; background: #fff; color: #000;
  font: 11pt/1.35 "DejaVu Sans", Arial, sans-serif; }
h1 { margin: 0; font-size: 1.6em; }
p { margin: 0 0 1em; }
table { width: 100%; margin: 0 0 2em; border-collapse: collapse; border-bottom: 2px solid #000; }
caption { padding: 0.3em 0; font-size: 1.2em; font-weight: bold; text-align: left; }
thead { display: table-header-group; }
thead th { border-bottom: 2px solid #000; }
tr, .cues tbody { break-inside: avoid; }
.cues tbody, .devices tr { border-top: 1px solid #777; }
th, td { box-sizing: border-box; padding: 0.2em 0.5em; text-align: left; vertical-align: top; overflow-wrap: anywhere; }
.cues { table-layout: fixed; }
.cues thead th:nth-child(1) { width: 7%; }
.cues thead th:nth-child(2) { width: 9%; }
.cues thead th:nth-child(3) { width: 5%; }
.cues thead th:nth-child(4) { width: 8%; }
.cues thead th:nth-child(5) { width: 24%; }
.cues thead th:nth-child(6) { width: 5%; }
.cues thead th:nth-child(7) { width: 17%; }
.cues thead th:nth-child(9) { width: 9%; }
.room { border: 1px solid #777; }
thead .room { padding: 0.2em 0.3em; font-size: 0.85em; }
.written td { height: 2.4em; border: 1px solid #777; width: 25%; }
.written td:last-child { width: 50%; }
.devices th:nth-child(1) { width: 6%; }
.devices th:nth-child(3) { width: 30%; }
.number { text-align: right; }
td[dir] { text-align: start; }
tbody th { font-size: 1.2em; }
.name { font-weight: bold; }
.note { font-style: italic; }
.sent { font-family: "DejaVu Sans Mono", monospace; }
.bar { display: inline-block; width: 0; height: 0.8em; margin-right: 0.4em; outline: 1px solid #000;
  border-left: 2.5em solid; }
.red { border-color: #d00000; }
.orange { border-color: #f08000; }
.yellow { border-color: #f8e000; }
.green { border-color: #008a20; }
.blue { border-color: #0050d0; }
.purple { border-color: #8020b0; }
.white { border-color: #fff; }
.flag { display: inline-block; padding: 0 0.4em; border: 2px solid #000; font-weight: bold; text-transform: uppercase; }
@media print { body { margin: 0; max-width: none; padding: 0; font-size: 9pt; } }
"#;
