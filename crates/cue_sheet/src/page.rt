//! The cue sheet as one page of HTML, to be printed.
mod style;

use crate::sent::sent_text;
use crate::text::{place_text, together_text};
use cue_html::{push_element, push_escaped, push_head};
use cue_show::Part;
use cue_show_file::{CueEntry, DeviceEntry, Form, ShowFile, cue_text};
use std::alloc::{AllocError, Global};
use std::fmt::Write;
use style::STYLE;

/// What is written in by hand at the head of the page.
const WRITTEN: &str = r#"</p>
<table class="written">
<tr><td>Date</td><td>Show no.</td><td>Called by</td></tr>
</table>
"#;

/// What stands before the rows of the devices.
const DEVICES: &str = r#"<table class="devices">
<caption>Devices</caption>
<thead><tr><th scope="col" class="number">No.</th><th scope="col">Device</th>
<th scope="col">Port or address</th></tr></thead>
<tbody>
"#;

/// What stands before the rows of the cues.
const CUES: &str = r#"</tbody>
</table>
<table class="cues">
<caption>Cues</caption>
<thead><tr><th scope="col">Cue</th><th scope="col" class="room">Standby</th><th scope="col" class="room">GO</th>
<th scope="col" class="room">Time</th><th scope="col">Name and note</th>
<th scope="col" class="number">No.</th><th scope="col">Device</th><th scope="col">Sent</th>
<th scope="col"></th></tr></thead>
"#;

/// What stands after them.
const END: &str = "</table>\n</body>\n</html>\n";

/// A page so far.
#[derive(Drop)]
struct Page<'a> {
    alloc: Global,
    file: &'a ShowFile,
    text: String,
}

impl Page<'_> {
    // Puts a text there that somebody wrote.
    fn push_text(&mut self, text: &str) -> Result<(), AllocError> {
        push_escaped(&mut self.text, text)
    }

    // A cell with a text that somebody wrote, which may run from right to left.
    fn push_cell(&mut self, text: &str) -> Result<(), AllocError> {
        self.text.push_str("<td dir=\"auto\">")?;
        self.push_text(text)?;
        self.text.push_str("</td>")
    }

    fn push_head(&mut self, title: &str, printed: &str) -> Result<(), AllocError> {
        push_head(&mut self.text, title, STYLE)?;
        push_element(&mut self.text, "<h1 dir=\"auto\">", title, "</h1>\n")?;
        push_element(&mut self.text, "<p>Cue sheet, ", printed, WRITTEN)
    }

    fn push_device(&mut self, entry: &DeviceEntry) -> Result<(), AllocError> {
        let place = place_text(self.alloc, entry)?;
        write!(
            self.text,
            "<tr><td class=\"number\">{}</td>",
            entry.number.number()
        )?;
        self.push_cell(entry.name.as_deref().unwrap_or(""))?;
        self.push_cell(place.as_str())?;
        self.text.push_str("</tr>\n")
    }

    fn push_devices(&mut self) -> Result<(), AllocError> {
        self.text.push_str(DEVICES)?;
        let file = self.file;
        for entry in &file.devices {
            self.push_device(entry)?;
        }
        Ok(())
    }

    // The colour and the flag of a cue.
    fn push_marks(&mut self, entry: &CueEntry) -> Result<(), AllocError> {
        if let Some(color) = entry.color {
            let word = color.word();
            write!(
                self.text,
                "<div class=\"color\"><span class=\"bar {word}\"></span>{word}</div>"
            )?;
        }
        if let Some(flag) = entry.flag {
            write!(self.text, "<div class=\"flag\">{}</div>", flag.word())?;
        }
        Ok(())
    }

    // The name, the marks and the note of a cue.
    fn push_signs(&mut self, entry: &CueEntry) -> Result<(), AllocError> {
        if let Some(name) = &entry.name {
            self.text.push_str("<div class=\"name\" dir=\"auto\">")?;
            self.push_text(name.as_str())?;
            self.text.push_str("</div>")?;
        }
        self.push_marks(entry)?;
        let together = together_text(self.alloc, entry)?;
        if !together.is_empty() {
            self.text.push_str("<div class=\"together\">")?;
            self.push_text(together.as_str())?;
            self.text.push_str("</div>")?;
        }
        if let Some(note) = &entry.note {
            self.text.push_str("<div class=\"note\" dir=\"auto\">")?;
            self.push_text(note.as_str())?;
            self.text.push_str("</div>")?;
        }
        Ok(())
    }

    // The cells of a part, with which its row ends.
    fn push_part(&mut self, part: &Part, form: Form) -> Result<(), AllocError> {
        let sent = sent_text(self.alloc, form, part.bytes.as_slice())?;
        let file = self.file;
        let name = file.device_name(part.device).unwrap_or("");
        write!(
            self.text,
            "<td class=\"number\">{}</td>",
            part.device.number()
        )?;
        self.push_cell(name)?;
        self.text.push_str("<td class=\"sent\">")?;
        self.push_text(sent.as_str())?;
        self.text.push_str(if part.optional {
            "</td><td>optional</td></tr>\n"
        } else {
            "</td><td></td></tr>\n"
        })
    }

    // The cells with which the rows of a cue begin: they are as tall as all its parts.
    fn push_cue_cells(&mut self, entry: &CueEntry) -> Result<(), AllocError> {
        let rows = entry.parts.as_slice().len();
        write!(self.text, "<tr><th scope=\"rowgroup\" rowspan=\"{rows}\">")?;
        self.push_text(cue_text(&entry.number))?;
        let room = "<td class=\"room\" rowspan=";
        write!(
            self.text,
            "</th>{room}\"{rows}\"></td>{room}\"{rows}\"></td>{room}\"{rows}\"></td><td rowspan=\"{rows}\">"
        )?;
        self.push_signs(entry)?;
        self.text.push_str("</td>")
    }

    // The rows of a cue, which stay on one sheet of paper.
    fn push_cue(&mut self, entry: &CueEntry) -> Result<(), AllocError> {
        self.text.push_str("<tbody>\n")?;
        self.push_cue_cells(entry)?;
        for (index, part) in entry.parts.as_slice().iter().enumerate() {
            if index > 0 {
                self.text.push_str("<tr>")?;
            }
            self.push_part(part, entry.form(index))?;
        }
        self.text.push_str("</tbody>\n")
    }

    fn push_cues(&mut self) -> Result<(), AllocError> {
        self.text.push_str(CUES)?;
        let file = self.file;
        for entry in &file.cues {
            self.push_cue(entry)?;
        }
        self.text.push_str(END)
    }
}

/// The page of a file that has no mistake, with this title, and when it was printed. It stands alone, and each sheet of
/// paper has the heads of
/// its table.
pub fn sheet_page(
    alloc: Global,
    title: &str,
    printed: &str,
    file: &ShowFile,
) -> Result<String, AllocError> {
    let mut page = Page {
        alloc,
        file,
        text: String::new(alloc),
    };
    page.push_head(title, printed)?;
    page.push_devices()?;
    page.push_cues()?;
    let Page { text, .. } = page;
    Ok(text)
}
