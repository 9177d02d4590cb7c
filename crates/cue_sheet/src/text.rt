//! The cue sheet as lines of a terminal, or of a printer.
#![tactic(auto, using(cue_columns::proofs::ColumnLemmas::keeps_same, cue_columns::proofs::ColumnLemmas::keeps_then))]

ghost use Rattle.std.specs.Prelude.{IfOk, OnOk};
ghost use Rattle.cue_columns.specs.Columns.{AreFit, Keeps};

use crate::sent::sent_text;
use cue_board::with_words;
use cue_columns::{COLUMNS, Cell, GAP, push_heading, push_line, push_row, push_texts};
use cue_show::Part;
use cue_show_file::{CueEntry, DeviceEntry, Form, ShowFile, cue_text};
use std::alloc::{AllocError, Global};

/// The columns of the number of a device.
const NUMBER: usize = 3;

/// The columns of where a device is: `255.255.255.255:65535` has 21.
const PLACE: usize = 21;

/// The columns of the name of a device in a part.
const NAME: usize = 24;

/// The columns of the word `optional`.
const OPTIONAL: usize = 8;

/// What is written in by hand beside a cue: that its standby and its GO were called, and when.
#[derive(Clone, Copy)]
struct Called {
    standby: &'static str,
    go: &'static str,
    time: &'static str,
}

/// What stands over these columns.
const OVER: Called = Called {
    standby: "standby",
    go: "GO",
    time: "time",
};

/// The room for each of them.
const ROOM: Called = Called {
    standby: "[ ]",
    go: "[ ]",
    time: "________",
};

/// How wide they are.
const STANDBY: usize = 7;

const GO: usize = 3;

const TIME: usize = 8;

/// What is written in by hand at the head of the sheet.
const HEAD: &str = "Date ____________  Show no. ______  Called by ________________________";

/// The lines so far, and how wide the numbers of the cues are.
#[derive(Drop)]
struct Sheet<'a> {
    alloc: Global,
    file: &'a ShowFile,
    /// The columns of the number of a cue, 3 to 16.
    number: usize,
    lines: Vec<String>,
}

// The columns of the number of a cue: those of the longest one.
fn number_width(file: &ShowFile) -> usize {
    let widths = file.cues.iter().map(|cue| cue.number.text().len());
    widths.max().unwrap_or(NUMBER).clamp(NUMBER, 16)
}

/// Where a device is: its address on the stage's network if it has one, else its port on this machine.
pub(crate) fn place_text(alloc: Global, entry: &DeviceEntry) -> Result<String, AllocError> {
    match entry.address {
        Some(address) => format!(in alloc; "{address}"),
        None => format!(in alloc; "port {}", entry.port),
    }
}

/// The colour and the flag of a cue in words; empty if it has neither.
pub(crate) fn marks_text(alloc: Global, entry: &CueEntry) -> Result<String, AllocError> {
    match (entry.color, entry.flag) {
        (Some(color), Some(flag)) => {
            format!(in alloc; "colour {}, flag {}", color.word(), flag.word())
        }
        (Some(color), None) => format!(in alloc; "colour {}", color.word()),
        (None, Some(flag)) => format!(in alloc; "flag {}", flag.word()),
        (None, None) => Ok(String::new(alloc)),
    }
}

// The note of a cue; empty if it has none.
fn note_text(alloc: Global, entry: &CueEntry) -> Result<String, AllocError> {
    match &entry.note {
        Some(note) => format!(in alloc; "Note: {}", note.as_str()),
        None => Ok(String::new(alloc)),
    }
}

/// With which cues a cue is stood by; empty if it is stood by alone.
pub(crate) fn together_text(alloc: Global, entry: &CueEntry) -> Result<String, AllocError> {
    let others = entry.companions.as_slice();
    if others.is_empty() {
        return Ok(String::new(alloc));
    }
    let with = with_words(alloc, others)?;
    format!(in alloc; "stood by{}", with.as_str())
}

impl Sheet<'_> {
    // The columns beside the number of a cue.
    fn beside(&self) -> usize {
        COLUMNS.saturating_sub(self.number.saturating_add(GAP))
    }

    // Texts that have so many columns each.
    fn row(&mut self, texts: &[(&str, usize)]) -> Result<(), AllocError>
        ensures { OnOk result (Keeps self.old.lines.items self.new.lines.items) }
    {
        push_texts(self.alloc, &mut self.lines, texts)
    }

    // A text beside the number of a cue; nothing if it is empty.
    fn push_beside(&mut self, text: &str) -> Result<(), AllocError>
        ensures { OnOk result (Keeps self.old.lines.items self.new.lines.items) }
    {
        if text.is_empty() {
            return Ok(());
        }
        let (number, width) = (self.number, self.beside());
        self.row(&[("", number), (text, width)])
    }

    // The number and the name of a cue, or what stands over them, and what is written in by hand.
    fn push_called(&mut self, number: &str, name: &str, called: Called) -> Result<(), AllocError>
        ensures { OnOk result (Keeps self.old.lines.items self.new.lines.items) }
    {
        let width = self.beside().saturating_sub(STANDBY + GO + TIME + 3 * GAP);
        let cells = [
            Cell::of(self.alloc, number, self.number)?,
            Cell::of(self.alloc, name, width)?,
            Cell::of(self.alloc, called.standby, STANDBY)?,
            Cell::of(self.alloc, called.go, GO)?,
            Cell::of(self.alloc, called.time, TIME)?,
        ];
        push_row(self.alloc, &mut self.lines, &cells)
    }

    fn push_device(&mut self, entry: &DeviceEntry) -> Result<(), AllocError>
        ensures { OnOk result (Keeps self.old.lines.items self.new.lines.items) }
    {
        let place = place_text(self.alloc, entry)?;
        let name = entry.name.as_deref().unwrap_or("");
        let width = COLUMNS.saturating_sub(NUMBER + GAP + GAP + PLACE);
        let cells = [
            Cell::number(self.alloc, entry.number.number(), NUMBER)?,
            Cell::of(self.alloc, name, width)?,
            Cell::of(self.alloc, place.as_str(), PLACE)?,
        ];
        push_row(self.alloc, &mut self.lines, &cells)
    }

    // A heading, and that there is nothing under it, if that is so.
    fn push_heading(&mut self, words: &str, is_empty: bool) -> Result<(), AllocError>
        ensures { OnOk result (Keeps self.old.lines.items self.new.lines.items) }
    {
        push_heading(self.alloc, &mut self.lines, words)?;
        if is_empty {
            self.row(&[("none", COLUMNS)])?;
        }
        Ok(())
    }

    fn push_devices(&mut self) -> Result<(), AllocError>
        ensures { OnOk result (Keeps self.old.lines.items self.new.lines.items) }
    {
        let file = self.file;
        self.push_heading("Devices", file.devices.is_empty())?;
        for entry in &file.devices {
            self.push_device(entry)?;
        }
        Ok(())
    }

    // The columns of what a part sends: an even number, so that no line ends within a byte.
    fn sent_width(&self) -> usize {
        let others = NUMBER + GAP + NAME + GAP + GAP + OPTIONAL;
        let width = self.beside().saturating_sub(others);
        (width / 2).saturating_mul(2)
    }

    fn push_part(&mut self, part: &Part, form: Form) -> Result<(), AllocError>
        ensures { OnOk result (Keeps self.old.lines.items self.new.lines.items) }
    {
        let file = self.file;
        let name = file.device_name(part.device).unwrap_or("");
        let sent = sent_text(self.alloc, form, part.bytes.as_slice())?;
        let optional = if part.optional { "optional" } else { "" };
        let cells = [
            Cell::of(self.alloc, "", self.number)?,
            Cell::number(self.alloc, part.device.number(), NUMBER)?,
            Cell::of(self.alloc, name, NAME)?,
            Cell::of(self.alloc, sent.as_str(), self.sent_width())?,
            Cell::of(self.alloc, optional, OPTIONAL)?,
        ];
        push_row(self.alloc, &mut self.lines, &cells)
    }

    // What people see of a cue.
    fn push_signs(&mut self, entry: &CueEntry) -> Result<(), AllocError>
        ensures { OnOk result (Keeps self.old.lines.items self.new.lines.items) }
    {
        let name = entry.name.as_deref().unwrap_or("");
        self.push_called(cue_text(&entry.number), name, ROOM)?;
        let marks = marks_text(self.alloc, entry)?;
        self.push_beside(marks.as_str())?;
        let together = together_text(self.alloc, entry)?;
        self.push_beside(together.as_str())?;
        let note = note_text(self.alloc, entry)?;
        self.push_beside(note.as_str())?;
        Ok(())
    }

    fn push_cue(&mut self, entry: &CueEntry) -> Result<(), AllocError>
        ensures { OnOk result (Keeps self.old.lines.items self.new.lines.items) }
    {
        self.row(&[("", COLUMNS)])?;
        self.push_signs(entry)?;
        for (index, part) in entry.parts.as_slice().iter().enumerate() {
            self.push_part(part, entry.form(index))?;
        }
        Ok(())
    }

    fn push_cues(&mut self) -> Result<(), AllocError>
        ensures { OnOk result (Keeps self.old.lines.items self.new.lines.items) }
    {
        let file = self.file;
        self.push_heading("Cues", file.cues.is_empty())?;
        if !file.cues.is_empty() {
            self.push_called("cue", "name and note", OVER)?;
        }
        for entry in &file.cues {
            self.push_cue(entry)?;
        }
        Ok(())
    }

    fn push_head(&mut self, title: &str, printed: &str) -> Result<(), AllocError>
        ensures { OnOk result (Keeps self.old.lines.items self.new.lines.items) }
    {
        self.row(&[("CUE SHEET", 9), (title, COLUMNS - 11)])?;
        self.row(&[(printed, COLUMNS)])?;
        self.row(&[(HEAD, COLUMNS)])?;
        Ok(())
    }

    fn push_all(&mut self, title: &str, printed: &str) -> Result<(), AllocError>
        ensures { OnOk result (Keeps self.old.lines.items self.new.lines.items) }
    {
        self.push_head(title, printed)?;
        self.push_devices()?;
        self.push_cues()
    }
}

/// The lines of the cue sheet of a file, with this title, and when it was printed: the devices with their places, and
/// each cue in its order with its number, name, colour, flag, note and parts, and room for what is written in by hand.
/// No line has more than 80 columns: names and bytes go on in the next line of their column.
#[tactic(auto, using(cue_columns::proofs::ColumnLemmas::fit_behind_none, cue_columns::proofs::ColumnLemmas::keeps_then))]
pub fn sheet_lines(
    alloc: Global,
    title: &str,
    printed: &str,
    file: &ShowFile,
) -> Result<Vec<String>, AllocError>
    ensures { IfOk result (λ lines. AreFit lines.items) }
{
    let mut sheet = Sheet {
        alloc,
        file,
        number: number_width(file),
        lines: Vec::new(alloc),
    };
    sheet.push_all(title, printed)?;
    let Sheet { lines, .. } = sheet;
    Ok(lines)
}

/// The same lines as one text.
pub fn sheet_text(
    alloc: Global,
    title: &str,
    printed: &str,
    file: &ShowFile,
) -> Result<String, AllocError> {
    let mut text = String::new(alloc);
    for line in sheet_lines(alloc, title, printed, file)? {
        text.push_str(line.as_str())?;
        text.push('\n')?;
    }
    Ok(text)
}
