//! Writing a show file.
ghost use Rattle.std.specs.Prelude.{◌≡◌, ◌++◌, ◌∷◌, [], IfOk, OnOk, codes, map, string_bytes};
ghost use Rattle.std.specs.List.{flat_map};
ghost use Rattle.cue_show_file.specs.Written as written;

mod parts;

use crate::file::{Companions, CueEntry, DeviceEntry, Forms, ShowFile};
use crate::marks::{Color, Flag};
use crate::text::cue_text;
use cue_show::{CueNo, DeviceNo, Parts, Show};
use parts::push_parts_line;
use std::alloc::{AllocError, Global};
use std::fmt::{self, Write};

// A device of a show, without a name.
fn device_entry(number: DeviceNo, port: u16) -> DeviceEntry
    ensures { result ≡ written.bare_device (number, port) }
{
    DeviceEntry {
        line: None,
        number,
        port,
        address: None,
        name: None,
    }
}

// A cue of a show, without a name or a note.
fn cue_entry(alloc: Global, number: CueNo, parts: &Parts) -> Result<CueEntry, AllocError>
    ensures { IfOk result (λ entry. entry ≡ written.bare_cue (number, parts.now)) }
{
    Ok(CueEntry {
        line: None,
        number,
        name: None,
        note: None,
        color: None,
        flag: None,
        companions: Companions::of(Vec::new(alloc)),
        parts: parts.clone()?,
        forms: Forms::of(Vec::new(alloc)),
    })
}

fn device_entries(alloc: Global, show: &Show) -> Result<Vec<DeviceEntry>, AllocError>
    ensures { IfOk result (λ entries. entries.items ≡ map written.bare_device show.now.devices) }
{
    let mut entries = Vec::new(alloc);
    for (number, port) in show.devices() {
        entries.push(device_entry(*number, *port))?;
    }
    Ok(entries)
}

fn cue_entries(alloc: Global, show: &Show) -> Result<Vec<CueEntry>, AllocError>
    ensures { IfOk result (λ entries. entries.items ≡ map written.bare_cue show.now.cues) }
{
    let mut entries = Vec::new(alloc);
    for (number, parts) in show.cues() {
        entries.push(cue_entry(alloc, *number, parts)?)?;
    }
    Ok(entries)
}

/// The file of a show: its devices and cues in their order, without names and notes, which no controller keeps.
pub fn of_show(alloc: Global, show: &Show) -> Result<ShowFile, AllocError>
    ensures { IfOk result (λ file. written.IsFileOf show.now file) }
{
    Ok(ShowFile {
        port: None,
        listen: None,
        devices: device_entries(alloc, show)?,
        cues: cue_entries(alloc, show)?,
    })
}

/// A text as TOML writes it, in the first form that needs no escape.
#[derive(Clone, Copy)]
pub struct Quoted<'a> {
    pub text: &'a str,
}

impl fmt::Display for Quoted<'_> {
    ghost use Rattle.std.specs.Prelude.{Some};
    ghost use Rattle.toml_writer.specs.Text.{string_text};

    ghost output = { λ quoted. Some (string_text quoted.text.now) };

    fn fmt<W: fmt::Write>(&self, f: &mut fmt::Formatter<W>) -> fmt::Result {
        toml_writer::write_string(f, self.text)
    }
}

// Writes a line with a key and a text.
fn push_line(text: &mut String, key: &str, value: &str) -> Result<(), AllocError>
    ensures { OnOk result (string_bytes text.new ≡ string_bytes text.old ++ written.line_of key.now value.now) }
{
    let quoted = Quoted { text: value };
    write!(text, "{key} = {quoted}\n")
}

// Writes a line with a key and a text, if there is one.
fn push_text(text: &mut String, key: &str, value: &Option<String>) -> Result<(), AllocError>
    ensures { OnOk result (string_bytes text.new ≡ string_bytes text.old ++ written.text_line key.now value.now) }
{
    match value {
        Some(value) => push_line(text, key, value.as_str()),
        None => Ok(()),
    }
}

// Writes the line of a colour, if there is one.
fn push_color(text: &mut String, color: Option<Color>) -> Result<(), AllocError>
    ensures { OnOk result (string_bytes text.new ≡ string_bytes text.old ++ written.color_line color) }
{
    match color {
        Some(color) => push_line(text, "color", color.word()),
        None => Ok(()),
    }
}

// Writes the line of a flag, if there is one.
fn push_flag(text: &mut String, flag: Option<Flag>) -> Result<(), AllocError>
    ensures { OnOk result (string_bytes text.new ≡ string_bytes text.old ++ written.flag_line flag) }
{
    match flag {
        Some(flag) => push_line(text, "flag", flag.word()),
        None => Ok(()),
    }
}

fn push_device(text: &mut String, entry: &DeviceEntry) -> Result<(), AllocError>
    ensures { OnOk result (string_bytes text.new ≡ string_bytes text.old ++ written.device_text entry.now) }
{
    let (number, port) = (entry.number.number(), entry.port);
    write!(text, "\n[[device]]\nnumber = {number}\nport = {port}\n")?;
    push_text(text, "name", &entry.name)
}

// Writes the header of a cue, and its number.
fn push_cue_head(text: &mut String, entry: &CueEntry) -> Result<(), AllocError>
    ensures { OnOk result (string_bytes text.new ≡ string_bytes text.old ++ written.cue_head entry.now) }
{
    let number = Quoted {
        text: cue_text(&entry.number),
    };
    write!(text, "\n[[cue]]\nnumber = {number}\n")
}

// Writes what people see of a cue.
fn push_signs(text: &mut String, entry: &CueEntry) -> Result<(), AllocError>
    ensures { OnOk result (string_bytes text.new ≡ string_bytes text.old ++ written.signs_text entry.now) }
{
    push_text(text, "name", &entry.name)?;
    push_text(text, "note", &entry.note)?;
    push_color(text, entry.color)?;
    push_flag(text, entry.flag)
}

fn push_cue(alloc: Global, text: &mut String, entry: &CueEntry) -> Result<(), AllocError>
    ensures { OnOk result (string_bytes text.new ≡ string_bytes text.old ++ written.cue_text entry.now) }
{
    push_cue_head(text, entry)?;
    push_signs(text, entry)?;
    push_parts_line(alloc, text, &entry.parts)
}

fn push_port(text: &mut String, port: Option<u16>) -> Result<(), AllocError>
    ensures { OnOk result (string_bytes text.new ≡ string_bytes text.old ++ written.port_text port) }
{
    match port {
        Some(port) => write!(text, "port = {port}\n"),
        None => Ok(()),
    }
}

fn push_devices(text: &mut String, entries: &[DeviceEntry]) -> Result<(), AllocError>
    ensures { OnOk result (string_bytes text.new
        ≡ string_bytes text.old ++ flat_map written.device_text entries.now) }
{
    for entry in entries {
        push_device(text, entry)?;
    }
    Ok(())
}

fn push_cues(alloc: Global, text: &mut String, entries: &[CueEntry]) -> Result<(), AllocError>
    ensures { OnOk result (string_bytes text.new ≡ string_bytes text.old ++ flat_map written.cue_text entries.now) }
{
    for entry in entries {
        push_cue(alloc, text, entry)?;
    }
    Ok(())
}

/// The text of a show file: its port, its devices and its cues. By the grammar of TOML it is read as exactly that
/// (`laws::written_is_read`), and of a show `read` makes the same file of it (`laws::export_reads_back`). If this
/// machine and its devices are on the stage's network, and which cues stand by together, is left out: no store has it.
pub fn written(alloc: Global, file: &ShowFile) -> Result<String, AllocError>
    ensures { IfOk result (λ text. string_bytes text ≡ written.file_text file.now) }
{
    let mut text = String::new(alloc);
    push_port(&mut text, file.port)?;
    push_devices(&mut text, &file.devices)?;
    push_cues(alloc, &mut text, &file.cues)?;
    Ok(text)
}
