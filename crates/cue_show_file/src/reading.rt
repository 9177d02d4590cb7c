//! Reading a show file: from TOML to devices and cues, with each mistake on the way.
ghost use Rattle.std.specs.Prelude.{◌≡◌, ◌==◌, ◌&&◌, IfOk, IfSome, IsTrue, Some, [], codes, false, length, map};
ghost use Rattle.toml.specs.Data.{get_member};
ghost use Rattle.toml.specs.View.{table_view};
ghost use Rattle.cue_show_file.specs.Reading.{if_clean, is_clean, names_no_place, no_place_in, said_of, said_without};
ghost use Rattle.cue_show_file.specs.Said.{file_said, has_only, is_among, is_port_or_none, text_said};

mod cues;
mod devices;
mod forms;
mod keys;
mod marks;
mod parts;
mod tables;
mod together;

use crate::file::ShowFile;
use crate::headers::{headers_of, is_single, line_of_key};
use crate::mistake::{Finding, Findings, Mistake, Section, Slip, Subject};
use crate::network::read_listen;
use cue_words::shown_text;
use cues::read_cues;
use devices::read_devices;
pub(crate) use keys::value_at;
use keys::{is_known, note_if_unknown, port_in};
use std::alloc::{AllocError, Global};
use toml::Table;

/// What was read of a text, and what was wrong with it. What could not be read is not in the file.
#[derive(Drop)]
pub struct Draft {
    pub file: ShowFile,
    /// In the order of the text; none if it is a show file as far as each entry alone says.
    pub findings: Vec<Finding>,
    /// All that TOML reads from the text, for callers that read further keys of it; empty if the text is no TOML.
    pub table: Table,
    /// The line, from 1, of the table `[rehearse]`, if it can be seen.
    pub rehearse: Option<usize>,
}

// The line, from 1, of the byte at this place.
fn line_at(text: &str, place: usize) -> usize {
    let before = text.as_bytes().iter().take(place);
    before
        .filter(|byte| **byte == b'\n')
        .count()
        .saturating_add(1)
}

// Quotes that an editor puts in place of straight ones.
const TYPOGRAPHIC: [char; 8] = [
    '\u{ab}', '\u{bb}', '\u{2018}', '\u{2019}', '\u{201a}', '\u{201c}', '\u{201d}', '\u{201e}',
];

// Whether the quotes of a line come in pairs.
fn is_closed(line: &str) -> bool {
    let quotes = line.as_bytes().iter().filter(|byte| **byte == b'"');
    quotes.count() % 2 == 0
}

// What a line looks like at which a text is no TOML.
fn slip_of(line: &str) -> Slip {
    if line.chars().any(|c| TYPOGRAPHIC.contains(&c)) {
        Slip::Quotes
    } else if is_single(line.trim_start()) {
        Slip::Brackets
    } else if !is_closed(line) {
        Slip::Unclosed
    } else {
        Slip::Other
    }
}

// What the line with this number, from 1, looks like.
fn slip_at(text: &str, line: Option<usize>) -> Slip {
    match line {
        Some(number) => match text.lines().nth(number.saturating_sub(1)) {
            Some(line) => slip_of(line),
            None => Slip::Other,
        },
        None => Slip::Other,
    }
}

// A text that is no TOML.
fn note_no_toml(
    alloc: Global,
    findings: &mut Findings,
    text: &str,
    error: &toml::de::Error,
) -> Result<(), AllocError>
    ensures { IfOk result (λ _. is_clean findings.new ≡ false) }
{
    let line = error.span().map(|span| line_at(text, span.start));
    findings.look_at(line, Subject::File);
    let why = shown_text(alloc, error.message())?;
    findings.note(Mistake::NotToml(slip_at(text, line), why))
}

// The port of the controller, if the file has one.
fn read_port(findings: &mut Findings, table: &Table) -> Result<Option<u16>, AllocError>
    ensures { IfOk result (λ _. is_clean findings.new
        ≡ (is_clean findings.old && is_port_or_none (get_member (codes "port") (table_view table.now)))) }
{
    if value_at(table, "port").is_none() {
        return Ok(None);
    }
    match port_in(table) {
        Ok(port) => Ok(Some(port)),
        Err(mistake) => {
            findings.note(mistake)?;
            Ok(None)
        }
    }
}

// Notes a key of the file, if it is not among these, with the line at which it stands.
fn note_key_of_file(
    alloc: Global,
    findings: &mut Findings,
    text: &str,
    key: &str,
    known: &[&str],
) -> Result<(), AllocError>
    ensures { IfOk result (λ _. is_clean findings.new
        ≡ (is_clean findings.old && is_among (map (λ k. k.now) known.now) key.now)) }
{
    if !is_known(known, key) {
        findings.look_at(line_of_key(text, key), Subject::File);
    }
    note_if_unknown(alloc, findings, key, Section::File, known)
}

// Notes each key of the file that is not among these, with the line at which it stands.
fn note_unknown_of_file(
    alloc: Global,
    findings: &mut Findings,
    text: &str,
    table: &Table,
    known: &[&str],
) -> Result<(), AllocError>
    ensures { IfOk result (λ _. is_clean findings.new
        ≡ (is_clean findings.old && has_only (map (λ k. k.now) known.now) (table_view table.now))) }
{
    for key in table.keys() {
        note_key_of_file(alloc, findings, text, key.as_str(), known)?;
    }
    Ok(())
}

// Reads what a table says.
fn read_table(
    alloc: Global,
    findings: &mut Findings,
    text: &str,
    table: &Table,
) -> Result<ShowFile, AllocError>
    ensures said { IfOk result (λ file. IsTrue (is_clean findings.new)
        → if_clean findings.old (file_said (table_view table.now)) ≡ Some (said_of file)) }
    ensures whole { IfOk result (λ file. IsTrue (no_place_in (table_view table.now))
        → if_clean findings.new (Some (said_of file)) ≡ if_clean findings.old (file_said (table_view table.now))) }
{
    let known = ["port", "listen", "device", "cue", "rehearse"];
    note_unknown_of_file(alloc, findings, text, table, &known)?;
    let headers = headers_of(alloc, text)?;
    findings.look_at(line_of_key(text, "port"), Subject::File);
    let port = read_port(findings, table)?;
    findings.look_at(line_of_key(text, "listen"), Subject::File);
    let listen = read_listen(findings, table)?;
    let devices = read_devices(alloc, findings, &headers, table)?;
    let cues = read_cues(alloc, findings, &devices, &headers, table)?;
    Ok(ShowFile {
        port,
        listen,
        devices,
        cues,
    })
}

// A file that has nothing.
fn empty_file(alloc: Global) -> ShowFile {
    ShowFile {
        port: None,
        listen: None,
        devices: Vec::new(alloc),
        cues: Vec::new(alloc),
    }
}

/// Reads a show file. It fails only if memory ran out; what is wrong with the text is among the findings. If
/// there is none, the text says exactly what was read; and if a text says devices and cues, and has no `address` and
/// no `listen`, there is none.
pub fn read(alloc: Global, text: &str) -> Result<Draft, AllocError>
    ensures said { IfOk result (λ draft. draft.findings.items ≡ [] → text_said text.now ≡ Some (said_of draft.file)) }
    ensures whole { IfOk result (λ draft. IsTrue (names_no_place text.now)
        → said_without draft.findings.items draft.file ≡ text_said text.now) }
{
    let mut findings = Findings::new(alloc);
    let (file, table) = match toml::table_from_str(alloc, text) {
        Ok(table) => (read_table(alloc, &mut findings, text, &table)?, table),
        Err(error) if error.is_memory() => return Err(AllocError),
        Err(error) => {
            note_no_toml(alloc, &mut findings, text, &error)?;
            (empty_file(alloc), Table::new(alloc))
        }
    };
    Ok(Draft {
        file,
        findings: findings.into_vec(),
        table,
        rehearse: line_of_key(text, "rehearse"),
    })
}
