//! The cues of a show file.
ghost use Rattle.std.specs.Prelude.{◌≡◌, ◌&&◌, IfOk, Some, codes, is_some};
ghost use Rattle.toml.specs.Data.{get_member};
ghost use Rattle.toml.specs.View.{items_view, table_view, view};
ghost use Rattle.cue_show_file.specs.Reading.{cues_of, if_clean, is_clean, then_one};
ghost use Rattle.cue_show_file.specs.Said.{cue_at, cue_said, each_said, is_of_cue, list_or_none, list_said, only_if};
ghost use Rattle.cue_show_file.specs.Said.{part_said, table_said};

use super::forms::read_forms;
use super::keys::{cue_in, note_unknown, text_in, value_at};
use super::marks::{read_color, read_flag};
use super::parts::read_parts;
use super::tables::{Place, place_of, tables_in};
use super::together::read_companions;
use crate::checking::note_torn;
use crate::file::{Companions, CueEntry, DeviceEntry, Forms};
use crate::headers::{Headers, lines_for};
use crate::marks::{Color, Flag};
use crate::mistake::{Findings, Key, Mistake, Section, Subject};
use cue_show::{CueNo, Parts};
use std::alloc::{AllocError, Global};
use toml::{Table, Value};

// What a cue has beside its number, as far as it could be read.
#[derive(Drop)]
struct Rest {
    name: Option<String>,
    note: Option<String>,
    color: Option<Color>,
    flag: Option<Flag>,
    companions: Companions,
    parts: Parts,
    forms: Forms,
}

// The number of a cue; none if it is wrong, which is noted. From then on this cue is looked at.
fn read_number(
    findings: &mut Findings,
    at: Place,
    table: &Table,
) -> Result<Option<CueNo>, AllocError>
    ensures value { IfOk result (λ number. number ≡ cue_at (table_view table.now)) }
    ensures clean { IfOk result (λ _. is_clean findings.new
        ≡ (is_clean findings.old && is_some (cue_at (table_view table.now)))) }
{
    match cue_in(table) {
        Ok(number) => {
            findings.look_at(at.line, Subject::Cue(number));
            Ok(Some(number))
        }
        Err(mistake) => {
            findings.look_at(at.line, Subject::CueAt(at.place));
            findings.note(mistake)?;
            Ok(None)
        }
    }
}

// Reads what a cue has beside its number.
#[tactic(auto, unfolding(crate::specs::Said::is_of_cue))]
fn read_rest(alloc: Global, findings: &mut Findings, table: &Table) -> Result<Rest, AllocError>
    ensures { IfOk result (λ rest. if_clean findings.new (Some rest.parts) ≡ if_clean findings.old
        (only_if (is_of_cue (table_view table.now))
        (list_said part_said (get_member (codes "parts") (table_view table.now))))) }
{
    note_unknown(
        alloc,
        findings,
        table,
        Section::Cue,
        &["number", "name", "note", "color", "flag", "with", "parts"],
    )?;
    let name = text_in(findings, table, "name", Key::Name)?;
    let note = text_in(findings, table, "note", Key::Note)?;
    let color = read_color(findings, table)?;
    let flag = read_flag(findings, table)?;
    let companions = read_companions(alloc, findings, table)?;
    let parts = read_parts(alloc, findings, table)?;
    let forms = read_forms(alloc, table)?;
    Ok(Rest {
        name,
        note,
        color,
        flag,
        companions,
        parts,
        forms,
    })
}

// Whether these are all parts that the table has.
fn has_all(table: &Table, parts: &Parts) -> bool {
    match value_at(table, "parts") {
        Some(Value::Array(values)) => values.len() == parts.as_slice().len(),
        _ => false,
    }
}

// Notes that the file had the cue before, where no check sees both: one of the two could not be read whole.
fn note_again(
    findings: &mut Findings,
    cues: &[CueEntry],
    number: CueNo,
    is_torn: bool,
) -> Result<(), AllocError>
    ensures { IfOk result (λ _. is_clean findings.new ≡ is_clean findings.old) }
{
    if findings.len() == 0 {
        return Ok(());
    }
    let was_read = cues.iter().any(|entry| entry.number == number);
    let was_torn = findings.has_refused(number);
    if was_read != was_torn && (is_torn || was_torn) {
        findings.note(Mistake::CueTwice)?;
    }
    if is_torn {
        findings.refuse(number)?;
    }
    Ok(())
}

// Reads a cue, and puts it after the others. Of one without a number, and of one whose parts could not all be read,
// what can be said of its parts is noted at once: it is not put there, so that nobody counts them.
fn read_cue(
    alloc: Global,
    findings: &mut Findings,
    devices: &[DeviceEntry],
    cues: &mut Vec<CueEntry>,
    at: Place,
    table: &Table,
) -> Result<(), AllocError>
    ensures { IfOk result (λ _. if_clean findings.new (Some (cues_of cues.new.items))
        ≡ if_clean findings.old (then_one (cues_of cues.old.items) (cue_said (table_view table.now)))) }
{
    let number = read_number(findings, at, table)?;
    let before = findings.len();
    let Rest {
        name,
        note,
        color,
        flag,
        companions,
        parts,
        forms,
    } = read_rest(alloc, findings, table)?;
    let is_torn = findings.len() > before && !has_all(table, &parts);
    if let Some(number) = number {
        note_again(findings, cues, number, is_torn)?;
    }
    match number {
        Some(number) if !is_torn => {
            cues.push(CueEntry {
                line: at.line,
                number,
                name,
                note,
                color,
                flag,
                companions,
                parts,
                forms,
            })?;
            Ok(())
        }
        _ => note_torn(findings, devices, &parts),
    }
}

// Reads the cue that a value is.
fn read_value(
    alloc: Global,
    findings: &mut Findings,
    devices: &[DeviceEntry],
    cues: &mut Vec<CueEntry>,
    at: Place,
    value: &Value,
) -> Result<(), AllocError>
    ensures { IfOk result (λ _. if_clean findings.new (Some (cues_of cues.new.items))
        ≡ if_clean findings.old (then_one (cues_of cues.old.items) (table_said cue_said (view value.now)))) }
{
    match value {
        Value::Table(table) => read_cue(alloc, findings, devices, cues, at, table),
        _ => {
            findings.look_at(at.line, Subject::CueAt(at.place));
            findings.note(Mistake::NoTables)
        }
    }
}

// Reads each of these.
fn read_each(
    alloc: Global,
    findings: &mut Findings,
    devices: &[DeviceEntry],
    lines: &[usize],
    values: &[Value],
) -> Result<Vec<CueEntry>, AllocError>
    ensures { IfOk result (λ cues. if_clean findings.new (Some (cues_of cues.items))
        ≡ if_clean findings.old (each_said cue_said (items_view values.now))) }
{
    let mut cues = Vec::new(alloc);
    for (index, value) in values.iter().enumerate() {
        let at = place_of(lines, index);
        read_value(alloc, findings, devices, &mut cues, at, value)?;
    }
    Ok(cues)
}

// The cues of a file that has these devices. Each is at the line of its header, if there are as many.
pub(super) fn read_cues(
    alloc: Global,
    findings: &mut Findings,
    devices: &[DeviceEntry],
    headers: &Headers,
    table: &Table,
) -> Result<Vec<CueEntry>, AllocError>
    ensures { IfOk result (λ cues. if_clean findings.new (Some (cues_of cues.items))
        ≡ if_clean findings.old (list_or_none cue_said (get_member (codes "cue") (table_view table.now)))) }
{
    let values = tables_in(findings, headers.single, table, "cue")?;
    let lines = lines_for(&headers.cues, values.len());
    read_each(alloc, findings, devices, lines, values)
}
