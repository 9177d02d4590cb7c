//! The cues that are stood by together with a cue of a show file.
ghost use Rattle.std.specs.Prelude.{◌≡◌, ◌&&◌, IfOk, IsTrue, Some, codes, is_some};
ghost use Rattle.std.specs.Result.{result_ok};
ghost use Rattle.toml.specs.Data.{get_member};
ghost use Rattle.toml.specs.View.{items_view, table_view, view};
ghost use Rattle.cue_show_file.specs.Reading.{is_clean, then_more, then_one};
ghost use Rattle.cue_show_file.specs.Said.{companions_by, number_said, numbers_said};

use super::keys::value_at;
use crate::file::Companions;
use crate::mistake::{Findings, Key, Mistake};
use cue_show::CueNo;
use std::alloc::{AllocError, Global};
use toml::{Table, Value};

// The cue number that a value is, or what is wrong with it.
fn number_in(value: &Value) -> Result<CueNo, Mistake>
    ensures { result_ok result ≡ number_said (view value.now) }
{
    match value {
        Value::String(text) => CueNo::read(text.as_bytes()).ok_or(Mistake::BadCue),
        _ => Err(Mistake::OtherKind(Key::With)),
    }
}

// Reads a cue number, and puts it after the others; a wrong one is noted.
fn read_number(
    findings: &mut Findings,
    cues: &mut Vec<CueNo>,
    value: &Value,
) -> Result<(), AllocError>
    ensures value { IfOk result (λ _. IsTrue (is_some (number_said (view value.now)))
        → Some cues.new.items ≡ then_one cues.old.items (number_said (view value.now))) }
    ensures clean { IfOk result (λ _. is_clean findings.new
        ≡ (is_clean findings.old && is_some (number_said (view value.now)))) }
{
    match number_in(value) {
        Ok(cue) => {
            cues.push(cue)?;
            Ok(())
        }
        Err(mistake) => findings.note(mistake),
    }
}

// Reads each of these.
fn read_each(
    findings: &mut Findings,
    cues: &mut Vec<CueNo>,
    values: &[Value],
) -> Result<(), AllocError>
    ensures value { IfOk result (λ _. IsTrue (is_some (numbers_said (items_view values.now)))
        → Some cues.new.items ≡ then_more cues.old.items (numbers_said (items_view values.now))) }
    ensures clean { IfOk result (λ _. is_clean findings.new
        ≡ (is_clean findings.old && is_some (numbers_said (items_view values.now)))) }
{
    match values {
        [] => Ok(()),
        [first, rest @ ..] => {
            read_number(findings, cues, first)?;
            read_each(findings, cues, rest)
        }
    }
}

/// The cues at the key `with`; those that are cue numbers if something is wrong there, which is noted.
pub(super) fn read_companions(
    alloc: Global,
    findings: &mut Findings,
    table: &Table,
) -> Result<Companions, AllocError>
    ensures value { let said = companions_by (get_member (codes "with") (table_view table.now)) in
        IfOk result (λ cues. IsTrue (is_some said) → Some cues ≡ said) }
    ensures clean { IfOk result (λ _. is_clean findings.new
        ≡ (is_clean findings.old && is_some (companions_by (get_member (codes "with") (table_view table.now))))) }
{
    let mut cues = Vec::new(alloc);
    match value_at(table, "with") {
        None => {}
        Some(Value::Array(values)) => read_each(findings, &mut cues, values)?,
        Some(_) => findings.note(Mistake::OtherKind(Key::With))?,
    }
    Ok(Companions::of(cues))
}
