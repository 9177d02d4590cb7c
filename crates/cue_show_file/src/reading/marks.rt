//! The colour and the flag of a cue.
ghost use Rattle.std.specs.Prelude.{◌≡◌, ◌&&◌, IfOk, IsTrue, Some, codes, is_some};
ghost use Rattle.std.specs.Result.{result_ok};
ghost use Rattle.toml.specs.Data.{get_member};
ghost use Rattle.toml.specs.View.{table_view};
ghost use Rattle.cue_show_file.specs.Reading.{is_clean};
ghost use Rattle.cue_show_file.specs.Said.{color_by, flag_by};

use super::keys::value_at;
use crate::marks::{Color, Flag};
use crate::mistake::{Findings, Key, Mistake};
use std::alloc::AllocError;
use toml::{Table, Value};

// The colour at the key `color`, or what is wrong with it.
fn color_in(table: &Table) -> Result<Option<Color>, Mistake>
    ensures { result_ok result ≡ color_by (get_member (codes "color") (table_view table.now)) }
{
    match value_at(table, "color") {
        None => Ok(None),
        Some(Value::String(text)) => match Color::read(text.as_str()) {
            Some(color) => Ok(Some(color)),
            None => Err(Mistake::BadColor),
        },
        Some(_) => Err(Mistake::OtherKind(Key::Color)),
    }
}

// The flag at the key `flag`, or what is wrong with it.
fn flag_in(table: &Table) -> Result<Option<Flag>, Mistake>
    ensures { result_ok result ≡ flag_by (get_member (codes "flag") (table_view table.now)) }
{
    match value_at(table, "flag") {
        None => Ok(None),
        Some(Value::String(text)) => match Flag::read(text.as_str()) {
            Some(flag) => Ok(Some(flag)),
            None => Err(Mistake::BadFlag),
        },
        Some(_) => Err(Mistake::OtherKind(Key::Flag)),
    }
}

/// The colour of a cue; none if it has none, or if that is wrong, which is noted.
pub(super) fn read_color(
    findings: &mut Findings,
    table: &Table,
) -> Result<Option<Color>, AllocError>
    ensures value { let said = color_by (get_member (codes "color") (table_view table.now)) in
        IfOk result (λ color. IsTrue (is_some said) → Some color ≡ said) }
    ensures clean { IfOk result (λ _. is_clean findings.new
        ≡ (is_clean findings.old && is_some (color_by (get_member (codes "color") (table_view table.now))))) }
{
    match color_in(table) {
        Ok(color) => Ok(color),
        Err(mistake) => {
            findings.note(mistake)?;
            Ok(None)
        }
    }
}

/// The flag of a cue; none if it has none, or if that is wrong, which is noted.
pub(super) fn read_flag(findings: &mut Findings, table: &Table) -> Result<Option<Flag>, AllocError>
    ensures value { let said = flag_by (get_member (codes "flag") (table_view table.now)) in
        IfOk result (λ flag. IsTrue (is_some said) → Some flag ≡ said) }
    ensures clean { IfOk result (λ _. is_clean findings.new
        ≡ (is_clean findings.old && is_some (flag_by (get_member (codes "flag") (table_view table.now))))) }
{
    match flag_in(table) {
        Ok(flag) => Ok(flag),
        Err(mistake) => {
            findings.note(mistake)?;
            Ok(None)
        }
    }
}
