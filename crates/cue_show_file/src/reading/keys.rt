//! The keys of one table of a show file: what stands there, or what is wrong with it.
ghost use Rattle.std.specs.Prelude.{◌≡◌, ◌&&◌, IfOk, codes, map, option_and_then, option_copied, option_map};
ghost use Rattle.std.specs.Result.{result_ok};
ghost use Rattle.toml.specs.Data.{as_bool, as_integer, as_str, get_member};
ghost use Rattle.toml.specs.View.{table_view, view};
ghost use Rattle.cue_show.specs.DeviceNumber.{device_of as device_said};
ghost use Rattle.cue_operator.specs.Arguments.{port_in as port_said};
ghost use Rattle.cue_show_file.specs.Reading.{is_clean};
ghost use Rattle.cue_show_file.specs.Said.{
  cue_at,
  device_at,
  has_only,
  is_among,
  is_text_or_none,
  optional_by,
  port_at,
};

use crate::mistake::{Findings, Key, Mistake, Section};
use cue_show::{CueNo, DeviceNo};
use cue_words::shown_text;
use std::alloc::{AllocError, Global};
use toml::{Table, Value};

/// Whether the key is among these.
pub(super) fn is_known(known: &[&str], key: &str) -> bool
    ensures { result ≡ is_among (map (λ k. k.now) known.now) key.now }
{
    for name in known {
        if *name == key {
            return true;
        }
    }
    false
}

// The most characters of a key that are shown.
const MAX_SHOWN: usize = 64;

// The first characters of a key, as many as are shown.
fn front_of(key: &str) -> &str {
    match key.char_indices().nth(MAX_SHOWN) {
        Some((end, _)) => key.get(..end).unwrap_or(""),
        None => key,
    }
}

/// Notes the key, if it is not among these, which are those of such a table.
pub(super) fn note_if_unknown(
    alloc: Global,
    findings: &mut Findings,
    key: &str,
    section: Section,
    known: &[&str],
) -> Result<(), AllocError>
    ensures { IfOk result (λ _. is_clean findings.new
        ≡ (is_clean findings.old && is_among (map (λ k. k.now) known.now) key.now)) }
{
    if is_known(known, key) {
        return Ok(());
    }
    let shown = shown_text(alloc, front_of(key))?;
    findings.note(Mistake::UnknownKey(section, shown))
}

/// Notes each key that is not among these, which are those of such a table.
pub(super) fn note_unknown(
    alloc: Global,
    findings: &mut Findings,
    table: &Table,
    section: Section,
    known: &[&str],
) -> Result<(), AllocError>
    ensures { IfOk result (λ _. is_clean findings.new
        ≡ (is_clean findings.old && has_only (map (λ k. k.now) known.now) (table_view table.now))) }
{
    for key in table.keys() {
        note_if_unknown(alloc, findings, key.as_str(), section, known)?;
    }
    Ok(())
}

// The value at a key.
pub(crate) fn value_at<'a>(table: &'a Table, key: &str) -> Option<&'a Value>
    ensures { option_map (λ v. view v.now) result ≡ get_member key.now (table_view table.now) }
{
    table.get(key)
}

// What is wrong with a key that has to be there, and has no value of its kind.
pub(super) fn wanted(table: &Table, name: &str, key: Key) -> Mistake {
    match value_at(table, name) {
        Some(_) => Mistake::OtherKind(key),
        None => Mistake::Missing(key),
    }
}

// The number at a key.
fn number_at(table: &Table, key: &str) -> Option<i64>
    ensures { result ≡ option_and_then (λ d. as_integer d) (get_member key.now (table_view table.now)) }
{
    match value_at(table, key) {
        Some(value) => value.as_integer(),
        None => None,
    }
}

// The text at a key.
fn text_at<'a>(table: &'a Table, key: &str) -> Option<&'a str>
    ensures { option_copied result ≡ option_and_then (λ d. as_str d) (get_member key.now (table_view table.now)) }
{
    match value_at(table, key) {
        Some(value) => value.as_str(),
        None => None,
    }
}

// The text of a key that may be left out.
pub(super) fn text_in(
    findings: &mut Findings,
    table: &Table,
    name: &str,
    key: Key,
) -> Result<Option<String>, AllocError>
    ensures { IfOk result (λ _. is_clean findings.new
        ≡ (is_clean findings.old && is_text_or_none (get_member name.now (table_view table.now)))) }
{
    match value_at(table, name) {
        None => Ok(None),
        Some(Value::String(text)) => Ok(Some(text.clone()?)),
        Some(_) => {
            findings.note(Mistake::OtherKind(key))?;
            Ok(None)
        }
    }
}

// The device that a number of the file names.
fn device_of(number: i64) -> Option<DeviceNo>
    ensures { result ≡ device_said number }
{
    match i32::try_from(number) {
        Ok(number) => DeviceNo::of(number),
        Err(_) => None,
    }
}

// The port that a number of the file names.
fn port_of(number: i64) -> Option<u16>
    ensures { result ≡ port_said number }
{
    match u16::try_from(number) {
        Ok(port) if port >= 1 => Some(port),
        _ => None,
    }
}

// The port at the key `port`, or what is wrong with it.
pub(super) fn port_in(table: &Table) -> Result<u16, Mistake>
    ensures { result_ok result ≡ port_at (table_view table.now) }
{
    match number_at(table, "port") {
        Some(number) => port_of(number).ok_or(Mistake::BadPort),
        None => Err(wanted(table, "port", Key::Port)),
    }
}

// The device at this key, or what is wrong with it.
pub(super) fn device_in(table: &Table, name: &str, key: Key) -> Result<DeviceNo, Mistake>
    ensures { result_ok result ≡ device_at name.now (table_view table.now) }
{
    match number_at(table, name) {
        Some(number) => device_of(number).ok_or(Mistake::BadDevice),
        None => Err(wanted(table, name, key)),
    }
}

// The cue at the key `number`, or what is wrong with it.
pub(super) fn cue_in(table: &Table) -> Result<CueNo, Mistake>
    ensures { result_ok result ≡ cue_at (table_view table.now) }
{
    match text_at(table, "number") {
        Some(text) => CueNo::read(text.as_bytes()).ok_or(Mistake::BadCue),
        None => Err(wanted(table, "number", Key::CueNumber)),
    }
}

// Whether a part is optional.
pub(super) fn optional_in(table: &Table) -> Result<bool, Mistake>
    ensures { result_ok result ≡ optional_by (get_member (codes "optional") (table_view table.now)) }
{
    match value_at(table, "optional") {
        None => Ok(false),
        Some(Value::Boolean(optional)) => Ok(*optional),
        Some(_) => Err(Mistake::OtherKind(Key::Optional)),
    }
}
