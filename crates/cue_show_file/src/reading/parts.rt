//! The parts of a cue of a show file.
ghost use Rattle.std.specs.Prelude.{◌≡◌, ◌&&◌, [], IfOk, IsTrue, None, Some, codes, false, is_some, option_map};
ghost use Rattle.std.specs.Prelude.{unwrap_or};
ghost use Rattle.std.specs.Result.{result_ok};
ghost use Rattle.toml.specs.Data.{get_member};
ghost use Rattle.toml.specs.View.{items_view, table_view, view};
ghost use Rattle.cue_show_file.specs.Reading.{if_clean, is_clean, then_one};
ghost use Rattle.cue_show_file.specs.Said.{bytes_by, device_at, each_said, list_said, optional_by, part_in, part_said};
ghost use Rattle.cue_show_file.specs.Said.{table_said};

use super::keys::{device_in, note_unknown, optional_in, value_at, wanted};
use crate::mistake::{Findings, Key, Mistake, Section};
use cue_show::{Bytes, DeviceNo, Part, Parts};
use std::alloc::{AllocError, Global};
use toml::{Table, Value};

// The bytes of hexadecimal digits. The inner `Err` is what is wrong with them.
fn hex_of(alloc: Global, value: &Value) -> Result<Result<Vec<u8>, Mistake>, AllocError>
    ensures { IfOk result (λ r. option_map (λ b. b.items) (result_ok r) ≡ bytes_by (Some (view value.now)) None) }
{
    let Value::String(text) = value else {
        return Ok(Err(Mistake::OtherKind(Key::Hex)));
    };
    match hex::decode(alloc, text.as_bytes()) {
        Ok(bytes) => Ok(Ok(bytes)),
        Err(hex::FromHexError::OutOfMemory) => Err(AllocError),
        Err(_) => Ok(Err(Mistake::BadHex)),
    }
}

// The bytes of a text.
fn text_of(alloc: Global, value: &Value) -> Result<Result<Vec<u8>, Mistake>, AllocError>
    ensures { IfOk result (λ r. option_map (λ b. b.items) (result_ok r) ≡ bytes_by None (Some (view value.now))) }
{
    match value {
        Value::String(text) => Ok(Ok(Vec::from_slice(alloc, text.as_bytes())?)),
        _ => Ok(Err(Mistake::OtherKind(Key::Text))),
    }
}

// The bytes of the part; none if neither `hex` nor `text` stands there.
fn bytes_in(alloc: Global, table: &Table) -> Result<Result<Vec<u8>, Mistake>, AllocError>
    ensures { IfOk result (λ r. option_map (λ b. b.items) (result_ok r) ≡ bytes_by
        (get_member (codes "hex") (table_view table.now)) (get_member (codes "text") (table_view table.now))) }
{
    match (value_at(table, "hex"), value_at(table, "text")) {
        (None, None) => Ok(Ok(Vec::new(alloc))),
        (Some(digits), None) => hex_of(alloc, digits),
        (None, Some(text)) => text_of(alloc, text),
        (Some(_), Some(_)) => {
            let device = device_in(table, "device", Key::Device);
            Ok(Err(Mistake::TwoBytes(device.ok())))
        }
    }
}

// The device of a part; none if it is wrong, which is noted.
fn read_device(findings: &mut Findings, table: &Table) -> Result<Option<DeviceNo>, AllocError>
    ensures value { IfOk result (λ device. device ≡ device_at (codes "device") (table_view table.now)) }
    ensures clean { IfOk result (λ _. is_clean findings.new
        ≡ (is_clean findings.old && is_some (device_at (codes "device") (table_view table.now)))) }
{
    match device_in(table, "device", Key::Device) {
        Ok(device) => Ok(Some(device)),
        Err(mistake) => {
            findings.note(mistake)?;
            Ok(None)
        }
    }
}

// Whether a part is optional; required if that is wrong, which is noted.
fn read_optional(findings: &mut Findings, table: &Table) -> Result<bool, AllocError>
    ensures value { let said = optional_by (get_member (codes "optional") (table_view table.now)) in
        IfOk result (λ optional. optional ≡ unwrap_or said false) }
    ensures clean { IfOk result (λ _. is_clean findings.new ≡ (is_clean findings.old
        && is_some (optional_by (get_member (codes "optional") (table_view table.now))))) }
{
    match optional_in(table) {
        Ok(optional) => Ok(optional),
        Err(mistake) => {
            findings.note(mistake)?;
            Ok(false)
        }
    }
}

// The bytes of a part; none if they are wrong, which is noted.
fn read_bytes(alloc: Global, findings: &mut Findings, table: &Table) -> Result<Vec<u8>, AllocError>
    ensures value { let said = bytes_by (get_member (codes "hex") (table_view table.now))
        (get_member (codes "text") (table_view table.now)) in
        IfOk result (λ bytes. bytes.items ≡ unwrap_or said []) }
    ensures clean { let said = bytes_by (get_member (codes "hex") (table_view table.now))
        (get_member (codes "text") (table_view table.now)) in
        IfOk result (λ _. is_clean findings.new ≡ (is_clean findings.old && is_some said)) }
{
    match bytes_in(alloc, table)? {
        Ok(bytes) => Ok(bytes),
        Err(mistake) => {
            findings.note(mistake)?;
            Ok(Vec::new(alloc))
        }
    }
}

// The part that a table is; none if its device is wrong. Whatever is wrong with it is noted.
fn part_in(
    alloc: Global,
    findings: &mut Findings,
    table: &Table,
) -> Result<Option<Part>, AllocError>
    ensures value { IfOk result (λ part. IsTrue (is_clean findings.new) → part ≡ part_in (table_view table.now)) }
    ensures clean { IfOk result (λ _. is_clean findings.new
        ≡ (is_clean findings.old && is_some (part_in (table_view table.now)))) }
{
    let device = read_device(findings, table)?;
    let optional = read_optional(findings, table)?;
    let bytes = Bytes::from_vec(read_bytes(alloc, findings, table)?);
    match device {
        Some(device) => Ok(Some(Part {
            device,
            optional,
            bytes,
        })),
        None => Ok(None),
    }
}

// Reads a part, and puts it after the others if it has a device.
fn read_part(
    alloc: Global,
    findings: &mut Findings,
    parts: &mut Parts,
    value: &Value,
) -> Result<(), AllocError>
    ensures { IfOk result (λ _. if_clean findings.new (Some parts.new)
        ≡ if_clean findings.old (then_one parts.old (table_said part_said (view value.now)))) }
{
    let Value::Table(table) = value else {
        return findings.note(Mistake::OtherKind(Key::Parts));
    };
    note_unknown(
        alloc,
        findings,
        table,
        Section::Part,
        &["device", "hex", "text", "optional"],
    )?;
    match part_in(alloc, findings, table)? {
        Some(part) => parts.push(part),
        None => Ok(()),
    }
}

// The part that each value is.
fn read_each(alloc: Global, findings: &mut Findings, values: &[Value]) -> Result<Parts, AllocError>
    ensures { IfOk result (λ parts. if_clean findings.new (Some parts)
        ≡ if_clean findings.old (each_said part_said (items_view values.now))) }
{
    let mut parts = Parts::new(alloc);
    for value in values {
        read_part(alloc, findings, &mut parts, value)?;
    }
    Ok(parts)
}

// The parts of a cue.
pub(super) fn read_parts(
    alloc: Global,
    findings: &mut Findings,
    table: &Table,
) -> Result<Parts, AllocError>
    ensures { IfOk result (λ parts. if_clean findings.new (Some parts)
        ≡ if_clean findings.old (list_said part_said (get_member (codes "parts") (table_view table.now)))) }
{
    match value_at(table, "parts") {
        Some(Value::Array(values)) => read_each(alloc, findings, values),
        _ => {
            findings.note(wanted(table, "parts", Key::Parts))?;
            Ok(Parts::new(alloc))
        }
    }
}
