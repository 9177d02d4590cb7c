//! Writing fields, each after what stands already.
ghost use Rattle.std.specs.Prelude.{◌≡◌, ◌≤◌, ◌++◌, length, IsTrue, OnOk};
ghost use Rattle.std.specs.List.{flat_map, list_all};
ghost use Rattle.cue_show.specs.Parts.{is_part, are_parts};
ghost use Rattle.cue_records.specs.Fields.{byte_text, number_text, text_text, flag_number, flag_text, part_text};
ghost use Rattle.cue_records.specs.Fields.{parts_text, entry_text, new_cue_text, reason_number};

use crate::parts_form::PartsForm;
use cue_exchange::Reason;
use cue_show::{CueNo, DeviceNo, Part, Parts};
use std::alloc::AllocError;

/// One byte.
pub(crate) fn put_byte(out: &mut Vec<u8>, byte: u8) -> Result<(), AllocError>
    ensures { OnOk result (out.new.items ≡ out.old.items ++ byte_text byte) }
{
    out.push(byte)?;
    Ok(())
}

/// Four bytes.
pub(crate) fn put_u32(out: &mut Vec<u8>, number: u32) -> Result<(), AllocError>
    ensures { OnOk result (out.new.items ≡ out.old.items ++ number_text number) }
{
    out.extend_from_slice(&number.to_be_bytes())
}

// A length in one byte, and the bytes.
fn put_text(out: &mut Vec<u8>, text: &[u8]) -> Result<(), AllocError>
    requires { length text.now ≤ 255 }
    ensures { OnOk result (out.new.items ≡ out.old.items ++ text_text text.now) }
{
    out.push(text.len() as u8)?;
    out.extend_from_slice(text)
}

/// A cue number.
pub(crate) fn put_cue(out: &mut Vec<u8>, cue: CueNo) -> Result<(), AllocError>
    ensures { OnOk result (out.new.items ≡ out.old.items ++ text_text cue) }
{
    put_text(out, cue.text())
}

fn flag_number(optional: bool) -> u8
    ensures { result ≡ flag_number optional }
{
    if optional { 1 } else { 0 }
}

fn put_flag(out: &mut Vec<u8>, form: PartsForm, optional: bool) -> Result<(), AllocError>
    ensures { OnOk result (out.new.items ≡ out.old.items ++ flag_text form optional) }
{
    match form {
        PartsForm::Plain => Ok(()),
        PartsForm::Flagged => put_byte(out, flag_number(optional)),
    }
}

fn put_part(out: &mut Vec<u8>, form: PartsForm, part: &Part) -> Result<(), AllocError>
    requires { IsTrue (is_part part.now) }
    ensures { OnOk result (out.new.items ≡ out.old.items ++ part_text form part.now) }
{
    out.push(part.device.number())?;
    put_flag(out, form, part.optional)?;
    put_text(out, part.bytes.as_slice())
}

fn put_part_list(out: &mut Vec<u8>, form: PartsForm, parts: &[Part]) -> Result<(), AllocError>
    requires { IsTrue (list_all is_part parts.now) }
    ensures { OnOk result (out.new.items ≡ out.old.items ++ flat_map (part_text form) parts.now) }
{
    for part in parts {
        put_part(out, form, part)?;
    }
    Ok(())
}

// The parts of a cue, after their count.
fn put_parts(out: &mut Vec<u8>, form: PartsForm, parts: &Parts) -> Result<(), AllocError>
    requires { IsTrue (are_parts parts.now) }
    ensures { OnOk result (out.new.items ≡ out.old.items ++ parts_text form parts.now) }
{
    let parts = parts.as_slice();
    out.push(parts.len() as u8)?;
    put_part_list(out, form, parts)
}

/// A device and its port.
pub(crate) fn put_entry(out: &mut Vec<u8>, device: DeviceNo, port: u16) -> Result<(), AllocError>
    ensures { OnOk result (out.new.items ≡ out.old.items ++ entry_text (device, port)) }
{
    out.push(device.number())?;
    out.extend_from_slice(&port.to_be_bytes())
}

/// A cue and its parts.
pub(crate) fn put_new_cue(
    out: &mut Vec<u8>,
    form: PartsForm,
    cue: CueNo,
    parts: &Parts,
) -> Result<(), AllocError>
    requires { IsTrue (are_parts parts.now) }
    ensures { OnOk result (out.new.items ≡ out.old.items ++ new_cue_text form (cue, parts.now)) }
{
    put_cue(out, cue)?;
    put_parts(out, form, parts)
}

/// A number, and one byte.
pub(crate) fn put_numbered(out: &mut Vec<u8>, seq: u32, byte: u8) -> Result<(), AllocError>
    ensures { OnOk result (out.new.items ≡ out.old.items ++ (number_text seq ++ byte_text byte)) }
{
    out.extend_from_slice(&seq.to_be_bytes())?;
    put_byte(out, byte)
}

/// The number of a reason.
pub(crate) fn reason_number(reason: Reason) -> u8
    ensures { result ≡ reason_number reason }
{
    match reason {
        Reason::Operator => 1,
        Reason::Deadline => 2,
        Reason::Abort => 3,
        Reason::Power => 4,
        Reason::Release => 5,
    }
}
