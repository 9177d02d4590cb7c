//! The parts of a cue, as a show file has them.
ghost use Rattle.std.specs.Prelude.{◌≡◌, ◌++◌, OnOk, string_bytes, true};
ghost use Rattle.std.specs.List.{flat_map};
ghost use Rattle.toml.specs.Text.{before_item, after_item, array_end};
ghost use Rattle.cue_show_file.specs.Written as written;

use super::Quoted;
use crate::text::plain_text;
use cue_show::{Part, Parts};
use std::alloc::{AllocError, Global};
use std::fmt::Write;

// What says that a part is optional; nothing of a required one.
fn optional_text(optional: bool) -> &'static str
    ensures { result.now ≡ written.optional_text optional }
{
    if optional { ", optional = true" } else { "" }
}

// Writes the rest of a part that is plain text. The keys stand in the order of the alphabet, as TOML's writer has them.
fn push_plain(text: &mut String, optional: bool, plain: &str) -> Result<(), AllocError>
    ensures { OnOk result (string_bytes text.new
        ≡ string_bytes text.old ++ written.plain_rest optional plain.now) }
{
    let optional = optional_text(optional);
    let plain = Quoted { text: plain };
    write!(text, "{optional}, text = {plain} }}")
}

// Writes the rest of a part by the digits of its bytes.
fn push_digits(text: &mut String, optional: bool, digits: &str) -> Result<(), AllocError>
    ensures { OnOk result (string_bytes text.new
        ≡ string_bytes text.old ++ written.digits_rest optional digits.now) }
{
    let digits = Quoted { text: digits };
    let optional = optional_text(optional);
    write!(text, ", hex = {digits}{optional} }}")
}

// Writes the rest of a part, after its device.
fn push_rest(alloc: Global, text: &mut String, part: &Part) -> Result<(), AllocError>
    ensures { OnOk result (string_bytes text.new ≡ string_bytes text.old ++ written.part_rest part.now) }
{
    match plain_text(part.bytes.as_slice()) {
        Some(plain) => push_plain(text, part.optional, plain),
        None => {
            let digits = hex::encode(alloc, part.bytes.as_slice())?;
            push_digits(text, part.optional, digits.as_str())
        }
    }
}

fn push_part(alloc: Global, text: &mut String, part: &Part) -> Result<(), AllocError>
    ensures { OnOk result (string_bytes text.new ≡ string_bytes text.old ++ written.part_text part.now) }
{
    let device = part.device.number();
    write!(text, "{{ device = {device}")?;
    push_rest(alloc, text, part)
}

// What stands before each part, if each has a line of its own and if not.
fn before_part(lines: bool) -> &'static str
    ensures { result.now ≡ before_item lines true }
{
    if lines { "\n    " } else { "" }
}

// What stands after each part.
fn after_part(lines: bool) -> &'static str
    ensures { result.now ≡ after_item lines }
{
    if lines { "," } else { "" }
}

// What stands after the last one.
fn parts_end(lines: bool) -> &'static str
    ensures { result.now ≡ array_end lines }
{
    if lines { "\n]" } else { "]" }
}

fn push_parts(
    alloc: Global,
    text: &mut String,
    parts: &[Part],
    lines: bool,
) -> Result<(), AllocError>
    ensures { OnOk result (string_bytes text.new
        ≡ string_bytes text.old ++ flat_map (written.part_item lines) parts.now) }
{
    for part in parts {
        text.push_str(before_part(lines))?;
        push_part(alloc, text, part)?;
        text.push_str(after_part(lines))?;
    }
    Ok(())
}

/// Writes the line with the parts. Two or more have a line each.
pub(super) fn push_parts_line(
    alloc: Global,
    text: &mut String,
    parts: &Parts,
) -> Result<(), AllocError>
    ensures { OnOk result (string_bytes text.new ≡ string_bytes text.old ++ written.parts_line parts.now) }
{
    let parts = parts.as_slice();
    let lines = parts.len() > 1;
    text.push_str("parts = [")?;
    push_parts(alloc, text, parts, lines)?;
    text.push_str(parts_end(lines))?;
    text.push_str("\n")
}
