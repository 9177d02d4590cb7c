//! Devices and cues in words.
ghost use Rattle.std.specs.Prelude.{◌≡◌, ◌++◌, ◌==◌, ℕ, List, OnOk, codes, decimal, drop, if◌then◌else◌, length, take};
ghost use Rattle.cue_evening.specs.Names as spec;

use cue_show::{CueNo, DeviceNo};
use itoa::Buffer;
use std::alloc::AllocError;

/// The most of a list that have their number in a line.
const MAX_NAMED: usize = 16;

/// Writes a number in digits.
pub fn push_number(text: &mut Vec<u8>, number: u64) -> Result<(), AllocError>
    ensures { OnOk result (text.new.items ≡ text.old.items ++ decimal number) }
{
    let mut buffer = Buffer::new();
    text.extend_from_slice(buffer.format(number).as_bytes())
}

/// What has a number in a line.
pub trait Numbered {
    /// How a line writes it.
    ghost text_of: { Self → List ℕ };

    /// Writes its number.
    fn push_to(&self, text: &mut Vec<u8>) -> Result<(), AllocError>
        ensures { OnOk result (text.new.items ≡ text.old.items ++ text_of self.now) };
}

impl Numbered for DeviceNo {
    ghost text_of = { decimal };

    fn push_to(&self, text: &mut Vec<u8>) -> Result<(), AllocError> {
        push_number(text, u64::from(self.number()))
    }
}

impl Numbered for CueNo {
    ghost text_of = { λ cue. cue };

    fn push_to(&self, text: &mut Vec<u8>) -> Result<(), AllocError> {
        text.extend_from_slice(self.text())
    }
}

/// Writes a number between words.
pub fn push_between<T: Numbered>(
    text: &mut Vec<u8>,
    front: &[u8],
    numbered: &T,
    back: &[u8],
) -> Result<(), AllocError>
    ensures { OnOk result (text.new.items ≡
        text.old.items ++ (front.now ++ (T.text_of numbered.now ++ back.now))) }
{
    text.extend_from_slice(front)?;
    numbered.push_to(text)?;
    text.extend_from_slice(back)
}

// What stands before the next of a list, if these come after it, and so many more.
fn mark_before<T>(rest: &[T], more: usize) -> &'static [u8]
    ensures { result.now ≡ spec.mark_before (length rest.now) more }
{
    if rest.is_empty() && more == 0 {
        b" and "
    } else {
        b", "
    }
}

// Says how many there are beside those that have their number in the line.
fn push_more(text: &mut Vec<u8>, more: usize) -> Result<(), AllocError>
    ensures { OnOk result (text.new.items ≡ text.old.items ++ spec.more_text more) }
{
    if more == 0 {
        return Ok(());
    }
    text.extend_from_slice(b" and ")?;
    push_number(text, more as u64)?;
    text.extend_from_slice(b" more")
}

// Writes the others of a list, and how many more there are.
fn push_others<T: Numbered>(text: &mut Vec<u8>, others: &[T], more: usize) -> Result<(), AllocError>
    ensures { OnOk result (text.new.items ≡ text.old.items ++ spec.others_text T.text_of others.now more) }
{
    match others {
        [] => push_more(text, more),
        [next, rest @ ..] => {
            text.extend_from_slice(mark_before(rest, more))?;
            next.push_to(text)?;
            push_others(text, rest, more)
        }
    }
}

// Writes a list, and how many more there are.
fn push_named<T: Numbered>(text: &mut Vec<u8>, list: &[T], more: usize) -> Result<(), AllocError>
    ensures { OnOk result (text.new.items ≡ text.old.items ++ spec.named_text T.text_of list.now more) }
{
    match list {
        [] => push_more(text, more),
        [first, others @ ..] => {
            first.push_to(text)?;
            push_others(text, others, more)
        }
    }
}

/// Writes the numbers of a list, as `3, 4 and 5`.
#[tactic(auto, unfolding(crate::specs::Names::list_text))]
pub fn push_list<T: Numbered>(text: &mut Vec<u8>, list: &[T]) -> Result<(), AllocError>
    ensures { OnOk result (text.new.items ≡ text.old.items ++ spec.list_text T.text_of list.now) }
{
    match list.split_at_checked(MAX_NAMED) {
        Some((named, rest)) => push_named(text, named, rest.len()),
        None => push_named(text, list, 0),
    }
}

// The word for one or for more.
fn word_for(count: usize, one: &'static [u8], more: &'static [u8]) -> &'static [u8]
    ensures { result.now ≡ (if count == 1 then one.now else more.now) }
{
    if count == 1 { one } else { more }
}

/// Writes devices, as `device 3` or `devices 3 and 4`.
#[tactic(auto, unfolding(crate::specs::Names::devices_text))]
pub fn push_devices(text: &mut Vec<u8>, devices: &[DeviceNo]) -> Result<(), AllocError>
    ensures { OnOk result (text.new.items ≡ text.old.items ++ spec.devices_text devices.now) }
{
    text.extend_from_slice(word_for(devices.len(), b"device ", b"devices "))?;
    push_list(text, devices)
}

/// Writes cues, as `cue 12` or `cues 12 and 13`.
#[tactic(auto, unfolding(crate::specs::Names::cues_text))]
pub fn push_cues(text: &mut Vec<u8>, cues: &[CueNo]) -> Result<(), AllocError>
    ensures { OnOk result (text.new.items ≡ text.old.items ++ spec.cues_text cues.now) }
{
    text.extend_from_slice(word_for(cues.len(), b"cue ", b"cues "))?;
    push_list(text, cues)
}
