//! What the report says of the devices of an attempt.
ghost use Rattle.std.specs.Prelude.{◌≡◌, IfOk, OnOk, length, string_bytes};
ghost use Rattle.cue_report.specs.Following as following;
ghost use Rattle.cue_report.specs.Telling as spec;

use super::{Told, Words, ending_words, push_piece};
use crate::attempt::Attempt;
use crate::course::{Course, Fate};
use cue_show::DeviceNo;
use std::alloc::{AllocError, Global};

// Puts a device after a text, with these words before it.
#[tactic(auto, using(crate::proofs::TextLemmas::grows_none, crate::proofs::TextLemmas::grows_by))]
fn push_device(
    told: Told<'_>,
    text: &mut String,
    front: &str,
    device: DeviceNo,
) -> Result<(), AllocError>
    ensures { OnOk result (spec.Grows (string_bytes text.old) (string_bytes text.new)) }
{
    text.push_str(front)?;
    text.push_str(told.device(device)?.as_str())?;
    Ok(())
}

// Puts the devices with a fate that is meant after a text, the first with these words before it.
#[tactic(auto, using(crate::proofs::TextLemmas::grows_none, crate::proofs::TextLemmas::grows_by))]
fn push_devices(
    told: Told<'_>,
    text: &mut String,
    front: &str,
    devices: &[Course],
    is_failed: bool,
) -> Result<(), AllocError>
    ensures { OnOk result (spec.Grows (string_bytes text.old) (string_bytes text.new)) }
{
    let mut is_first = true;
    for course in devices {
        if course.fate.is_failed() == is_failed && course.fate != Fate::Well {
            let before = if is_first { front } else { ", " };
            push_device(told, text, before, course.device)?;
            is_first = false;
        }
    }
    Ok(())
}

/// How an attempt ended, and why: `complete, without device 4 "Lamp"`.
#[tactic(auto, using(crate::proofs::TextLemmas::grows_none, crate::proofs::TextLemmas::grows_then))]
pub fn end_words(told: Told<'_>, attempt: &Attempt) -> Words
    ensures { IfOk result (λ text. spec.Grows (spec.ending_words attempt.now.ended) (string_bytes text)) }
{
    let mut text = String::from_str(told.alloc, ending_words(attempt.ended))?;
    push_why(&mut text, attempt.why.as_str())?;
    if attempt.given.is_some() {
        push_devices(told, &mut text, ", by ", &attempt.devices, true)?;
        push_devices(told, &mut text, ", without ", &attempt.devices, false)?;
    }
    Ok(text)
}

// Puts why it ended after a text, if that is known.
#[tactic(auto, using(crate::proofs::TextLemmas::grows_none, crate::proofs::TextLemmas::grows_by))]
fn push_why(text: &mut String, why: &str) -> Result<(), AllocError>
    ensures { OnOk result (spec.Grows (string_bytes text.old) (string_bytes text.new)) }
{
    if !why.is_empty() {
        text.push_str(": ")?;
        text.push_str(why)?;
    }
    Ok(())
}

// What became of a device, in words; empty if nothing befell it.
fn fate_words(fate: Fate, was_given: bool) -> &'static str
    ensures { result.now ≡ spec.fate_words fate was_given }
{
    match (fate, was_given) {
        (Fate::Well, _) => "",
        (Fate::AbortedEarly, true) => "excused: it aborted while it prepared",
        (Fate::AbortedEarly, false) => "it aborted while it prepared",
        (Fate::ReleasedEarly, true) => "excused: it was released while it prepared",
        (Fate::ReleasedEarly, false) => "it was released while it prepared",
        (Fate::Aborted, _) => "failed: it aborted after the go",
        (Fate::Released, _) => "failed: it was released after the go",
        (Fate::Failed, _) => "failed after the go",
    }
}

// What is missing of a device that nothing befell; empty if it did all that it was ordered.
fn missing_words(course: &Course) -> &'static str
    ensures { result.now ≡ spec.missing_words course.now }
{
    match (course.fate, course.sent, course.done, course.ready) {
        (Fate::Well, Some(_), None, _) => "no answer to GO",
        (Fate::Well, None, _, None) => "not ready",
        _ => "",
    }
}

/// What is said of a device beside its times; empty if it did all that it was ordered.
pub fn remark_words(alloc: Global, course: &Course, was_given: bool) -> Words
    ensures { IfOk result (λ text. string_bytes text ≡ spec.remark_words course.now was_given) }
{
    let mut text = String::from_str(alloc, fate_words(course.fate, was_given))?;
    text.push_str(missing_words(course))?;
    if course.is_unsent {
        push_piece(&mut text, "an order to it was not sent")?;
    }
    Ok(text)
}

// How long something took; less than a second if both lines are of the same one. Empty if that is not known.
fn took_words(alloc: Global, what: &str, seconds: Option<u64>) -> Words
    ensures { IfOk result (λ text. string_bytes text ≡ spec.took_words what.now seconds) }
{
    match seconds {
        Some(0) => format!(in alloc; "{what} in less than 1 s"),
        Some(seconds) => format!(in alloc; "{what} in {seconds} s"),
        None => Ok(String::new(alloc)),
    }
}

/// What a device did in an attempt: `prepared in 1 s, moved in 4 s`.
fn course_words(alloc: Global, course: &Course, was_given: bool) -> Words
    ensures { IfOk result (λ text. string_bytes text ≡ spec.course_words course.now was_given) }
{
    let mut text = took_words(alloc, "prepared", course.prepared())?;
    push_piece(
        &mut text,
        took_words(alloc, "moved", course.moved())?.as_str(),
    )?;
    push_piece(&mut text, remark_words(alloc, course, was_given)?.as_str())?;
    Ok(text)
}

/// What each device of an attempt did: `device 4 "Lamp": prepared in 1 s, moved in 4 s`.
pub fn courses_words(told: Told<'_>, attempt: &Attempt) -> Result<Vec<String>, AllocError>
    ensures { IfOk result (λ all. length all.items ≡ length attempt.now.devices.items) }
{
    let mut all = Vec::new(told.alloc);
    for course in attempt.devices.iter() {
        let mut text = told.device(course.device)?;
        text.push_str(": ")?;
        text.push_str(course_words(told.alloc, course, attempt.given.is_some())?.as_str())?;
        all.push(text)?;
    }
    Ok(all)
}
