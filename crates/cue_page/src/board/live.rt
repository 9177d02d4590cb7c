//! The live attempts, each with its devices.
ghost use Rattle.std.specs.Prelude.{◌≡◌, IfOk, map};
ghost use Rattle.serde_json.specs.Data.{array};
ghost use Rattle.serde_json.specs.View.{items_of, view};
ghost use Rattle.cue_page.specs.Live as spec;

use cue_board::{Progress, progress_of, progress_word};
use cue_exchange::DeviceAnswer;
use cue_show_file::cue_text;
use cue_view::view::{LiveAttempt, View};
use cue_words::{answer_words, reason_words};
use serde_json::{Value, json};
use std::alloc::{AllocError, Global};

/// A device of a live attempt.
pub fn device_value(alloc: Global, answer: &DeviceAnswer) -> Result<Value, AllocError>
    ensures { IfOk result (λ v. view v ≡ spec.device_data answer.now) }
{
    let device = u64::from(answer.device.number());
    let words = answer_words(answer.answer);
    json!(in alloc; {"answer": words, "device": device, "optional": answer.optional})
}

// The devices of an attempt.
fn devices_value(alloc: Global, answers: &[DeviceAnswer]) -> Result<Value, AllocError>
    ensures { IfOk result (λ v. view v ≡ array (items_of (map spec.device_data answers.now))) }
{
    let mut devices = Vec::with_capacity(alloc, answers.len())?;
    for answer in answers {
        devices.push(device_value(alloc, answer)?)?;
    }
    Ok(Value::Array(devices))
}

// Why an attempt was given up; empty if it was not.
fn why(progress: Progress) -> &'static str
    ensures { result.now ≡ spec.why progress }
{
    match progress {
        Progress::GivenUp(reason) => reason_words(reason),
        _ => "",
    }
}

// For how long it is seen to be given; null if it is not.
fn given_value(at: u64, given: Option<u64>) -> Value
    ensures { view result ≡ spec.given_data at given }
{
    match given {
        Some(given) => Value::from(at.saturating_sub(given)),
        None => Value::Null,
    }
}

/// A live attempt: how far it has come, what is left of its ten seconds in milliseconds, and its devices.
pub fn attempt_value(
    alloc: Global,
    attempt: &LiveAttempt,
    shown: &View,
) -> Result<Value, AllocError>
    ensures { IfOk result (λ v. view v ≡ spec.attempt_data shown.now attempt.now) }
{
    let progress = progress_of(attempt, shown.is_in_sight());
    let (cue, seq) = (cue_text(&attempt.cue), u64::from(attempt.seq));
    let (stage, reason) = (progress_word(progress), why(progress));
    let given = given_value(shown.at, attempt.given);
    let devices = devices_value(alloc, attempt.devices.as_slice())?;
    json!(in alloc; {
        "attempt": seq, "cue": cue, "devices": devices, "given": given, "left": attempt.left, "ready": attempt.ready,
        "reason": reason, "stage": stage
    })
}

/// The live attempts of a view.
pub(super) fn live_value(
    alloc: Global,
    live: &[LiveAttempt],
    shown: &View,
) -> Result<Value, AllocError>
    ensures { IfOk result (λ v. view v ≡ array (items_of (map (spec.attempt_data shown.now) live.now))) }
{
    let mut attempts = Vec::with_capacity(alloc, live.len())?;
    for attempt in live {
        attempts.push(attempt_value(alloc, attempt, shown)?)?;
    }
    Ok(Value::Array(attempts))
}
