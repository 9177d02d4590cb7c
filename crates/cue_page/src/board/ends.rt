//! How attempts ended.
ghost use Rattle.std.specs.Prelude.{◌≡◌, IfOk, map, option_map};
ghost use Rattle.serde_json.specs.Data.{array};
ghost use Rattle.serde_json.specs.View.{items_of, view};
ghost use Rattle.cue_page.specs.Ends as ends;

use cue_exchange::Reason;
use cue_show::{CueNo, DeviceNo};
use cue_show_file::cue_text;
use cue_view::view::Told;
use cue_words::{outcome_words, reason_words};
use serde_json::{Value, json};
use std::alloc::{AllocError, Global};

// The numbers of devices.
fn devices_value(alloc: Global, devices: &[DeviceNo]) -> Result<Value, AllocError>
    ensures { IfOk result (λ v. view v ≡ array (items_of (map ends.number_data devices.now))) }
{
    let mut numbers = Vec::with_capacity(alloc, devices.len())?;
    for device in devices {
        numbers.push(Value::from(u64::from(device.number())))?;
    }
    Ok(Value::Array(numbers))
}

/// The cue of an attempt; null if nobody knows it any more.
pub(super) fn cue_value(alloc: Global, cue: Option<CueNo>) -> Result<Value, AllocError>
    ensures { IfOk result (λ v. view v ≡ ends.cue_data cue) }
{
    match cue {
        Some(cue) => Ok(Value::String(String::from_str(alloc, cue_text(&cue))?)),
        None => Ok(Value::Null),
    }
}

// Why it was given up; empty if it was not.
fn why(reason: Option<Reason>) -> &'static str
    ensures { result.now ≡ ends.why reason }
{
    match reason {
        Some(reason) => reason_words(reason),
        None => "",
    }
}

/// How an attempt ended.
pub fn told_value(alloc: Global, told: &Told) -> Result<Value, AllocError>
    ensures { IfOk result (λ v. view v ≡ ends.told_data told.now) }
{
    let (seq, outcome) = (u64::from(told.seq), outcome_words(told.outcome));
    let (cue, reason) = (cue_value(alloc, told.cue)?, why(told.reason));
    let failed = devices_value(alloc, told.failed.as_slice())?;
    let excused = devices_value(alloc, told.excused.as_slice())?;
    json!(in alloc; {
        "attempt": seq, "cue": cue, "excused": excused, "failed": failed, "outcome": outcome, "reason": reason
    })
}

/// How the last attempt ended; null if none has.
pub(super) fn told_or_null(alloc: Global, told: Option<&Told>) -> Result<Value, AllocError>
    ensures { IfOk result (λ v. view v ≡ ends.told_or_null (option_map (λ t. t.now) told.entry)) }
{
    match told {
        Some(told) => told_value(alloc, told),
        None => Ok(Value::Null),
    }
}

/// How each of these ended, or fails.
pub(super) fn past_value(alloc: Global, past: &[Told]) -> Result<Value, AllocError>
    ensures { IfOk result (λ v. view v ≡ array (items_of (map ends.told_data past.now))) }
{
    let mut values = Vec::with_capacity(alloc, past.len())?;
    for told in past {
        values.push(told_value(alloc, told)?)?;
    }
    Ok(Value::Array(values))
}
