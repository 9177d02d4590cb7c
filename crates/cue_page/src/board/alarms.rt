//! What is wrong, the loudest first.
ghost use Rattle.std.specs.Prelude.{◌≡◌, IfOk, map};
ghost use Rattle.serde_json.specs.Data.{array};
ghost use Rattle.serde_json.specs.View.{items_of, view};
ghost use Rattle.cue_page.specs.Alarms as alarms;

use cue_board::alarm_words;
use cue_view::view::Alarm;
use serde_json::{Value, json};
use std::alloc::{AllocError, Global};

// Which alarm it is.
fn kind_of(alarm: Alarm) -> &'static str
    ensures { result.now ≡ alarms.kind_of alarm }
{
    match alarm {
        Alarm::NobodyListens | Alarm::Silent(_) => "silent",
        Alarm::OtherStore(_) => "other",
        Alarm::NotShown(_) => "unshown",
        Alarm::RelayStopped(_) => "relay",
        Alarm::Unread(_) | Alarm::Old(_) => "old",
        Alarm::ClockPutBack(_) => "clock",
        Alarm::Failed(_) => "failed",
        Alarm::DeviceSilent(_) => "device",
    }
}

// The attempt or the device that it is of; 0 if it is of none.
fn subject_of(alarm: Alarm) -> u64
    ensures { result ≡ alarms.subject_of alarm }
{
    match alarm {
        Alarm::ClockPutBack(attempt) | Alarm::Failed(attempt) => u64::from(attempt),
        Alarm::DeviceSilent(device) => u64::from(device.number()),
        Alarm::NobodyListens
        | Alarm::Silent(_)
        | Alarm::OtherStore(_)
        | Alarm::NotShown(_)
        | Alarm::RelayStopped(_)
        | Alarm::Unread(_)
        | Alarm::Old(_) => 0,
    }
}

/// An alarm: which one, what it is of, and its words.
pub fn alarm_value(alloc: Global, alarm: Alarm, at: u64, port: u16) -> Result<Value, AllocError>
    ensures { IfOk result (λ v. view v ≡ alarms.alarm_data port at alarm) }
{
    let words = alarm_words(alloc, alarm, at, port)?;
    json!(in alloc; {"kind": kind_of(alarm), "of": subject_of(alarm), "words": words.as_str()})
}

/// The alarms of a view, at its moment.
pub(super) fn alarms_value(
    alloc: Global,
    all: &[Alarm],
    at: u64,
    port: u16,
) -> Result<Value, AllocError>
    ensures { IfOk result (λ v. view v ≡ array (items_of (map (alarms.alarm_data port at) all.now))) }
{
    let mut values = Vec::with_capacity(alloc, all.len())?;
    for alarm in all {
        values.push(alarm_value(alloc, *alarm, at, port)?)?;
    }
    Ok(Value::Array(values))
}
