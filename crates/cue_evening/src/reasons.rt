//! The lines of attempts: what was recovered, why a preparation was given up, and how an attempt ended.
ghost use Rattle.std.specs.Prelude.{◌≡◌, ◌++◌, IfOk, OnOk};
ghost use Rattle.std.specs.List.{flat_map};
ghost use Rattle.cue_log_lines.specs.Listed.{failures_text};
ghost use Rattle.cue_evening.specs.LinesOf as lines;

use crate::alone::named_device;
use crate::course::Followed;
use crate::time::span_of;
use cue_core::Event;
use cue_exchange::{Attempt, Reason, Stage};
use cue_log_lines::listed::{Failure, Found, put_failure, put_found};
use cue_log_lines::{Ended, Line, Text, Try, Why};
use cue_show::{CueNo, DeviceNo};
use std::alloc::{AllocError, Global};

// What a recovery found an attempt at.
fn found_of(stage: Stage) -> Found
    ensures { result ≡ lines.found_of stage }
{
    match stage {
        Stage::Preparing => Found::Preparing,
        Stage::Decided => Found::Given,
        Stage::Cancelling(Reason::Power) => Found::Lost,
        Stage::Cancelling(_) => Found::GivenUp,
    }
}

// Puts an attempt that a recovery found after others.
fn put_attempt(list: &mut Vec<u8>, attempt: &Attempt) -> Result<(), AllocError>
    ensures { OnOk result (list.new.items ≡ list.old.items ++ lines.attempt_text attempt.now) }
{
    put_found(list, try_of(attempt), found_of(attempt.stage))
}

// Puts others after it, a semicolon before each.
fn put_others(list: &mut Vec<u8>, others: &[Attempt]) -> Result<(), AllocError>
    ensures { OnOk result (list.new.items ≡ list.old.items ++ flat_map lines.next_text others.now) }
{
    for attempt in others {
        put_next(list, attempt)?;
    }
    Ok(())
}

fn put_next(list: &mut Vec<u8>, attempt: &Attempt) -> Result<(), AllocError>
    ensures { OnOk result (list.new.items ≡ list.old.items ++ lines.next_text attempt.now) }
{
    list.extend_from_slice(b"; ")?;
    put_attempt(list, attempt)
}

/// The list of the attempts that are live after a recovery.
pub fn recovered_list(alloc: Global, live: &[Attempt]) -> Result<Vec<u8>, AllocError>
    ensures { IfOk result (λ list. list.items ≡ lines.recovered_text live.now) }
{
    let mut list = Vec::new(alloc);
    if let [first, others @ ..] = live {
        put_attempt(&mut list, first)?;
        put_others(&mut list, others)?;
    }
    Ok(list)
}

// An attempt as a line names it.
fn try_of(attempt: &Attempt) -> Try
    ensures { result ≡ lines.try_of attempt.now }
{
    Try {
        number: attempt.seq,
        cue: Some(attempt.cue),
    }
}

/// The line of an attempt that began after the last one that was seen, which has this number, and hangs on one device.
/// None if it has no line.
pub fn standby_line<'a>(last: u32, attempt: &Attempt) -> Option<Line<'a>>
    ensures { result ≡ lines.standby_line last attempt.now }
{
    match named_device(last, attempt) {
        Some(device) => Some(Line::Alone(try_of(attempt), device)),
        None => None,
    }
}

// The device that is done with by an event, since it failed or has given up.
fn device_of_end(event: &Event) -> Option<DeviceNo>
    ensures { result ≡ lines.device_of_end event.now }
{
    match event {
        Event::Failed(_, device) | Event::LetGo(_, device) => Some(*device),
        Event::Device(_, _) | Event::NoDevice(_) => None,
        Event::Cue(_, _) | Event::NoCue(_) | Event::Place(_) => None,
        Event::Start(_, _, _) | Event::Go(_) | Event::Cancel(_, _) => None,
        Event::Ready(_, _) | Event::Done(_, _) | Event::Excuse(_, _) => None,
    }
}

/// The device by which a preparation was given up, by the events after the one that gives it up: the first says so.
pub fn device_of_cancel(later: &[Event]) -> Option<DeviceNo>
    ensures { result ≡ lines.device_of_cancel later.now }
{
    device_of_end(later.first()?)
}

// Why a preparation was given up, by a device if it has one.
fn why_of(reason: Reason, device: Option<DeviceNo>) -> Why
    ensures { result ≡ lines.why_of reason device }
{
    match (reason, device) {
        (Reason::Abort, Some(device)) => Why::Aborted(device),
        (Reason::Release, Some(device)) => Why::Released(device),
        (Reason::Abort | Reason::Release, None) => Why::Said(reason),
        (Reason::Operator | Reason::Deadline | Reason::Power, _) => Why::Said(reason),
    }
}

/// The line of an attempt that is given up for a reason, by a device if it has one.
pub fn cancel_line<'a>(
    seq: u32,
    cue: Option<CueNo>,
    reason: Reason,
    device: Option<DeviceNo>,
) -> Line<'a>
    ensures { result ≡ lines.cancel_line seq cue reason device }
{
    Line::GivenUp(Try { number: seq, cue }, why_of(reason, device))
}

// Devices that failed, as the line of an end has them.
fn failures_in(alloc: Global, failures: &[Failure]) -> Result<Vec<u8>, AllocError>
    ensures { IfOk result (λ text. text.items ≡ failures_text failures.now) }
{
    let mut text = Vec::new(alloc);
    for failure in failures {
        put_failure(&mut text, failure)?;
    }
    Ok(text)
}

/// The devices that the line of an end names: those that failed after the decision.
pub fn failures_of(alloc: Global, followed: &Followed) -> Result<Vec<u8>, AllocError>
    ensures { IfOk result (λ text. text.items ≡ lines.failures_of followed.now.stage followed.now.failures) }
{
    match followed.stage {
        Stage::Preparing | Stage::Cancelling(_) => Ok(Vec::new(alloc)),
        Stage::Decided => failures_in(alloc, followed.failures.as_slice()),
    }
}

/// The line of an attempt that has ended, at a time in milliseconds since 1970, with the devices that it names.
pub fn end_line<'a>(followed: &Followed, failures: &'a [u8], now: u64) -> Line<'a>
    ensures { result ≡ lines.end_line followed.now failures.now now }
{
    Line::Ended(Ended {
        attempt: Try {
            number: followed.seq,
            cue: Some(followed.cue),
        },
        outcome: followed.outcome(),
        failures: Text::new(failures),
        span: span_of(now.saturating_sub(followed.since)),
    })
}
