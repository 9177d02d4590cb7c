//! How attempts ended, by the events of the store.
ghost use Rattle.std.specs.Prelude.{◌≡◌, IfOk, filter, find, is_some, map, not, take};
ghost use Rattle.std.specs.List.{list_any};
ghost use Rattle.std.specs.Option.{option_copied};
ghost use Rattle.cue_core.specs.Events.{is_cancel_of, is_start_of};
ghost use Rattle.cue_exchange.specs.Live.{attempt_of};
ghost use Rattle.cue_station.specs.Telling as telling;
ghost use Rattle.cue_station.specs.declared.limits.TheConstants.{MAX_TOLD};

use crate::heard::Copied;
use crate::limits::MAX_TOLD;
use cue_core::{Ended, Event, State};
use cue_exchange::{Outcome, Reason};
use cue_show::{CueNo, DeviceNo};
use cue_view::view::{Devices, Told};
use std::alloc::{AllocError, Global};

// The number that the event starts.
fn number_started(event: &Event) -> Option<u32>
    ensures { result ≡ telling.number_started event.now }
{
    match event {
        Event::Start(seq, _, _) => Some(*seq),
        _ => None,
    }
}

// The device by which the attempt fails.
fn device_failing(seq: u32, event: &Event) -> Option<DeviceNo>
    ensures { result ≡ telling.device_failing seq event.now }
{
    match event {
        Event::Failed(other, device) if *other == seq => Some(*device),
        _ => None,
    }
}

// The device that is excused in the attempt.
fn device_excused(seq: u32, event: &Event) -> Option<DeviceNo>
    ensures { result ≡ telling.device_excused seq event.now }
{
    match event {
        Event::Excuse(other, device) if *other == seq => Some(*device),
        _ => None,
    }
}

// Whether the attempt is given up.
fn is_cancel_of(seq: u32, event: &Event) -> bool
    ensures { result ≡ is_cancel_of seq event.now }
{
    match event {
        Event::Cancel(other, _) => *other == seq,
        Event::Device(_, _) | Event::NoDevice(_) | Event::Cue(_, _) => false,
        Event::NoCue(_) | Event::Place(_) | Event::Start(_, _, _) => false,
        Event::Ready(_, _) | Event::Go(_) | Event::Done(_, _) => false,
        Event::LetGo(_, _) | Event::Failed(_, _) | Event::Excuse(_, _) => false,
    }
}

// Whether the attempt starts.
fn is_start_of(seq: u32, event: &Event) -> bool
    ensures { result ≡ is_start_of seq event.now }
{
    match event {
        Event::Start(other, _, _) => *other == seq,
        Event::Device(_, _) | Event::NoDevice(_) | Event::Cue(_, _) => false,
        Event::NoCue(_) | Event::Place(_) | Event::Cancel(_, _) => false,
        Event::Ready(_, _) | Event::Go(_) | Event::Done(_, _) => false,
        Event::LetGo(_, _) | Event::Failed(_, _) | Event::Excuse(_, _) => false,
    }
}

// The event by which the attempt starts.
fn start_in(seq: u32, events: &[Event]) -> Option<&Event>
    ensures { option_copied result ≡ find (is_start_of seq) events.now }
{
    events.iter().find(|event| is_start_of(seq, event))
}

// The event by which the attempt is given up.
fn cancel_in(seq: u32, events: &[Event]) -> Option<&Event>
    ensures { option_copied result ≡ find (is_cancel_of seq) events.now }
{
    events.iter().find(|event| is_cancel_of(seq, event))
}

// The cue of a start.
fn cue_in(event: &Event) -> Option<CueNo>
    ensures { result ≡ telling.cue_in event.now }
{
    match event {
        Event::Start(_, cue, _) => Some(*cue),
        _ => None,
    }
}

// The reason of a cancel.
fn reason_in(event: &Event) -> Option<Reason>
    ensures { result ≡ telling.reason_in event.now }
{
    match event {
        Event::Cancel(_, reason) => Some(*reason),
        _ => None,
    }
}

// The cue at which the attempt started.
fn cue_of_start(seq: u32, events: &[Event]) -> Option<CueNo>
    ensures { result ≡ telling.cue_of_start seq events.now }
{
    match start_in(seq, events) {
        Some(event) => cue_in(event),
        None => None,
    }
}

/// Why the attempt was given up.
pub(crate) fn reason_of(seq: u32, events: &[Event]) -> Option<Reason>
    ensures { result ≡ telling.reason_of seq events.now }
{
    match cancel_in(seq, events) {
        Some(event) => reason_in(event),
        None => None,
    }
}

// The devices that failed in the attempt, in order.
fn failing(alloc: Global, seq: u32, events: &[Event]) -> Result<Vec<DeviceNo>, AllocError>
    ensures { IfOk result (λ devices. devices.items ≡ telling.failed_in seq events.now) }
{
    events
        .iter()
        .filter_map(|event| device_failing(seq, event))
        .collect(alloc)
}

// The devices that failed in the attempt.
fn failed_in(alloc: Global, seq: u32, events: &[Event]) -> Result<Devices, AllocError>
    ensures { IfOk result (λ devices. devices ≡ telling.failed_in seq events.now) }
{
    Ok(Devices::of(failing(alloc, seq, events)?))
}

// The devices that were excused in the attempt, in order.
fn excused(alloc: Global, seq: u32, events: &[Event]) -> Result<Vec<DeviceNo>, AllocError>
    ensures { IfOk result (λ devices. devices.items ≡ telling.excused_in seq events.now) }
{
    events
        .iter()
        .filter_map(|event| device_excused(seq, event))
        .collect(alloc)
}

// The devices that were excused in the attempt.
fn excused_in(alloc: Global, seq: u32, events: &[Event]) -> Result<Devices, AllocError>
    ensures { IfOk result (λ devices. devices ≡ telling.excused_in seq events.now) }
{
    Ok(Devices::of(excused(alloc, seq, events)?))
}

// Whether the attempt was given up.
fn is_cancelled(seq: u32, events: &[Event]) -> bool
    ensures { result ≡ list_any (is_cancel_of seq) events.now }
{
    events.iter().any(|event| is_cancel_of(seq, event))
}

// Whether a device failed in the attempt.
fn has_failed(seq: u32, events: &[Event]) -> bool
    ensures { result ≡ list_any (λ e. is_some (telling.device_failing seq e)) events.now }
{
    events
        .iter()
        .any(|event| device_failing(seq, event).is_some())
}

/// How the attempt ended.
pub(crate) fn outcome_in(seq: u32, events: &[Event]) -> Outcome
    ensures { result ≡ telling.outcome_in seq events.now }
{
    if is_cancelled(seq, events) {
        Outcome::Cancelled
    } else if has_failed(seq, events) {
        Outcome::Failed
    } else {
        Outcome::Complete
    }
}

/// What is told of an attempt that ended so.
pub(crate) fn told_of(alloc: Global, events: &[Event], ended: Ended) -> Result<Told, AllocError>
    ensures { IfOk result (λ told. told ≡ telling.told_of events.now ended) }
{
    let failed = failed_in(alloc, ended.seq, events)?;
    let excused = excused_in(alloc, ended.seq, events)?;
    Ok(Told {
        seq: ended.seq,
        cue: cue_of_start(ended.seq, events),
        outcome: ended.outcome,
        reason: reason_of(ended.seq, events),
        failed,
        excused,
    })
}

/// The attempt that ended last, if one has: its cue, its reason and its devices are those of the events.
pub fn last_of(alloc: Global, copy: &Copied) -> Result<Option<Told>, AllocError>
    ensures { IfOk result (λ last. last ≡ telling.last_in copy.now) }
{
    match copy.state.ended() {
        Some(ended) => Ok(Some(told_of(alloc, &copy.events, ended)?)),
        None => Ok(None),
    }
}

// Whether the attempt is live.
fn is_live(seq: u32, state: &State) -> bool
    ensures { result ≡ is_some (attempt_of state.now.live seq) }
{
    state.live().of_seq(seq).is_some()
}

// The numbers that started, the newest first.
fn started_in(alloc: Global, events: &[Event]) -> Result<Vec<u32>, AllocError>
    ensures { IfOk result (λ numbers. numbers.items ≡ telling.started_in events.now) }
{
    events
        .iter()
        .rev()
        .filter_map(|event| number_started(event))
        .collect(alloc)
}

// The numbers that are not live.
fn without_live(alloc: Global, numbers: &[u32], state: &State) -> Result<Vec<u32>, AllocError>
    ensures { IfOk result (λ rest. rest.items
        ≡ filter (λ q. not (is_some (attempt_of state.now.live q))) numbers.now) }
{
    numbers
        .iter()
        .copied()
        .filter(|seq| !is_live(*seq, state))
        .collect(alloc)
}

/// The numbers of the attempts that ended last, the newest first.
pub(crate) fn ended_in(alloc: Global, copy: &Copied) -> Result<Vec<u32>, AllocError>
    ensures { IfOk result (λ numbers. numbers.items ≡ take MAX_TOLD (telling.ended_in copy.now)) }
{
    let started = started_in(alloc, &copy.events)?;
    let mut numbers = without_live(alloc, &started, &copy.state)?;
    numbers.truncate(MAX_TOLD);
    Ok(numbers)
}

// What is told of an attempt that has ended, by the events.
fn told_by(alloc: Global, copy: &Copied, seq: u32) -> Result<Told, AllocError>
    ensures { IfOk result (λ told. told
        ≡ telling.told_of copy.now.events.items (telling.end_of copy.now.events.items seq)) }
{
    let events = copy.events.as_slice();
    let outcome = outcome_in(seq, events);
    told_of(alloc, events, Ended { seq, outcome })
}

/// What is told of each of the attempts.
pub(crate) fn told_each(
    alloc: Global,
    copy: &Copied,
    numbers: &[u32],
) -> Result<Vec<Told>, AllocError>
    ensures { IfOk result (λ past. past.items
        ≡ map (λ q. telling.told_of copy.now.events.items (telling.end_of copy.now.events.items q)) numbers.now) }
{
    let mut past = Vec::with_capacity(alloc, numbers.len())?;
    for number in numbers {
        past.push(told_by(alloc, copy, *number)?)?;
    }
    Ok(past)
}

/// The attempts that ended last, as far as the events tell of their starts: the newest first, 8 at most.
pub fn past_of(alloc: Global, copy: &Copied) -> Result<Vec<Told>, AllocError>
    ensures { IfOk result (λ past. past.items ≡ telling.past_in copy.now) }
{
    let numbers = ended_in(alloc, copy)?;
    let past = told_each(alloc, copy, numbers.as_slice())?;
    Ok(past)
}
