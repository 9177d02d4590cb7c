//! What went wrong in attempts: a device failed, or the standby was lost. Both are said as soon as a copy shows them,
//! also while the attempt is live, and by the same number once it has ended.
ghost use Rattle.std.specs.Prelude.{◌≡◌, IfOk, filter};
ghost use Rattle.cue_station.specs.Faults as faults;

use crate::heard::Copied;
use crate::telling::{ended_in, outcome_in, reason_of};
use cue_core::{Ended, Event};
use cue_exchange::{Answer, Attempt, DeviceAnswer, Outcome, Reason, Stage};
use std::alloc::{AllocError, Global};

// Whether nobody gave the preparation up: a device did, or its ten seconds.
fn is_lost_by(reason: Reason) -> bool
    ensures { result ≡ faults.is_lost_by reason }
{
    match reason {
        Reason::Abort | Reason::Deadline => true,
        Reason::Operator | Reason::Power | Reason::Release => false,
    }
}

// The same, if it was given up.
fn is_lost(why: Option<Reason>) -> bool
    ensures { result ≡ faults.is_lost why }
{
    match why {
        Some(reason) => is_lost_by(reason),
        None => false,
    }
}

/// Whether the device cannot go on.
pub(crate) fn is_failed(answer: Answer) -> bool
    ensures { result ≡ faults.is_failed answer }
{
    match answer {
        Answer::Failed => true,
        Answer::Waiting | Answer::Ready | Answer::Done => false,
        Answer::LetGo | Answer::Excused => false,
    }
}

// Whether one of the devices cannot go on.
fn has_failed(answers: &[DeviceAnswer]) -> bool
    ensures { result ≡ faults.has_failed answers.now }
{
    answers.iter().any(|answer| is_failed(answer.answer))
}

/// Whether something went wrong in the live attempt.
pub(crate) fn is_failing(attempt: &Attempt) -> bool
    ensures { result ≡ faults.is_failing attempt.now }
{
    match attempt.stage {
        Stage::Preparing => false,
        Stage::Decided => has_failed(attempt.answers.as_slice()),
        Stage::Cancelling(reason) => is_lost_by(reason),
    }
}

/// Whether something went wrong in an attempt that ended so.
pub(crate) fn is_fault(outcome: Outcome, why: Option<Reason>) -> bool
    ensures { result ≡ faults.is_fault outcome why }
{
    match outcome {
        Outcome::Failed => true,
        Outcome::Complete => false,
        Outcome::Cancelled => is_lost(why),
    }
}

// The number of the attempt that ended last, if something went wrong in it.
fn failed_last(events: &[Event], ended: Option<Ended>) -> Option<u32>
    ensures { result ≡ faults.failed_last events.now ended }
{
    match ended {
        Some(ended) => {
            if is_fault(ended.outcome, reason_of(ended.seq, events)) {
                Some(ended.seq)
            } else {
                None
            }
        }
        None => None,
    }
}

// Whether the number is that one.
fn is_number_of(seq: u32, last: Option<u32>) -> bool
    ensures { result ≡ faults.is_number_of seq last }
{
    match last {
        Some(other) => seq == other,
        None => false,
    }
}

// Whether something went wrong in the attempt, by the events.
fn is_fault_in(seq: u32, events: &[Event]) -> bool
    ensures { result ≡ faults.is_fault_in seq events.now }
{
    is_fault(outcome_in(seq, events), reason_of(seq, events))
}

// Whether something went wrong in the attempt by the events, and it is not the last one.
#[tactic(auto, unfolding(crate::specs::Faults::is_earlier_fault))]
fn is_earlier_fault(seq: u32, events: &[Event], last: Option<u32>) -> bool
    ensures { result ≡ faults.is_earlier_fault events.now last seq }
{
    is_fault_in(seq, events) && !is_number_of(seq, last)
}

// Those of the numbers in which something went wrong by the events, but for the last one.
fn failed_of(
    alloc: Global,
    events: &[Event],
    last: Option<u32>,
    numbers: &[u32],
) -> Result<Vec<u32>, AllocError>
    ensures { IfOk result (λ rest. rest.items
        ≡ filter (faults.is_earlier_fault events.now last) numbers.now) }
{
    numbers
        .iter()
        .copied()
        .filter(|seq| is_earlier_fault(*seq, events, last))
        .collect(alloc)
}

/// The attempts of the past in which something went wrong, but for the last one.
pub(crate) fn failed_before(alloc: Global, copy: &Copied) -> Result<Vec<u32>, AllocError>
    ensures { IfOk result (λ numbers. numbers.items ≡ faults.failed_before copy.now) }
{
    let numbers = ended_in(alloc, copy)?;
    let last = failed_last(&copy.events, copy.state.ended());
    let before = failed_of(alloc, &copy.events, last, &numbers)?;
    Ok(before)
}
