//! What a copy tells of the attempts in which something went wrong: of a live one the attempt itself, of one that has
//! ended the events.
ghost use Rattle.std.specs.Prelude.{◌≡◌, ◌++◌, IfOk, OnOk};
ghost use Rattle.std.specs.List.{flat_map};
ghost use Rattle.std.specs.Option.{option_to_list};
ghost use Rattle.cue_station.specs.Faults as faults;
ghost use Rattle.cue_station.specs.Keeping as keeping;

use crate::faults::{failed_before, is_failed, is_failing, is_fault};
use crate::heard::Copied;
use crate::memory::Reading;
use crate::telling::{reason_of, told_each, told_of};
use cue_core::{Ended, Event};
use cue_exchange::{Answer, Attempt, DeviceAnswer, Outcome, Reason, Stage};
use cue_show::DeviceNo;
use cue_view::view::{Devices, Told};
use std::alloc::{AllocError, Global};

// ---- what a copy tells of a live attempt

// Whether the device is excused.
fn is_excused(answer: Answer) -> bool
    ensures { result ≡ keeping.is_excused answer }
{
    match answer {
        Answer::Excused => true,
        Answer::Waiting | Answer::Ready | Answer::Done => false,
        Answer::LetGo | Answer::Failed => false,
    }
}

// The devices that cannot go on.
fn devices_failed(alloc: Global, answers: &[DeviceAnswer]) -> Result<Vec<DeviceNo>, AllocError>
    ensures { IfOk result (λ devices. devices.items ≡ keeping.devices_with faults.is_failed answers.now) }
{
    answers
        .iter()
        .filter(|answer| is_failed(answer.answer))
        .map(|answer| answer.device)
        .collect(alloc)
}

// The devices that are excused.
fn devices_excused(alloc: Global, answers: &[DeviceAnswer]) -> Result<Vec<DeviceNo>, AllocError>
    ensures { IfOk result (λ devices. devices.items ≡ keeping.devices_with keeping.is_excused answers.now) }
{
    answers
        .iter()
        .filter(|answer| is_excused(answer.answer))
        .map(|answer| answer.device)
        .collect(alloc)
}

// It has failed if it was given, else it is given up.
fn live_outcome(stage: Stage) -> Outcome
    ensures { result ≡ keeping.live_outcome stage }
{
    match stage {
        Stage::Decided => Outcome::Failed,
        Stage::Cancelling(_) | Stage::Preparing => Outcome::Cancelled,
    }
}

// Why it is given up.
fn live_reason(stage: Stage) -> Option<Reason>
    ensures { result ≡ keeping.live_reason stage }
{
    match stage {
        Stage::Cancelling(reason) => Some(reason),
        Stage::Decided | Stage::Preparing => None,
    }
}

// What a live attempt itself tells.
fn told_live(alloc: Global, attempt: &Attempt) -> Result<Told, AllocError>
    ensures { IfOk result (λ told. told ≡ keeping.told_live attempt.now) }
{
    let failed = devices_failed(alloc, attempt.answers.as_slice())?;
    let excused = devices_excused(alloc, attempt.answers.as_slice())?;
    Ok(Told {
        seq: attempt.seq,
        cue: Some(attempt.cue),
        outcome: live_outcome(attempt.stage),
        reason: live_reason(attempt.stage),
        failed: Devices::of(failed),
        excused: Devices::of(excused),
    })
}

// Puts what the attempt tells after the others, if something went wrong in it.
fn push_failing(alloc: Global, all: &mut Vec<Told>, attempt: &Attempt) -> Result<(), AllocError>
    ensures { OnOk result (all.new.items ≡ all.old.items ++ keeping.told_if_failing attempt.now) }
{
    if is_failing(attempt) {
        all.push(told_live(alloc, attempt)?)?;
    }
    Ok(())
}

// What is told of the live attempts in which something went wrong.
fn told_failing(alloc: Global, live: &[Attempt]) -> Result<Vec<Told>, AllocError>
    ensures { IfOk result (λ all. all.items ≡ flat_map keeping.told_if_failing live.now) }
{
    let mut all = Vec::new(alloc);
    for attempt in live {
        push_failing(alloc, &mut all, attempt)?;
    }
    Ok(all)
}

// ---- what a copy tells of an attempt that has ended

// What is told of the attempt that ended last, if something went wrong in it.
fn told_last(
    alloc: Global,
    events: &[Event],
    ended: Option<Ended>,
) -> Result<Option<Told>, AllocError>
    ensures { IfOk result (λ last. last ≡ keeping.told_last events.now ended) }
{
    match ended {
        Some(ended) => {
            if is_fault(ended.outcome, reason_of(ended.seq, events)) {
                Ok(Some(told_of(alloc, events, ended)?))
            } else {
                Ok(None)
            }
        }
        None => Ok(None),
    }
}

// What is told of those of the past, but for the last one.
fn told_before(alloc: Global, copy: &Copied) -> Result<Vec<Told>, AllocError>
    ensures { IfOk result (λ all. all.items ≡ keeping.told_before copy.now) }
{
    let numbers = failed_before(alloc, copy)?;
    told_each(alloc, copy, &numbers)
}

// Puts what is told after the others, if something is.
fn push_one(all: &mut Vec<Told>, told: Option<Told>) -> Result<(), AllocError>
    ensures { OnOk result (all.new.items ≡ all.old.items ++ option_to_list told) }
{
    match told {
        Some(told) => {
            all.push(told)?;
            Ok(())
        }
        None => Ok(()),
    }
}

/// What a copy tells of each attempt in which something went wrong: those that are live stand first.
pub fn told_now(alloc: Global, copy: &Copied) -> Result<Vec<Told>, AllocError>
    ensures { IfOk result (λ all. all.items ≡ keeping.told_now copy.now) }
{
    let mut all = told_failing(alloc, copy.state.live().as_slice())?;
    push_one(
        &mut all,
        told_last(alloc, &copy.events, copy.state.ended())?,
    )?;
    let mut before = told_before(alloc, copy)?;
    all.append(&mut before)?;
    Ok(all)
}

/// What the newest copy tells.
pub(crate) fn told_by(alloc: Global, reading: &Option<Reading>) -> Result<Vec<Told>, AllocError>
    ensures { IfOk result (λ all. all.items ≡ keeping.told_by reading.now) }
{
    match reading {
        Some(reading) => told_now(alloc, &reading.copy),
        None => Ok(Vec::new(alloc)),
    }
}
