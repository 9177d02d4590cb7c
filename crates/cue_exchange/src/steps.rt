//! The steps of the exchange over the list of attempts that is kept, between two states that keep the rules.
ghost use Rattle.std.specs.Prelude.{◌≡◌, ◌≤◌, IfOk, nat_lt, vec_len};
ghost use Rattle.std.specs.List.{position, position_or_len};
ghost use Rattle.cue_exchange.specs.Answers.{first_answer, first_answers};
ghost use Rattle.cue_exchange.specs.Live.{due};
ghost use Rattle.cue_exchange.specs.Steps.{after_answer, answers_as, with_change, ended_in, goes_on, after_move};
ghost use Rattle.cue_exchange.specs.Steps.{moves_to};
ghost use Rattle.cue_exchange.specs.Steps.{without_ended};

use crate::answers::Answers;
use crate::attempt::{Answer, Attempt, DeviceAnswer, Outcome, Stage};
use cue_show::{DeviceNo, Part, Parts};
use std::alloc::{AllocError, Global};

// The answers of an attempt that begins, with the devices of the parts.
pub(crate) fn first_answers(alloc: Global, parts: &Parts) -> Result<Answers, AllocError>
    ensures { IfOk result (λ answers. answers ≡ first_answers parts.now) }
{
    let items = asked_devices(alloc, parts)?;
    Ok(Answers::of(items))
}

// The devices of the parts, each still to answer.
fn asked_devices(alloc: Global, parts: &Parts) -> Result<Vec<DeviceAnswer>, AllocError>
    ensures { IfOk result (λ items. items.items ≡ first_answers parts.now) }
{
    parts
        .as_slice()
        .iter()
        .map(|part| first_answer(part))
        .collect(alloc)
}

fn first_answer(part: &Part) -> DeviceAnswer
    ensures { result ≡ first_answer part.now }
{
    DeviceAnswer {
        device: part.device,
        optional: part.optional,
        answer: Answer::Waiting,
    }
}

// The device has answered in the attempt with the number.
pub(crate) fn put_answer(attempts: &mut Vec<Attempt>, seq: u32, device: DeviceNo, answer: Answer)
    ensures { attempts.new.items ≡ after_answer seq device answer attempts.old.items }
{
    for attempt in attempts.iter_mut() {
        answer_in(attempt, seq, device, answer);
    }
}

fn answer_in(attempt: &mut Attempt, seq: u32, device: DeviceNo, answer: Answer)
    ensures { attempt.new ≡ with_change seq (answers_as device answer) attempt.old }
{
    if attempt.seq == seq {
        attempt.answers.put(device, answer);
    }
}

// The attempt with the number enters the stage.
pub(crate) fn move_to(attempts: &mut Vec<Attempt>, seq: u32, stage: Stage)
    ensures { attempts.new.items ≡ after_move seq stage attempts.old.items }
{
    for attempt in attempts.iter_mut() {
        move_in(attempt, seq, stage);
    }
}

fn move_in(attempt: &mut Attempt, seq: u32, stage: Stage)
    ensures { attempt.new ≡ with_change seq (moves_to stage) attempt.old }
{
    if attempt.seq == seq {
        attempt.stage = stage;
        attempt.answers.enter(stage);
    }
}

// The device has answered for the last time: the attempt ends if no other is still to answer.
pub(crate) fn settle(
    attempts: &mut Vec<Attempt>,
    seq: u32,
    device: DeviceNo,
    answer: Answer,
) -> Option<Outcome>
    ensures live { attempts.new.items ≡ without_ended seq (after_answer seq device answer attempts.old.items) }
    ensures outcome { result ≡ ended_in seq (after_answer seq device answer attempts.old.items) }
{
    put_answer(attempts, seq, device, answer);
    let outcome = outcome_in(attempts, seq);
    remove_ended(attempts, seq);
    outcome
}

// Whether the attempt has another number, or a device that is still to answer.
fn goes_on(attempt: &Attempt, seq: u32) -> bool
    ensures { result ≡ goes_on seq attempt.now }
{
    attempt.seq != seq || attempt.answers.some_waits()
}

// How the attempt with the number ends, if no device of it is still to answer.
fn outcome_in(attempts: &Vec<Attempt>, seq: u32) -> Option<Outcome>
    ensures { result ≡ ended_in seq attempts.now.items }
{
    attempts
        .iter()
        .find(|a| !goes_on(a, seq))
        .map(|a| a.outcome())
}

// The attempt with the number goes, if no device of it is still to answer.
fn remove_ended(attempts: &mut Vec<Attempt>, seq: u32)
    ensures { attempts.new.items ≡ without_ended seq attempts.old.items }
{
    attempts.retain(|a| goes_on(a, seq));
}

// The place of the number among those of the attempts.
pub(crate) fn place_of(attempts: &Vec<Attempt>, seq: u32) -> usize
    ensures place { result ≡ position_or_len (λ a. nat_lt seq a.seq) attempts.now.items }
    ensures within { result ≤ vec_len attempts.now }
{
    first_above(attempts, seq).unwrap_or(attempts.len())
}

// The first place where a number is above that one.
fn first_above(attempts: &Vec<Attempt>, seq: u32) -> Option<usize>
    ensures { result ≡ position (λ a. nat_lt seq a.seq) attempts.now.items }
{
    attempts.iter().position(|a| seq < a.seq)
}

// The numbers of the attempts that are due.
pub(crate) fn due(attempts: &Vec<Attempt>, now: u64) -> Result<Vec<u32>, AllocError>
    ensures { IfOk result (λ seqs. seqs.items ≡ due now attempts.now.items) }
{
    let alloc = *attempts.allocator();
    attempts
        .iter()
        .filter(|a| a.is_due(now))
        .map(|a| a.seq)
        .collect(alloc)
}
