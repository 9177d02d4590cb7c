//! Commands of the operator on the attempt at a cue, and on the one that a device is in.
ghost use Rattle.std.specs.Prelude.{◌≡◌, [], ◌∷◌};
ghost use Rattle.cue_exchange.specs.declared.attempt.Reason.TheVariants as reason;
ghost use Rattle.cue_core.specs.declared.event.Event.TheVariants as event;
ghost use Rattle.cue_core.specs.Judge.{made_by, prepares, on_standby, on_standby_of, on_go, on_go_of, on_cancel};
ghost use Rattle.cue_core.specs.Judge.{on_cancel_of, on_release, on_release_of, on_release_in, on_release_at};
ghost use Rattle.cue_core.specs.Judge.{release_early};

use crate::command::{Code, Verdict};
use crate::event::Event;
use crate::events::Events;
use crate::judging::verdicts::{known, made, made_by_two, refused};
use crate::limits::STANDBY_MS;
use crate::state::State;
use cue_exchange::limits::MAX_NUMBER;
use cue_exchange::{Attempt, DeviceAnswer, Reason, Situation, Stage};
use cue_show::{CueNo, DeviceNo, Parts};

pub(crate) fn on_standby(state: &State, now: u64, cue: CueNo) -> (Verdict, Events)
    ensures { result ≡ on_standby state.now now cue }
{
    match state.show().parts(cue) {
        None => refused(Code::NoMethod),
        Some(parts) => on_standby_of(state, now, cue, parts),
    }
}

fn on_standby_of(state: &State, now: u64, cue: CueNo, parts: &Parts) -> (Verdict, Events)
    ensures { result ≡ on_standby_of state.now now cue parts.now }
{
    if prepares(state, cue) {
        return known();
    }
    if !state.live().are_free(parts) {
        return refused(Code::Busy);
    }
    if !state.live().has_room() {
        return refused(Code::Full);
    }
    let last = state.last_seq();
    if last >= MAX_NUMBER {
        return refused(Code::Exhausted);
    }
    match now.checked_add(STANDBY_MS) {
        None => refused(Code::Clock),
        Some(deadline) => made(Event::Start(last + 1, cue, deadline)),
    }
}

// Whether the attempt at the cue is Preparing.
fn prepares(state: &State, cue: CueNo) -> bool
    ensures { result ≡ prepares state.now cue }
{
    match state.live().of_cue(cue) {
        None => false,
        Some(attempt) => attempt.stage.is_preparing(),
    }
}

pub(crate) fn on_go(state: &State, cue: CueNo) -> (Verdict, Events)
    ensures { result ≡ on_go state.now cue }
{
    if !state.show().has_cue(cue) {
        return refused(Code::NoMethod);
    }
    match state.live().of_cue(cue) {
        None => refused(Code::NotLive),
        Some(attempt) => on_go_of(attempt),
    }
}

fn on_go_of(attempt: &Attempt) -> (Verdict, Events)
    ensures { result ≡ on_go_of attempt.now }
{
    if attempt.stage.is_decided() {
        return known();
    }
    if attempt.can_go() {
        return made(Event::Go(attempt.seq));
    }
    refused(Code::NotReady)
}

pub(crate) fn on_cancel(state: &State, cue: CueNo) -> (Verdict, Events)
    ensures { result ≡ on_cancel state.now cue }
{
    if !state.show().has_cue(cue) {
        return refused(Code::NoMethod);
    }
    match state.live().of_cue(cue) {
        None => refused(Code::NotLive),
        Some(attempt) => on_cancel_of(attempt),
    }
}

fn on_cancel_of(attempt: &Attempt) -> (Verdict, Events)
    ensures { result ≡ on_cancel_of attempt.now }
{
    if attempt.stage.is_decided() {
        return refused(Code::Decided);
    }
    if attempt.stage.is_cancelling() {
        return known();
    }
    made(Event::Cancel(attempt.seq, Reason::Operator))
}

pub(crate) fn on_release(state: &State, device: DeviceNo) -> (Verdict, Events)
    ensures { result ≡ on_release state.now device }
{
    if !state.show().has_device(device) {
        return refused(Code::NoMethod);
    }
    match state.live().of_device(device) {
        None => refused(Code::NotLive),
        Some(attempt) => on_release_of(attempt, device),
    }
}

fn on_release_of(attempt: &Attempt, device: DeviceNo) -> (Verdict, Events)
    ensures { result ≡ on_release_of device attempt.now }
{
    match attempt.answers.device_answer(device) {
        None => refused(Code::NotLive),
        Some(told) => on_release_in(attempt.seq, *told, attempt.stage),
    }
}

fn on_release_in(seq: u32, told: DeviceAnswer, stage: Stage) -> (Verdict, Events)
    ensures { result ≡ on_release_in seq told stage told.answer }
{
    match Situation::of(stage, told.answer) {
        None => known(),
        Some(situation) => on_release_at(seq, told, situation),
    }
}

fn on_release_at(seq: u32, told: DeviceAnswer, situation: Situation) -> (Verdict, Events)
    ensures { result ≡ on_release_at seq told situation }
{
    match situation {
        Situation::AskedToStandBy | Situation::StandsBy => release_early(seq, told),
        Situation::AskedToGo => made(Event::Failed(seq, told.device)),
        Situation::AskedToLetGo => made(Event::LetGo(seq, told.device)),
        Situation::Excused | Situation::LeftOut => known(),
        Situation::Done | Situation::FailedAfterGo => known(),
        Situation::LetGo | Situation::FailedAfterCancel => known(),
    }
}

// The device is released while its attempt is Preparing.
fn release_early(seq: u32, told: DeviceAnswer) -> (Verdict, Events)
    ensures { result ≡ release_early seq told }
{
    if told.optional {
        made(Event::Excuse(seq, told.device))
    } else {
        given_up(seq, told)
    }
}

// The preparation is given up, and the device with it.
fn given_up(seq: u32, told: DeviceAnswer) -> (Verdict, Events)
    ensures { result ≡ made_by (event.Cancel seq reason.Release ∷ event.LetGo seq told.device ∷ []) }
{
    made_by_two(
        Event::Cancel(seq, Reason::Release),
        Event::LetGo(seq, told.device),
    )
}
