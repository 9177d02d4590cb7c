//! Answers of devices: what each makes of the situation of its device.
ghost use Rattle.std.specs.Prelude.{◌≡◌, [], ◌∷◌};
ghost use Rattle.cue_exchange.specs.declared.attempt.Reason.TheVariants as reason;
ghost use Rattle.cue_core.specs.declared.event.Event.TheVariants as event;
ghost use Rattle.cue_core.specs.declared.command.Code.TheVariants as code;
ghost use Rattle.cue_core.specs.Judge.{made_by, refused_with, on_answer, on_answer_to, on_answer_in, on_answer_at};
ghost use Rattle.cue_core.specs.Judge.{is_from_another};
ghost use Rattle.cue_core.specs.Judge.{on_standing_by, on_complete, on_cancelled, on_abort, abort_early, abort_late};

use crate::command::{AnswerKind, Code, Verdict};
use crate::event::Event;
use crate::events::Events;
use crate::judging::verdicts::{known, made, made_by_two, refused};
use crate::state::State;
use cue_exchange::{Attempt, DeviceAnswer, Reason, Situation, Stage};
use cue_show::DeviceNo;

pub(crate) fn on_answer(
    state: &State,
    from: u16,
    kind: AnswerKind,
    device: DeviceNo,
    seq: u32,
) -> (Verdict, Events)
    ensures { result ≡ on_answer state.now from kind device seq }
{
    if !state.show().has_device(device) {
        return refused(Code::NoMethod);
    }
    if is_from_another(state, device, from) {
        return refused(Code::WrongPort);
    }
    if state.last_seq() < seq {
        return refused(Code::Early);
    }
    match state.live().of_seq(seq) {
        None => refused(Code::Stale),
        Some(attempt) => on_answer_to(attempt, kind, device),
    }
}

// Whether the answer came from another port than the device's.
fn is_from_another(state: &State, device: DeviceNo, from: u16) -> bool
    ensures { result ≡ is_from_another state.now device from }
{
    match state.show().port(device) {
        None => true,
        Some(port) => port != from,
    }
}

fn on_answer_to(attempt: &Attempt, kind: AnswerKind, device: DeviceNo) -> (Verdict, Events)
    ensures { result ≡ on_answer_to kind device attempt.now }
{
    match attempt.answers.device_answer(device) {
        None => refused(Code::NotPart),
        Some(told) => on_answer_in(kind, attempt.seq, *told, attempt.stage),
    }
}

fn on_answer_in(kind: AnswerKind, seq: u32, told: DeviceAnswer, stage: Stage) -> (Verdict, Events)
    ensures { result ≡ on_answer_in kind seq told stage told.answer }
{
    match Situation::of(stage, told.answer) {
        None => stale(),
        Some(situation) => on_answer_at(kind, seq, told, situation),
    }
}

fn on_answer_at(
    kind: AnswerKind,
    seq: u32,
    told: DeviceAnswer,
    situation: Situation,
) -> (Verdict, Events)
    ensures { result ≡ on_answer_at kind seq told situation }
{
    match kind {
        AnswerKind::StandingBy => on_standing_by(seq, told, situation),
        AnswerKind::Complete => on_complete(seq, told, situation),
        AnswerKind::Cancelled => on_cancelled(seq, told, situation),
        AnswerKind::Abort => on_abort(seq, told, situation),
    }
}

fn on_standing_by(seq: u32, told: DeviceAnswer, situation: Situation) -> (Verdict, Events)
    ensures { result ≡ on_standing_by seq told situation }
{
    match situation {
        Situation::AskedToStandBy => made(Event::Ready(seq, told.device)),
        Situation::StandsBy | Situation::AskedToGo | Situation::Done => known(),
        Situation::Excused | Situation::FailedAfterGo | Situation::LeftOut => stale(),
        Situation::AskedToLetGo | Situation::LetGo | Situation::FailedAfterCancel => stale(),
    }
}

fn on_complete(seq: u32, told: DeviceAnswer, situation: Situation) -> (Verdict, Events)
    ensures { result ≡ on_complete seq told situation }
{
    match situation {
        Situation::AskedToStandBy | Situation::StandsBy | Situation::Excused => early(),
        Situation::AskedToGo => made(Event::Done(seq, told.device)),
        Situation::Done => known(),
        Situation::FailedAfterGo | Situation::LeftOut => stale(),
        Situation::AskedToLetGo | Situation::LetGo | Situation::FailedAfterCancel => stale(),
    }
}

fn on_cancelled(seq: u32, told: DeviceAnswer, situation: Situation) -> (Verdict, Events)
    ensures { result ≡ on_cancelled seq told situation }
{
    match situation {
        Situation::AskedToStandBy | Situation::StandsBy | Situation::Excused => early(),
        Situation::AskedToGo | Situation::Done => decided(),
        Situation::FailedAfterGo | Situation::LeftOut => decided(),
        Situation::AskedToLetGo => made(Event::LetGo(seq, told.device)),
        Situation::LetGo => known(),
        Situation::FailedAfterCancel => stale(),
    }
}

fn on_abort(seq: u32, told: DeviceAnswer, situation: Situation) -> (Verdict, Events)
    ensures { result ≡ on_abort seq told situation }
{
    match situation {
        Situation::AskedToStandBy | Situation::StandsBy => abort_early(seq, told),
        Situation::AskedToGo => made(Event::Failed(seq, told.device)),
        Situation::AskedToLetGo => abort_late(seq, told),
        Situation::Excused | Situation::LeftOut => known(),
        Situation::FailedAfterGo | Situation::FailedAfterCancel => known(),
        Situation::Done | Situation::LetGo => stale(),
    }
}

// The device cannot go on while its attempt is Preparing.
fn abort_early(seq: u32, told: DeviceAnswer) -> (Verdict, Events)
    ensures { result ≡ abort_early seq told }
{
    if told.optional {
        made(Event::Excuse(seq, told.device))
    } else {
        given_up(seq, told)
    }
}

// The device cannot go on while its attempt is Cancelling.
fn abort_late(seq: u32, told: DeviceAnswer) -> (Verdict, Events)
    ensures { result ≡ abort_late seq told }
{
    if told.optional {
        made(Event::LetGo(seq, told.device))
    } else {
        made(Event::Failed(seq, told.device))
    }
}

// The preparation is given up, since the device cannot go on.
fn given_up(seq: u32, told: DeviceAnswer) -> (Verdict, Events)
    ensures { result ≡ made_by (event.Cancel seq reason.Abort ∷ event.Failed seq told.device ∷ []) }
{
    made_by_two(
        Event::Cancel(seq, Reason::Abort),
        Event::Failed(seq, told.device),
    )
}

// The attempt has not come as far as the answer says.
fn early() -> (Verdict, Events)
    ensures { result ≡ refused_with code.Early }
{
    refused(Code::Early)
}

// The attempt was decided, and that is not taken back.
fn decided() -> (Verdict, Events)
    ensures { result ≡ refused_with code.Decided }
{
    refused(Code::Decided)
}

// The attempt has gone past what the answer says.
fn stale() -> (Verdict, Events)
    ensures { result ≡ refused_with code.Stale }
{
    refused(Code::Stale)
}
