//! The attempts that the log follows, each from its standby to its end.
ghost use Rattle.std.specs.Prelude.{◌≡◌, ◌++◌, ◌∷◌, [], IfOk, OnErr, OnOk, filter, map, true};
ghost use Rattle.cue_evening.specs.Course as spec;
ghost use Rattle.cue_evening.specs.Ends.{end_of};

use cue_core::limits::STANDBY_MS;
use cue_core::{Event, State};
use cue_exchange::{Answer, Attempt, DeviceAnswer, Outcome, Reason, Stage};
use cue_log_lines::listed::{Cause, Failure};
use cue_show::CueNo;
use std::alloc::{AllocError, Global};
use std::marker::Model;

/// Devices that failed after the decision, in the order in which they did.
#[derive(Drop)]
pub struct Failures {
    items: Vec<Failure>,
}

impl Model for Failures {
    ghost use Rattle.std.specs.Prelude.{List};
    ghost use Rattle.cue_log_lines.specs.declared.listed.Failure.{Failure};

    ghost Value = { List Failure };

    ghost view = { λ f. f.items.items };
}

impl Failures {
    // None.
    fn new(alloc: Global) -> Failures
        ensures { result ≡ [] }
    {
        Failures {
            items: Vec::new(alloc),
        }
    }

    // Those that an attempt has by its answers.
    fn of(alloc: Global, answers: &[DeviceAnswer]) -> Result<Failures, AllocError>
        ensures { IfOk result (λ failures. failures ≡ spec.failures_in answers.now) }
    {
        Ok(Failures {
            items: failures_in(alloc, answers)?,
        })
    }

    // One more.
    fn push(&mut self, failure: Failure) -> Result<(), AllocError>
        ensures ok { OnOk result (self.new ≡ self.old ++ failure ∷ []) }
        ensures err { OnErr result (self.new ≡ self.old) }
    {
        self.items.push(failure)?;
        Ok(())
    }

    /// The devices.
    pub fn as_slice(&self) -> &[Failure]
        ensures { result.now ≡ self.now }
    {
        &self.items
    }
}

// A device that has failed, for a cause that nobody saw.
fn failure_of(answer: &DeviceAnswer) -> Failure
    ensures { result ≡ spec.failure_of answer.now }
{
    Failure {
        device: answer.device,
        cause: Cause::Unseen,
    }
}

// The devices that have failed by these answers.
fn failures_in(alloc: Global, answers: &[DeviceAnswer]) -> Result<Vec<Failure>, AllocError>
    ensures { IfOk result (λ failures. failures.items ≡ spec.failures_in answers.now) }
{
    answers
        .iter()
        .filter(|x| matches!(x.answer, Answer::Failed))
        .map(|x| failure_of(x))
        .collect(alloc)
}

/// An attempt that the log follows.
#[derive(Drop)]
pub struct Followed {
    pub seq: u32,
    pub cue: CueNo,
    /// The time of its standby, in milliseconds since 1970.
    pub since: u64,
    pub stage: Stage,
    /// The devices that failed after the decision.
    pub failures: Failures,
}

impl Followed {
    // An attempt that begins, by its deadline in milliseconds since 1970.
    fn new(alloc: Global, seq: u32, cue: CueNo, deadline: u64) -> Followed
        ensures { result ≡ spec.new_of seq cue deadline }
    {
        Followed {
            seq,
            cue,
            since: deadline.saturating_sub(STANDBY_MS),
            stage: Stage::Preparing,
            failures: Failures::new(alloc),
        }
    }

    // An attempt as a state has it.
    fn of(alloc: Global, attempt: &Attempt) -> Result<Followed, AllocError>
        ensures { IfOk result (λ followed. followed ≡ spec.followed_of attempt.now) }
    {
        let mut followed = Followed::new(alloc, attempt.seq, attempt.cue, attempt.deadline);
        followed.stage = attempt.stage;
        if attempt.stage.is_decided() {
            followed.failures = Failures::of(alloc, attempt.answers.as_slice())?;
        }
        Ok(followed)
    }

    /// How the attempt ends, once it does.
    pub fn outcome(&self) -> Outcome
        ensures { result ≡ end_of self.now.stage self.now.failures }
    {
        match (self.stage, self.failures.as_slice()) {
            (Stage::Preparing | Stage::Cancelling(_), _) => Outcome::Cancelled,
            (Stage::Decided, []) => Outcome::Complete,
            (Stage::Decided, _) => Outcome::Failed,
        }
    }
}

// The attempt enters a stage, if it has this number.
fn enter(followed: &mut Followed, seq: u32, stage: Stage)
    ensures { followed.new ≡ spec.entering seq stage followed.old }
{
    if followed.seq == seq {
        followed.stage = stage;
    }
}

// A device of the attempt has failed, if the attempt has this number and was decided.
fn fail(followed: &mut Followed, seq: u32, failure: &Failure) -> Result<(), AllocError>
    ensures { OnOk result (followed.new ≡ spec.failing seq failure.now followed.old) }
{
    if followed.seq == seq && followed.stage.is_decided() {
        followed.failures.push(*failure)?;
    }
    Ok(())
}

// The attempt with this number enters a stage.
fn enter_in(items: &mut Vec<Followed>, seq: u32, stage: Stage)
    ensures { items.new.items ≡ map (spec.entering seq stage) items.old.items }
{
    for followed in items.iter_mut() {
        enter(followed, seq, stage);
    }
}

// A device of the attempt with this number has failed.
fn fail_in(items: &mut Vec<Followed>, seq: u32, failure: &Failure) -> Result<(), AllocError>
    ensures { OnOk result (items.new.items ≡ map (spec.failing seq failure.now) items.old.items) }
{
    for followed in items.iter_mut() {
        fail(followed, seq, failure)?;
    }
    Ok(())
}

// Follows no longer what is not live in the state.
fn retain_live(items: &mut Vec<Followed>, state: &State)
    ensures { items.new.items ≡ filter (spec.is_followed state.now) items.old.items }
{
    items.retain(|x| is_followed(state, x));
}

/// Whether an attempt is live in the state.
pub fn is_followed(state: &State, followed: &Followed) -> bool
    ensures { result ≡ spec.is_followed state.now followed.now }
{
    state.live().of_seq(followed.seq).is_some()
}

// The cue of the attempt with this number.
fn cue_in(items: &[Followed], seq: u32) -> Option<CueNo>
    ensures { result ≡ spec.cue_of seq items.now }
{
    let followed = items.iter().find(|x| x.seq == seq)?;
    Some(followed.cue)
}

// Lets an event happen to the attempts; a device that fails by it fails for this cause.
fn take_in(
    alloc: Global,
    items: &mut Vec<Followed>,
    event: &Event,
    cause: Cause,
) -> Result<(), AllocError>
    ensures { OnOk result (items.new.items ≡ spec.course_after event.now cause items.old.items) }
{
    match event {
        Event::Start(seq, cue, deadline) => {
            items.push(Followed::new(alloc, *seq, *cue, *deadline))?;
        }
        Event::Go(seq) => enter_in(items, *seq, Stage::Decided),
        Event::Cancel(seq, reason) => enter_in(items, *seq, Stage::Cancelling(*reason)),
        Event::Failed(seq, device) => {
            let device = *device;
            fail_in(items, *seq, &Failure { device, cause })?;
        }
        Event::Device(_, _) | Event::NoDevice(_) => {}
        Event::Cue(_, _) | Event::NoCue(_) | Event::Place(_) => {}
        Event::Ready(_, _) | Event::Done(_, _) => {}
        Event::LetGo(_, _) | Event::Excuse(_, _) => {}
    }
    Ok(())
}

// Follows attempts as a state has them.
fn follow_in(alloc: Global, items: &mut Vec<Followed>, live: &[Attempt]) -> Result<(), AllocError>
    ensures { OnOk result (items.new.items ≡ items.old.items ++ map spec.followed_of live.now) }
{
    for attempt in live {
        items.push(Followed::of(alloc, attempt)?)?;
    }
    Ok(())
}

/// The attempt that is given up by an event, and why.
pub fn given_up(event: &Event) -> Option<(u32, Reason)>
    ensures { result ≡ spec.given_up event.now }
{
    if let Event::Cancel(seq, reason) = event {
        Some((*seq, *reason))
    } else {
        None
    }
}

/// The attempts that the log follows, by rising number.
#[derive(Drop)]
pub struct Course {
    alloc: Global,
    items: Vec<Followed>,
}

impl Model for Course {
    ghost use Rattle.std.specs.Prelude.{List};
    ghost use Rattle.cue_evening.specs.declared.course.Followed.{Followed};

    ghost Value = { List Followed };

    ghost view = { λ c. c.items.items };
}

impl Course {
    /// None.
    pub fn new(alloc: Global) -> Course
        ensures { result ≡ [] }
    {
        Course {
            alloc,
            items: Vec::new(alloc),
        }
    }

    /// The attempts that are followed.
    pub fn as_slice(&self) -> &[Followed]
        ensures { result.now ≡ self.now }
    {
        &self.items
    }

    /// The cue of an attempt that is followed.
    pub fn cue_of(&self, seq: u32) -> Option<CueNo>
        ensures { result ≡ spec.cue_of seq self.now }
    {
        cue_in(&self.items, seq)
    }

    /// Follows the live attempts of a state; not all of them, if there is no memory for it.
    pub fn follow(&mut self, state: &State) -> Result<(), AllocError>
        ensures { OnOk result (self.new ≡ self.old ++ map spec.followed_of state.now.live) }
    {
        follow_in(self.alloc, &mut self.items, state.live().as_slice())
    }

    /// Takes an event; if a device fails by it, for this cause. If there is no memory for it, it is passed over.
    pub fn take(&mut self, event: &Event, cause: Cause) -> Result<(), AllocError>
        ensures { OnOk result (self.new ≡ spec.course_after event.now cause self.old) }
    {
        take_in(self.alloc, &mut self.items, event, cause)
    }

    /// Follows no longer what is not live in the state.
    pub fn drop_ended(&mut self, state: &State)
        ensures { self.new ≡ filter (spec.is_followed state.now) self.old }
    {
        retain_live(&mut self.items, state);
    }
}
