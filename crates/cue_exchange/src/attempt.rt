//! One try at a cue: its stage, what its devices have answered, and how it ends.
ghost use Rattle.std.specs.Prelude.{◌≡◌, ◌≤◌};
ghost use Rattle.cue_exchange.specs.Live.{is_attempt, is_due, is_number, is_open, is_sound};
ghost use Rattle.cue_exchange.specs.Steps.{can_excuse_now, can_go_now, is_apart, outcome_of};
ghost use Rattle.cue_exchange.specs.Outcomes.{outcome_number, outcome_numbered};
ghost use Rattle.cue_exchange.specs.Answers.{is_waiting, is_ready, is_done, is_excused, is_required, may_be_in, may_go};
ghost use Rattle.cue_exchange.specs.Answers.{has_done, can_be_excused, is_preparing, is_decided, is_cancelling};
ghost use Rattle.cue_exchange.specs.Answers.{is_concluding, is_known_in, entering};

use crate::answers::Answers;
use crate::limits::MAX_NUMBER;
use crate::situation::Situation;
use cue_show::{CueNo, DeviceNo};
use std::alloc::AllocError;

/// What a device has answered in the present stage of an attempt.
#[derive(Clone, Copy, PartialEq, Eq, Debug)]
pub enum Answer {
    /// It is still to answer.
    Waiting,
    /// It stands by.
    Ready,
    /// It has carried the cue out.
    Done,
    /// It has given the preparation up.
    LetGo,
    /// It cannot go on.
    Failed,
    /// It is optional, and the cue may go without it.
    Excused,
}

impl Answer {
    /// Whether the device is still to answer.
    pub fn is_waiting(self) -> bool
        ensures { result ≡ is_waiting self }
    {
        match self {
            Answer::Waiting => true,
            Answer::Ready | Answer::Done => false,
            Answer::LetGo | Answer::Failed | Answer::Excused => false,
        }
    }

    // Whether the device stands by.
    pub(crate) fn is_ready(self) -> bool
        ensures { result ≡ is_ready self }
    {
        match self {
            Answer::Ready => true,
            Answer::Waiting | Answer::Done => false,
            Answer::LetGo | Answer::Failed | Answer::Excused => false,
        }
    }

    // Whether the device has carried the cue out.
    pub(crate) fn is_done(self) -> bool
        ensures { result ≡ is_done self }
    {
        match self {
            Answer::Done => true,
            Answer::Waiting | Answer::Ready => false,
            Answer::LetGo | Answer::Failed | Answer::Excused => false,
        }
    }

    // Whether the cue may go without the device.
    pub(crate) fn is_excused(self) -> bool
        ensures { result ≡ is_excused self }
    {
        match self {
            Answer::Excused => true,
            Answer::Waiting | Answer::Ready | Answer::Done => false,
            Answer::LetGo | Answer::Failed => false,
        }
    }

    // What the answer becomes when its attempt enters the stage.
    pub(crate) fn entering(self, stage: Stage) -> Answer
        ensures { result ≡ entering stage self }
    {
        match self {
            Answer::Waiting | Answer::Ready | Answer::Done => Answer::Waiting,
            Answer::LetGo | Answer::Failed => Answer::Waiting,
            Answer::Excused => match stage {
                Stage::Preparing | Stage::Decided => Answer::Excused,
                Stage::Cancelling(_) => Answer::LetGo,
            },
        }
    }
}

/// Why a preparation was given up.
#[derive(Clone, Copy, PartialEq, Eq, Debug)]
pub enum Reason {
    /// An operator asked for it.
    Operator,
    /// The deadline passed.
    Deadline,
    /// A device aborted.
    Abort,
    /// The power was lost.
    Power,
    /// An operator released a device.
    Release,
}

/// How far an attempt has come.
#[derive(Clone, Copy, PartialEq, Eq, Debug)]
pub enum Stage {
    /// The devices are asked to stand by.
    Preparing,
    /// The devices are ordered to carry the cue out; this is never taken back.
    Decided,
    /// The devices are ordered to give the preparation up.
    Cancelling(Reason),
}

impl Stage {
    /// Whether the devices are asked to stand by.
    pub fn is_preparing(self) -> bool
        ensures { result ≡ is_preparing self }
    {
        match self {
            Stage::Preparing => true,
            Stage::Decided | Stage::Cancelling(_) => false,
        }
    }

    /// Whether the cue is carried out.
    pub fn is_decided(self) -> bool
        ensures { result ≡ is_decided self }
    {
        match self {
            Stage::Decided => true,
            Stage::Preparing | Stage::Cancelling(_) => false,
        }
    }

    /// Whether the preparation is given up.
    pub fn is_cancelling(self) -> bool
        ensures { result ≡ is_cancelling self }
    {
        match self {
            Stage::Cancelling(_) => true,
            Stage::Preparing | Stage::Decided => false,
        }
    }

    // Whether the cue is carried out or given up.
    pub(crate) fn is_concluding(self) -> bool
        ensures { result ≡ is_concluding self }
    {
        match self {
            Stage::Decided | Stage::Cancelling(_) => true,
            Stage::Preparing => false,
        }
    }

    // Whether a device of an attempt in this stage may have that answer.
    pub(crate) fn knows(self, answer: Answer) -> bool
        ensures { result ≡ is_known_in self answer }
    {
        Situation::of(self, answer).is_some()
    }
}

/// How an attempt ended.
#[derive(Clone, Copy, PartialEq, Eq, Debug)]
pub enum Outcome {
    /// Each device carried the cue out, but for those that were excused.
    Complete,
    /// The preparation was given up.
    Cancelled,
    /// Some device failed to carry the cue out.
    Failed,
}

impl Outcome {
    /// The number that the outcome is sent and stored as, 1 to 3; 0 stands for none.
    pub fn number(self) -> u8
        ensures value { result ≡ outcome_number self }
        ensures range { result ≤ 3 }
    {
        match self {
            Outcome::Complete => 1,
            Outcome::Cancelled => 2,
            Outcome::Failed => 3,
        }
    }

    /// The outcome with the number. For whoever reads a stored one.
    pub fn of_number(number: u8) -> Option<Outcome>
        ensures { result ≡ outcome_numbered number }
    {
        let all = [Outcome::Complete, Outcome::Cancelled, Outcome::Failed];
        all.iter()
            .copied()
            .find(|outcome| outcome.number() == number)
    }
}

/// A device of an attempt, with its answer.
#[derive(Clone, Copy, PartialEq, Eq, Debug)]
pub struct DeviceAnswer {
    pub device: DeviceNo,
    /// Whether the cue may go without it, once it was excused.
    pub optional: bool,
    /// What it has answered in the present stage.
    pub answer: Answer,
}

impl DeviceAnswer {
    // Whether the cue is not carried out without the device.
    pub(crate) fn is_required(&self) -> bool
        ensures { result ≡ is_required self.now }
    {
        !self.optional
    }

    // Whether the answer may stand in the stage; only an optional device is excused.
    pub(crate) fn may_be_in(&self, stage: Stage) -> bool
        ensures { result ≡ may_be_in stage self.now }
    {
        stage.knows(self.answer) && !(self.is_required() && self.answer.is_excused())
    }

    // Whether, as far as the device goes, the cue may be carried out.
    pub(crate) fn may_go(&self) -> bool
        ensures { result ≡ may_go self.now }
    {
        self.answer.is_ready() || self.answer.is_excused()
    }

    // Whether, as far as the device goes, the cue was carried out: by it, or without it.
    pub(crate) fn has_done(&self) -> bool
        ensures { result ≡ has_done self.now }
    {
        self.answer.is_done() || self.answer.is_excused()
    }

    // Whether the device may be excused: it is optional, and waits or stands by.
    pub(crate) fn can_be_excused(&self) -> bool
        ensures { result ≡ can_be_excused self.now }
    {
        self.optional && (self.answer.is_waiting() || self.answer.is_ready())
    }
}

/// One try at a cue.
#[derive(Debug, Drop)]
pub struct Attempt {
    /// Its number, which all its messages carry: 1 to 2,147,483,647.
    pub seq: u32,
    /// The cue that is to be carried out.
    pub cue: CueNo,
    /// The time, in milliseconds since 1970, from which on a tick cancels it if it is still Preparing.
    pub deadline: u64,
    /// How far it has come.
    pub stage: Stage,
    /// Its devices in part order, each with its answer.
    pub answers: Answers,
}

impl Attempt {
    /// Whether each device may go while the attempt is Preparing, so that the cue may be carried out.
    pub fn can_go(&self) -> bool
        ensures { result ≡ can_go_now self.now }
    {
        self.stage.is_preparing() && self.answers.all_may_go()
    }

    // Whether the attempt is Preparing and the device is an optional one of it that waits or stands by.
    pub(crate) fn can_excuse(&self, device: DeviceNo) -> bool
        ensures { result ≡ can_excuse_now device self.now }
    {
        self.stage.is_preparing() && self.answers.can_excuse(device)
    }

    // Whether the attempt keeps the rules of a live one, whichever others are live.
    pub(crate) fn keeps_rules(&self) -> bool
        ensures { result ≡ is_attempt self.now }
    {
        self.is_sound() && self.is_open()
    }

    // Whether the attempt has a number, a deadline, and sound devices, each with an answer that the stage knows.
    fn is_sound(&self) -> bool
        ensures { result ≡ is_sound self.now }
    {
        // Read so that its range is known: the definition asks for a time of 64 bits.
        let _deadline = self.deadline;
        if !is_number(self.seq) {
            return false;
        }
        self.answers.has_sound_devices() && self.answers.all_stand(self.stage)
    }

    // Whether some device is still to answer, if the attempt is carried out or given up.
    fn is_open(&self) -> bool
        ensures { result ≡ is_open self.now.stage self.now.answers }
    {
        match self.stage {
            Stage::Preparing => true,
            Stage::Decided | Stage::Cancelling(_) => self.answers.some_waits(),
        }
    }

    // Whether the two attempts have different numbers and no device in common.
    pub(crate) fn is_apart(&self, other: &Attempt) -> bool
        ensures { result ≡ is_apart self.now other.now }
    {
        self.seq != other.seq && other.answers.is_disjoint(&self.answers)
    }

    // How the attempt ends, once no device of it is still to answer.
    pub(crate) fn outcome(&self) -> Outcome
        ensures { result ≡ outcome_of self.now }
    {
        if self.stage.is_cancelling() {
            Outcome::Cancelled
        } else if self.answers.all_have_done() {
            Outcome::Complete
        } else {
            Outcome::Failed
        }
    }

    // Whether the attempt is Preparing and its deadline, in milliseconds since 1970, is at or before `now`.
    pub(crate) fn is_due(&self, now: u64) -> bool
        ensures { result ≡ is_due now self.now }
    {
        self.stage.is_preparing() && self.deadline <= now
    }
}

impl Clone for Attempt {
    ghost is_clone = { λ attempt copy. copy ≡ attempt };

    fn clone(&self) -> Result<Attempt, AllocError> {
        Ok(Attempt {
            seq: self.seq,
            cue: self.cue,
            deadline: self.deadline,
            stage: self.stage,
            answers: self.answers.clone()?,
        })
    }
}

// Whether an attempt may have the number.
pub(crate) fn is_number(seq: u32) -> bool
    ensures { result ≡ is_number seq }
{
    1 <= seq && seq <= MAX_NUMBER
}
