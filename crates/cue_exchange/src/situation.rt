//! The situations that a device of a live attempt can be in.
ghost use Rattle.std.specs.Prelude.{◌≡◌};
ghost use Rattle.cue_exchange.specs.Answers.{situation_of};

use crate::attempt::{Answer, Stage};

/// The situation of a device of a live attempt: what it was ordered last, and what it has answered to that.
#[derive(Clone, Copy, PartialEq, Eq, Debug)]
pub enum Situation {
    /// While the attempt prepares: it is still to stand by.
    AskedToStandBy,
    /// While the attempt prepares: it stands by.
    StandsBy,
    /// While the attempt prepares: the cue may go without it.
    Excused,
    /// Once the cue is decided: it is still to carry it out.
    AskedToGo,
    /// Once the cue is decided: it has carried it out.
    Done,
    /// Once the cue is decided: it could not carry it out.
    FailedAfterGo,
    /// Once the cue is decided: the cue went without it.
    LeftOut,
    /// Once the preparation is given up: it is still to give it up.
    AskedToLetGo,
    /// Once the preparation is given up: it has given it up.
    LetGo,
    /// Once the preparation is given up: it cannot go on.
    FailedAfterCancel,
}

impl Situation {
    /// The situation of a device with this answer in an attempt of this stage; none if no device has that answer there.
    pub fn of(stage: Stage, answer: Answer) -> Option<Situation>
        ensures { result ≡ situation_of stage answer }
    {
        match (stage, answer) {
            (Stage::Preparing, Answer::Waiting) => Some(Situation::AskedToStandBy),
            (Stage::Preparing, Answer::Ready) => Some(Situation::StandsBy),
            (Stage::Preparing, Answer::Excused) => Some(Situation::Excused),
            (Stage::Preparing, Answer::Done | Answer::LetGo | Answer::Failed) => None,
            (Stage::Decided, Answer::Waiting) => Some(Situation::AskedToGo),
            (Stage::Decided, Answer::Done) => Some(Situation::Done),
            (Stage::Decided, Answer::Failed) => Some(Situation::FailedAfterGo),
            (Stage::Decided, Answer::Excused) => Some(Situation::LeftOut),
            (Stage::Decided, Answer::Ready | Answer::LetGo) => None,
            (Stage::Cancelling(_), Answer::Waiting) => Some(Situation::AskedToLetGo),
            (Stage::Cancelling(_), Answer::LetGo) => Some(Situation::LetGo),
            (Stage::Cancelling(_), Answer::Failed) => Some(Situation::FailedAfterCancel),
            (Stage::Cancelling(_), Answer::Ready | Answer::Done | Answer::Excused) => None,
        }
    }
}
