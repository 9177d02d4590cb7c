//! The numbers of versions, stages and answers.
ghost use Rattle.std.specs.Prelude.{◌≡◌};
ghost use Rattle.cue_records.specs.State.{form_of_version, stage_number, answer_number};
ghost use Rattle.cue_records.specs.StateReading.{stage_of, answer_of};

use crate::fields::reason_number;
use crate::parts_form::PartsForm;
use crate::state::{OLD_VERSION, VERSION};
use cue_exchange::{Answer, Reason, Stage};

/// The form of the parts in a version; none if there is no such version.
pub(crate) fn form_of_version(number: u8) -> Option<PartsForm>
    ensures { result ≡ form_of_version number }
{
    match number {
        OLD_VERSION => Some(PartsForm::Plain),
        VERSION => Some(PartsForm::Flagged),
        _ => None,
    }
}

/// The number of a stage.
pub(crate) fn stage_number(stage: Stage) -> u8
    ensures { result ≡ stage_number stage }
{
    match stage {
        Stage::Preparing => 1,
        Stage::Decided => 2,
        Stage::Cancelling(reason) => 2 + reason_number(reason),
    }
}

/// The stage with the number.
pub(crate) fn stage_of(number: u8) -> Option<Stage>
    ensures { result ≡ stage_of number }
{
    match number {
        1 => Some(Stage::Preparing),
        2 => Some(Stage::Decided),
        3 => Some(Stage::Cancelling(Reason::Operator)),
        4 => Some(Stage::Cancelling(Reason::Deadline)),
        5 => Some(Stage::Cancelling(Reason::Abort)),
        6 => Some(Stage::Cancelling(Reason::Power)),
        7 => Some(Stage::Cancelling(Reason::Release)),
        _ => None,
    }
}

/// The number of an answer.
pub(crate) fn answer_number(answer: Answer) -> u8
    ensures { result ≡ answer_number answer }
{
    match answer {
        Answer::Waiting => 0,
        Answer::Ready => 1,
        Answer::Done => 2,
        Answer::LetGo => 3,
        Answer::Failed => 4,
        Answer::Excused => 5,
    }
}

/// The answer with the number.
pub(crate) fn answer_of(number: u8) -> Option<Answer>
    ensures { result ≡ answer_of number }
{
    match number {
        0 => Some(Answer::Waiting),
        1 => Some(Answer::Ready),
        2 => Some(Answer::Done),
        3 => Some(Answer::LetGo),
        4 => Some(Answer::Failed),
        5 => Some(Answer::Excused),
        _ => None,
    }
}
