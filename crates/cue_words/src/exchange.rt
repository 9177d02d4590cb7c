//! What devices have answered, how attempts end, and what a recovery finds, in words.
ghost use Rattle.std.specs.Prelude.{◌≡◌};
ghost use Rattle.cue_words.specs.Answered.{answer_words, outcome_words, reason_words, recovered_words};

use cue_exchange::{Answer, Outcome, Reason, Stage};

/// What a device of a live attempt has answered in its present stage.
pub fn answer_words(answer: Answer) -> &'static str
    ensures { result.now ≡ answer_words answer }
{
    match answer {
        Answer::Waiting => "waiting",
        Answer::Ready => "ready",
        Answer::Done => "done",
        Answer::LetGo => "let go",
        Answer::Failed => "failed",
        Answer::Excused => "excused",
    }
}

/// Why a preparation was given up.
pub fn reason_words(reason: Reason) -> &'static str
    ensures { result.now ≡ reason_words reason }
{
    match reason {
        Reason::Operator => "the operator gave it up",
        Reason::Deadline => "ten seconds passed",
        Reason::Abort => "a device aborted",
        Reason::Power => "the controller was started again",
        Reason::Release => "a device was released",
    }
}

/// How an attempt ended.
pub fn outcome_words(outcome: Outcome) -> &'static str
    ensures { result.now ≡ outcome_words outcome }
{
    match outcome {
        Outcome::Complete => "complete",
        Outcome::Cancelled => "cancelled",
        Outcome::Failed => "failed",
    }
}

/// What a recovery found an attempt at, and what becomes of it.
pub fn recovered_words(stage: Stage) -> &'static str
    ensures { result.now ≡ recovered_words stage }
{
    match stage {
        Stage::Preparing => "is preparing",
        Stage::Decided => "was given, GO is sent again",
        Stage::Cancelling(Reason::Power) => "was preparing, given up",
        Stage::Cancelling(_) => "was given up, CANCEL is sent again",
    }
}
