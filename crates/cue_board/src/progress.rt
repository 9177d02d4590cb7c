//! How far a live attempt has come, and whether GO can be given for it.
ghost use Rattle.std.specs.Prelude.{◌≡◌};
ghost use Rattle.cue_exchange.specs.Answers.{some_waits};
ghost use Rattle.cue_board.specs.Progress as spec;

use cue_exchange::{Reason, Stage};
use cue_view::view::LiveAttempt;

/// How far a live attempt has come.
#[derive(Clone, Copy, PartialEq, Eq, Debug)]
pub enum Progress {
    /// GO can be given.
    Ready,
    /// No device is waited for, and GO cannot be given all the same: the desk does not see that the store is served.
    Held,
    /// A device has not answered.
    Preparing,
    /// Its ten seconds are over.
    Over,
    /// It prepared when the store was read last. The store is not in sight: nobody knows how far it has come since.
    Unseen,
    /// GO was given.
    Given,
    /// It is given up.
    GivenUp(Reason),
}

// Whether a device has not answered.
fn some_waits(attempt: &LiveAttempt) -> bool
    ensures { result ≡ some_waits attempt.now.devices }
{
    let answers = attempt.devices.as_slice();
    answers.iter().any(|one| one.answer.is_waiting())
}

// How far an attempt has come that prepares.
fn preparing_as(attempt: &LiveAttempt, in_sight: bool) -> Progress
    ensures { result ≡ spec.preparing_as in_sight attempt.now }
{
    if !in_sight {
        Progress::Unseen
    } else if attempt.ready {
        Progress::Ready
    } else if attempt.left == 0 {
        Progress::Over
    } else if some_waits(attempt) {
        Progress::Preparing
    } else {
        Progress::Held
    }
}

/// How far a live attempt has come: what page and board say of it. `in_sight`: whether the store is in sight.
pub fn progress_of(attempt: &LiveAttempt, in_sight: bool) -> Progress
    ensures { result ≡ spec.progress_of in_sight attempt.now }
{
    match attempt.stage {
        Stage::Preparing => preparing_as(attempt, in_sight),
        Stage::Decided => Progress::Given,
        Stage::Cancelling(reason) => Progress::GivenUp(reason),
    }
}

/// The same as one word.
pub fn progress_word(progress: Progress) -> &'static str
    ensures { result.now ≡ spec.word_of progress }
{
    match progress {
        Progress::Ready => "ready",
        Progress::Held => "held",
        Progress::Preparing => "preparing",
        Progress::Over => "over",
        Progress::Unseen => "unseen",
        Progress::Given => "given",
        Progress::GivenUp(_) => "given up",
    }
}
