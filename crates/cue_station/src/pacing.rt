//! When the status is asked.
ghost use Rattle.std.specs.Prelude.{◌≡◌};
ghost use Rattle.cue_station.specs.Pacing as pacing;

use crate::heard::{Heard, Send};
use crate::limits::{ASK_AGAIN_MS, ASK_MS};
use crate::memory::{Notes, Pace, Question};
use cue_desk::orders::DeskCommand;
use cue_desk::replying::Replied;

// Whether the last press was sent before the moment, so that a question that is sent now is asked after it.
fn is_after_press(notes: &Notes, at: u64) -> bool
    ensures { result ≡ pacing.is_after_press notes.now.press at }
{
    match notes.press {
        Some(press) => press.at < at,
        None => true,
    }
}

// How long after a question the next one is due.
fn wait_by(is_answered: bool) -> u64
    ensures { result ≡ pacing.wait_by is_answered }
{
    if is_answered { ASK_MS } else { ASK_AGAIN_MS }
}

// Whether the status is wanted at once. A question that is under way is not asked again at once: its answer would be
// lost, and a controller that is slow while the store changes would never be heard.
fn is_at_once(notes: &Notes, pace: Pace, at: u64) -> bool
    ensures { result ≡ pacing.is_at_once notes.now pace at }
{
    pace.is_wanted && (pace.is_answered && is_after_press(notes, at))
}

/// Whether a question for the status is due: at once after a copy that differs and after each press, a tenth of a second
/// after one that was answered or that nobody listened to, and half a second after one to which nothing came.
pub(crate) fn is_due(notes: &Notes, pace: Pace, at: u64) -> bool
    ensures { result ≡ pacing.is_due notes.now pace at }
{
    let Some(question) = notes.question else {
        return true;
    };
    (is_at_once(notes, pace, at) && question.at < at)
        || at.saturating_sub(question.at) >= wait_by(pace.is_answered)
}

// Whether the question is this one.
fn is_question(ask: u64, question: Option<Question>) -> bool {
    match question {
        Some(question) => question.ask == ask,
        None => false,
    }
}

// Whether a status came to the newest question, or nobody listens.
fn is_answer(heard: &Heard, question: Option<Question>) -> bool {
    match heard {
        Heard::Replied(ask, Replied::Status(_)) => is_question(*ask, question),
        Heard::Nobody(ask) => is_question(*ask, question),
        _ => false,
    }
}

/// The pace once this was heard. `is_new`: a copy came that is the newest now.
pub(crate) fn pace_heard(
    pace: Pace,
    question: Option<Question>,
    heard: &Heard,
    is_new: bool,
) -> Pace {
    Pace {
        is_answered: pace.is_answered || is_answer(heard, question),
        is_wanted: pace.is_wanted || is_new,
    }
}

/// The pace once this was sent.
pub(crate) fn pace_sent(pace: Pace, send: Option<Send>) -> Pace {
    match send {
        Some(send) => match send.order {
            DeskCommand::Status => Pace {
                is_answered: false,
                is_wanted: false,
            },
            DeskCommand::OfCue(_, _) | DeskCommand::Release(_) | DeskCommand::RemoveDevice(_) =>
                Pace {
                    is_wanted: true,
                    ..pace
                },
        },
        None => pace,
    }
}
