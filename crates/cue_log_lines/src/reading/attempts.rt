//! The lines of attempts.
ghost use Rattle.std.specs.Prelude.{◌≡◌, find, nat_eq};
ghost use Rattle.std.specs.Cmp.Lexicographic.{pointwise};
ghost use Rattle.std.specs.List.{starts_with};
ghost use Rattle.std.specs.Option.{option_map};
ghost use Rattle.cue_words.specs.Answered.{outcome_words, reason_words};
ghost use Rattle.cue_log_lines.specs.Reading as spec;

use super::pieces::{after, cue_in, cut_last, device_in, number_in, short_of, word_of};
use super::spans::span_in;
use crate::line::{Ended, Line, OrderKind, Ordered, Try, Why};
use crate::text::Text;
use cue_exchange::{Outcome, Reason};
use cue_show::DeviceNo;
use cue_words::{outcome_words, reason_words};

// An attempt with this number, and its cue if one follows.
fn try_with(number: u32, text: &[u8]) -> Option<(Try, &[u8])>
    ensures { option_map (λ x. (x.0, x.1.now)) result ≡ spec.try_with number text.now }
{
    let Some(rest) = after(b" cue ", text) else {
        return Some((Try { number, cue: None }, text));
    };
    let Some((cue, rest)) = cue_in(rest) else {
        return None;
    };
    let attempt = Try {
        number,
        cue: Some(cue),
    };
    Some((attempt, rest))
}

/// The attempt at the front of a text, and what follows it.
#[tactic(auto, unfolding(crate::specs::Reading::try_at))]
pub fn try_in(text: &[u8]) -> Option<(Try, &[u8])>
    ensures { option_map (λ x. (x.0, x.1.now)) result ≡ spec.try_at text.now }
{
    let (number, rest) = number_in(after(b"attempt ", text)?);
    try_with(word_of(number)?, rest)
}

// An order of an attempt, after the word `device`.
#[tactic(auto, unfolding(crate::specs::Reading::order_at))]
fn read_order(kind: OrderKind, attempt: Try, text: &[u8]) -> Option<Line<'_>>
    ensures { result ≡ spec.order_at kind attempt text.now }
{
    let Some((device, rest)) = device_in(text) else {
        return None;
    };
    let (port, rest) = number_in(after(b" at ", rest)?);
    Some(Line::Ordered(Ordered {
        kind,
        attempt,
        device,
        port: short_of(port)?,
        is_sent: rest.is_empty(),
    }))
}

// An attempt that hangs on one device.
#[tactic(auto, unfolding(crate::specs::Reading::alone_at))]
fn read_alone(attempt: Try, text: &[u8]) -> Option<Line<'_>>
    ensures { result ≡ spec.alone_at attempt text.now }
{
    match device_in(after(b": device ", text)?) {
        Some((device, _)) => Some(Line::Alone(attempt, device)),
        None => None,
    }
}

/// A STANDBY, by what follows that word.
#[tactic(auto, unfolding(crate::specs::Reading::standby_at))]
pub fn read_standby(text: &[u8]) -> Option<Line<'_>>
    ensures { result ≡ spec.standby_at text.now }
{
    let Some((attempt, rest)) = try_in(text) else {
        return None;
    };
    match after(b" device ", rest) {
        Some(to) => read_order(OrderKind::Standby, attempt, to),
        None => read_alone(attempt, rest),
    }
}

/// A GO, by what follows that word.
#[tactic(auto, unfolding(crate::specs::Reading::go_at))]
pub fn read_go(text: &[u8]) -> Option<Line<'_>>
    ensures { result ≡ spec.go_at text.now }
{
    let Some((attempt, rest)) = try_in(text) else {
        return None;
    };
    read_order(OrderKind::Go, attempt, after(b" device ", rest)?)
}

/// The reasons for which a preparation is given up.
const REASONS: [Reason; 5] = [
    Reason::Operator,
    Reason::Deadline,
    Reason::Abort,
    Reason::Power,
    Reason::Release,
];

// Which of these reasons has the words.
fn reason_among(reasons: &[Reason], text: &[u8]) -> Option<Reason>
    ensures { result ≡ find (λ r. pointwise nat_eq text.now (reason_words r)) reasons.now }
{
    reasons
        .iter()
        .copied()
        .find(|reason| text == reason_words(*reason).as_bytes())
}

// The reason in these words.
fn reason_in(text: &[u8]) -> Option<Why>
    ensures { result ≡ spec.reason_at text.now }
{
    let reason = reason_among(&REASONS, text)?;
    Some(Why::Said(reason))
}

// A device that gave it up, by what follows its number.
fn device_why(device: DeviceNo, text: &[u8]) -> Why
    ensures { result ≡ spec.device_why device text.now }
{
    match after(b" aborted", text) {
        Some(_) => Why::Aborted(device),
        None => Why::Released(device),
    }
}

// Why a preparation was given up.
#[tactic(auto, unfolding(crate::specs::Reading::why_at))]
fn why_in(text: &[u8]) -> Option<Why>
    ensures { result ≡ spec.why_at text.now }
{
    let Some(rest) = after(b"device ", text) else {
        return reason_in(text);
    };
    match device_in(rest) {
        Some((device, rest)) => Some(device_why(device, rest)),
        None => None,
    }
}

// An attempt that is given up.
#[tactic(auto, unfolding(crate::specs::Reading::given_up_at))]
fn read_given_up(attempt: Try, text: &[u8]) -> Option<Line<'_>>
    ensures { result ≡ spec.given_up_at attempt text.now }
{
    let why = why_in(after(b": ", text)?)?;
    Some(Line::GivenUp(attempt, why))
}

/// A CANCEL, by what follows that word.
#[tactic(auto, unfolding(crate::specs::Reading::cancel_at))]
pub fn read_cancel(text: &[u8]) -> Option<Line<'_>>
    ensures { result ≡ spec.cancel_at text.now }
{
    let Some((attempt, rest)) = try_in(text) else {
        return None;
    };
    match after(b" device ", rest) {
        Some(to) => read_order(OrderKind::Cancel, attempt, to),
        None => read_given_up(attempt, rest),
    }
}

/// How attempts end.
const OUTCOMES: [Outcome; 3] = [Outcome::Complete, Outcome::Cancelled, Outcome::Failed];

// Which of these outcomes the text begins with.
fn outcome_among(outcomes: &[Outcome], text: &[u8]) -> Option<Outcome>
    ensures { result ≡ find (λ o. starts_with nat_eq text.now (outcome_words o)) outcomes.now }
{
    outcomes.iter().copied().find(|outcome| text.starts_with(outcome_words(*outcome).as_bytes()))
}

// How an attempt ended, and what follows that.
#[tactic(auto, unfolding(crate::specs::Reading::outcome_at))]
fn outcome_in(text: &[u8]) -> Option<(Outcome, &[u8])>
    ensures { option_map (λ x. (x.0, x.1.now)) result ≡ spec.outcome_at text.now }
{
    let outcome = outcome_among(&OUTCOMES, text)?;
    let rest = after(outcome_words(outcome).as_bytes(), text)?;
    Some((outcome, rest))
}

// How an attempt ended, by what stands before the last comma and after it.
#[tactic(auto, unfolding(crate::specs::Reading::ending_of))]
fn read_ending<'a>(attempt: Try, front: &'a [u8], tail: &[u8]) -> Option<Line<'a>>
    ensures { result ≡ spec.ending_of attempt (front.now, tail.now) }
{
    let (outcome, failures) = outcome_in(front)?;
    let (span, _) = span_in(after(b" ", tail)?)?;
    Some(Line::Ended(Ended {
        attempt,
        outcome,
        failures: Text::new(failures),
        span,
    }))
}

/// An END, by what follows that word.
#[tactic(auto, unfolding(crate::specs::Reading::end_at))]
pub fn read_end(text: &[u8]) -> Option<Line<'_>>
    ensures { result ≡ spec.end_at text.now }
{
    let Some((attempt, rest)) = try_in(text) else {
        return None;
    };
    let (front, tail) = cut_last(b',', after(b": ", rest)?)?;
    read_ending(attempt, front, tail)
}
