//! Which presses are open, of the two that are kept.
ghost use Rattle.std.specs.Prelude.{◌≡◌, ◌&&◌, ◌||◌, not, is_none};
ghost use Rattle.cue_station.specs.Asking as asking;
ghost use Rattle.cue_station.specs.Opening as opening;

use crate::memory::{Pending, Reading, Word};
use cue_view::button::Button;

/// Whether a copy was begun later than the answer came: one of the same millisecond may be of before.
pub(crate) fn is_read_later(answer: Option<Word>, reading: &Option<Reading>) -> bool
    ensures { result ≡ asking.is_read_later answer reading.now }
{
    match (answer, reading) {
        (Some(word), Some(reading)) => word.at < reading.at,
        (None, _) => false,
        (Some(_), None) => false,
    }
}

// Whether a press is open: it is neither answered and read later than that, nor settled.
fn is_open(pending: &Pending, reading: &Option<Reading>) -> bool
    ensures { result ≡ asking.is_open reading.now pending.now }
{
    !is_read_later(pending.answer, reading) && pending.settled.is_none()
}

/// The press, if there is one and it is open.
pub(crate) fn if_open(pending: &Option<Pending>, reading: &Option<Reading>) -> Option<Pending>
    ensures { result ≡ asking.if_open reading.now pending.now }
{
    match pending {
        Some(pending) => if is_open(pending, reading) {
            Some(*pending)
        } else {
            None
        },
        None => None,
    }
}

/// The attempt of a GO.
pub(crate) fn go_number(button: Button) -> Option<u32>
    ensures { result ≡ asking.go_number button }
{
    match button {
        Button::Go(_, seq) => Some(seq),
        Button::Standby(_) | Button::Cancel(_, _) | Button::Release(_, _) => None,
        Button::MoveTo(_) | Button::Choose(_) | Button::Seen(_) => None,
    }
}

/// The attempt of the press, if it is there and is a GO.
pub(crate) fn going_by(pending: &Option<Pending>) -> Option<u32>
    ensures { result ≡ asking.going_by pending.now }
{
    match pending {
        Some(pending) => go_number(pending.button),
        None => None,
    }
}

// Whether it is a go or a cancel.
fn is_final(button: Button) -> bool
    ensures { result ≡ asking.is_final button }
{
    match button {
        Button::Go(_, _) | Button::Cancel(_, _) => true,
        Button::Standby(_) | Button::Release(_, _) | Button::MoveTo(_) => false,
        Button::Choose(_) | Button::Seen(_) => false,
    }
}

/// Whether neither of the two presses is there.
pub(crate) fn are_none(one: &Option<Pending>, other: &Option<Pending>) -> bool
    ensures { result ≡ (is_none one.now && is_none other.now) }
{
    one.is_none() && other.is_none()
}

/// Whether it is there, and is a go or a cancel.
fn is_some_final(pending: &Option<Pending>) -> bool
    ensures { result ≡ opening.is_some_final pending.now }
{
    match pending {
        Some(pending) => is_final(pending.button),
        None => false,
    }
}

/// Whether neither of the two presses is there and a go or a cancel.
pub(crate) fn is_none_final(one: &Option<Pending>, other: &Option<Pending>) -> bool
    ensures { result ≡ (not (opening.is_some_final one.now) && not (opening.is_some_final other.now)) }
{
    !is_some_final(one) && !is_some_final(other)
}

// Whether it is there, and has this ask.
fn has_ask(ask: u64, pending: &Option<Pending>) -> bool
    ensures { result ≡ opening.has_ask ask pending.now }
{
    match pending {
        Some(pending) => pending.ask == ask,
        None => false,
    }
}

/// Whether one of the two presses has the ask.
pub(crate) fn is_one_ask(ask: u64, one: &Option<Pending>, other: &Option<Pending>) -> bool
    ensures { result ≡ (opening.has_ask ask one.now || opening.has_ask ask other.now) }
{
    has_ask(ask, one) || has_ask(ask, other)
}
