//! Which presses are sent.
ghost use Rattle.std.specs.Prelude.{◌≡◌, ◌&&◌, is_none};
ghost use Rattle.std.specs.List.{list_any};
ghost use Rattle.cue_station.specs.Lighting.{may_by};
ghost use Rattle.cue_station.specs.Asking as asking;
ghost use Rattle.cue_station.specs.Offering.{is_offered, is_recent};
ghost use Rattle.cue_station.specs.Pressing as pressing;
ghost use Rattle.cue_station.specs.Showing.{since_in};

use crate::lighting::{Footing, may_by};
use crate::limits::TAP_MS;
use crate::memory::{Pending, Reading, Seen, Shown};
use crate::offering::{is_offered, is_one_recent};
use crate::opening::go_number;
use cue_desk::orders::DeskCommand;
use cue_operator::CueVerb;
use cue_view::button::Button;
use cue_view::view::Unsent;

/// The message of a button; none if nothing is sent.
pub(crate) fn order_of(button: Button) -> Option<DeskCommand>
    ensures { result ≡ pressing.order_of button }
{
    match button {
        Button::Standby(cue) => Some(DeskCommand::OfCue(CueVerb::Standby, cue)),
        Button::Go(cue, _) => Some(DeskCommand::OfCue(CueVerb::Go, cue)),
        Button::Cancel(cue, _) => Some(DeskCommand::OfCue(CueVerb::Cancel, cue)),
        Button::Release(_, device) => Some(DeskCommand::Release(device)),
        Button::MoveTo(cue) => Some(DeskCommand::OfCue(CueVerb::Goto, cue)),
        Button::Choose(_) | Button::Seen(_) => None,
    }
}

// Whether the two are there, and are the same attempt.
fn is_same_attempt(one: Option<u32>, other: Option<u32>) -> bool
    ensures { result ≡ asking.is_same_attempt one other }
{
    match (one, other) {
        (Some(one), Some(other)) => one == other,
        (None, _) => false,
        (Some(_), None) => false,
    }
}

// Whether it is the GO of the last press once more, within a second of it.
fn is_tap(at: u64, button: Button, press: &Option<Pending>) -> bool
    ensures { result ≡ asking.is_tap at button press.now }
{
    match press {
        Some(press) => {
            is_same_attempt(go_number(button), go_number(press.button))
                && at.saturating_sub(press.at) <= TAP_MS
        }
        None => false,
    }
}

// Why a press is not heeded, if it is not.
fn refusal_by(tap: bool, recent: bool, offered: bool, may: bool) -> Option<Unsent>
    ensures { result ≡ pressing.refusal_by tap recent offered may }
{
    if offered && may {
        None
    } else if tap {
        Some(Unsent::Again)
    } else if offered {
        Some(Unsent::Changed)
    } else if recent {
        Some(Unsent::Dark)
    } else {
        Some(Unsent::Old)
    }
}

/// Why the press of a button of a view is not heeded, if it is not: it is the second tap of a GO, the view is old or
/// had it dark, or it may no longer be lit. `press`: the last that was sent.
pub(crate) fn refusal_of(
    views: &[Shown],
    view: u64,
    button: &Button,
    press: &Option<Pending>,
    reading: &Option<Reading>,
    seen: &[Seen],
    footing: &Footing,
) -> Option<Unsent>
    ensures heeded { is_none result ≡ (is_offered view footing.now.at button.now views.now
        && may_by footing.now (since_in seen.now) reading.now button.now) }
    ensures why { result ≡ pressing.refusal_by (asking.is_tap footing.now.at button.now press.now)
        (list_any (is_recent view footing.now.at) views.now)
        (is_offered view footing.now.at button.now views.now)
        (may_by footing.now (since_in seen.now) reading.now button.now) }
{
    let tap = is_tap(footing.at, *button, press);
    let recent = is_one_recent(views, view, footing.at);
    let offered = is_offered(views, view, footing.at, *button);
    let may = may_by(*button, reading, seen, *footing);
    refusal_by(tap, recent, offered, may)
}
