//! Which buttons the newest views have offered.
ghost use Rattle.std.specs.Prelude.{◌≡◌};
ghost use Rattle.std.specs.List.{list_any};
ghost use Rattle.cue_station.specs.Offering as offering;

use crate::limits::PRESS_MS;
use crate::memory::Shown;
use cue_show::{CueNo, DeviceNo};
use cue_view::button::Button;

// Whether it is STANDBY of the cue.
fn is_standby(cue: CueNo, button: &Button) -> bool
    ensures { result ≡ offering.is_standby cue button.now }
{
    match button {
        Button::Standby(other) => cue == *other,
        Button::Go(_, _) | Button::Cancel(_, _) | Button::Release(_, _) => false,
        Button::MoveTo(_) | Button::Choose(_) | Button::Seen(_) => false,
    }
}

// Whether it is GO of the cue, in the attempt.
fn is_go(cue: CueNo, seq: u32, button: &Button) -> bool
    ensures { result ≡ offering.is_go cue seq button.now }
{
    match button {
        Button::Go(other, number) => cue == *other && seq == *number,
        Button::Standby(_) | Button::Cancel(_, _) | Button::Release(_, _) => false,
        Button::MoveTo(_) | Button::Choose(_) | Button::Seen(_) => false,
    }
}

// Whether it is CANCEL of the cue, in the attempt.
fn is_cancel(cue: CueNo, seq: u32, button: &Button) -> bool
    ensures { result ≡ offering.is_cancel cue seq button.now }
{
    match button {
        Button::Cancel(other, number) => cue == *other && seq == *number,
        Button::Standby(_) | Button::Go(_, _) | Button::Release(_, _) => false,
        Button::MoveTo(_) | Button::Choose(_) | Button::Seen(_) => false,
    }
}

// Whether it gives the device up, in the attempt.
fn is_release(seq: u32, device: DeviceNo, button: &Button) -> bool
    ensures { result ≡ offering.is_release seq device button.now }
{
    match button {
        Button::Release(number, other) => seq == *number && device == *other,
        Button::Standby(_) | Button::Go(_, _) | Button::Cancel(_, _) => false,
        Button::MoveTo(_) | Button::Choose(_) | Button::Seen(_) => false,
    }
}

// Whether it moves to the cue.
fn is_move(cue: CueNo, button: &Button) -> bool
    ensures { result ≡ offering.is_move cue button.now }
{
    match button {
        Button::MoveTo(other) => cue == *other,
        Button::Standby(_) | Button::Go(_, _) | Button::Cancel(_, _) => false,
        Button::Release(_, _) | Button::Choose(_) | Button::Seen(_) => false,
    }
}

// Whether it chooses the attempt.
fn is_choice(seq: u32, button: &Button) -> bool
    ensures { result ≡ offering.is_choice seq button.now }
{
    match button {
        Button::Choose(number) => seq == *number,
        Button::Standby(_) | Button::Go(_, _) | Button::Cancel(_, _) => false,
        Button::Release(_, _) | Button::MoveTo(_) | Button::Seen(_) => false,
    }
}

// Whether it says that the end of the attempt was seen.
fn is_seen(seq: u32, button: &Button) -> bool
    ensures { result ≡ offering.is_seen seq button.now }
{
    match button {
        Button::Seen(number) => seq == *number,
        Button::Standby(_) | Button::Go(_, _) | Button::Cancel(_, _) => false,
        Button::Release(_, _) | Button::MoveTo(_) | Button::Choose(_) => false,
    }
}

// Whether the two buttons are the same, for the same cue, attempt and device.
fn is_same(one: Button, other: &Button) -> bool
    ensures { result ≡ offering.same_button one other.now }
{
    match one {
        Button::Standby(cue) => is_standby(cue, other),
        Button::Go(cue, seq) => is_go(cue, seq, other),
        Button::Cancel(cue, seq) => is_cancel(cue, seq, other),
        Button::Release(seq, device) => is_release(seq, device, other),
        Button::MoveTo(cue) => is_move(cue, other),
        Button::Choose(seq) => is_choice(seq, other),
        Button::Seen(seq) => is_seen(seq, other),
    }
}

// Whether the button is one of those.
fn is_among(button: Button, lit: &[Button]) -> bool
    ensures { result ≡ offering.is_lit button lit.now }
{
    lit.iter().any(|other| is_same(button, other))
}

// Whether the view has the number, and is young.
fn is_recent(shown: &Shown, view: u64, at: u64) -> bool
    ensures { result ≡ offering.is_recent view at shown.now }
{
    shown.number == view && at.saturating_sub(shown.at) <= PRESS_MS
}

// Whether it has the button lit, too.
fn offers(shown: &Shown, view: u64, at: u64, button: Button) -> bool
    ensures { result ≡ offering.offers view at button shown.now }
{
    is_recent(shown, view, at) && is_among(button, shown.lit.as_slice())
}

/// Whether one of the views has the number, and is young.
pub(crate) fn is_one_recent(views: &[Shown], view: u64, at: u64) -> bool
    ensures { result ≡ list_any (offering.is_recent view at) views.now }
{
    views.iter().any(|shown| is_recent(shown, view, at))
}

/// Whether one of the views has the number, is young, and has the button lit.
pub(crate) fn is_offered(views: &[Shown], view: u64, at: u64, button: Button) -> bool
    ensures { result ≡ offering.is_offered view at button views.now }
{
    views.iter().any(|shown| offers(shown, view, at, button))
}
