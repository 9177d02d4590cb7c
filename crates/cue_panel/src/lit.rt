//! Whether what is pressed first is lit.
ghost use Rattle.std.specs.Prelude.{◌≡◌};
ghost use Rattle.cue_panel.specs.Lit as lit;

use cue_presses::Press;
use cue_show::CueNo;
use cue_view::button::Button;
use cue_view::view::View;

// Whether it is STANDBY of the cue.
fn is_standby(cue: CueNo, button: &Button) -> bool
    ensures { result ≡ lit.is_standby cue button.now }
{
    match button {
        Button::Standby(other) => cue == *other,
        Button::Go(_, _) | Button::Cancel(_, _) | Button::Release(_, _) => false,
        Button::MoveTo(_) | Button::Choose(_) | Button::Seen(_) => false,
    }
}

// Whether it is GO of the cue, in the attempt.
fn is_go(cue: CueNo, seq: u32, button: &Button) -> bool
    ensures { result ≡ lit.is_go cue seq button.now }
{
    match button {
        Button::Go(other, number) => cue == *other && seq == *number,
        Button::Standby(_) | Button::Cancel(_, _) | Button::Release(_, _) => false,
        Button::MoveTo(_) | Button::Choose(_) | Button::Seen(_) => false,
    }
}

// Whether it is CANCEL of the cue, in the attempt.
fn is_cancel(cue: CueNo, seq: u32, button: &Button) -> bool
    ensures { result ≡ lit.is_cancel cue seq button.now }
{
    match button {
        Button::Cancel(other, number) => cue == *other && seq == *number,
        Button::Standby(_) | Button::Go(_, _) | Button::Release(_, _) => false,
        Button::MoveTo(_) | Button::Choose(_) | Button::Seen(_) => false,
    }
}

// Whether it chooses the attempt.
fn is_choice(seq: u32, button: &Button) -> bool
    ensures { result ≡ lit.is_choice seq button.now }
{
    match button {
        Button::Choose(number) => seq == *number,
        Button::Standby(_) | Button::Go(_, _) | Button::Cancel(_, _) => false,
        Button::Release(_, _) | Button::MoveTo(_) | Button::Seen(_) => false,
    }
}

// Whether the two are the same STANDBY, GO, CANCEL or choice; no word means any other button.
fn is_same(one: Button, other: &Button) -> bool
    ensures { result ≡ lit.is_same one other.now }
{
    match one {
        Button::Standby(cue) => is_standby(cue, other),
        Button::Go(cue, seq) => is_go(cue, seq, other),
        Button::Cancel(cue, seq) => is_cancel(cue, seq, other),
        Button::Choose(seq) => is_choice(seq, other),
        Button::Release(_, _) | Button::MoveTo(_) | Button::Seen(_) => false,
    }
}

// What is pressed first: the choice of the attempt, if there is one to make.
fn first_of(press: &Press) -> Button
    ensures { result ≡ lit.first_of press.now }
{
    match press.choose {
        Some(seq) => Button::Choose(seq),
        None => press.button,
    }
}

/// Whether the press may be sent by this view: what is pressed first is lit.
pub(crate) fn is_lit(view: &View, press: &Press) -> bool
    ensures { result ≡ lit.is_lit view.now press.now }
{
    let first = first_of(press);
    view.lit.iter().any(|button| is_same(first, button))
}
