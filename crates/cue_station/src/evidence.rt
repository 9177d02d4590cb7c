//! What a copy shows of a press that was said to be carried out. A reply is a word: a program that holds the port of
//! the controller, and is none, can say it too. The store is what the controller will act on.
ghost use Rattle.std.specs.Prelude.{◌≡◌, false, not};
ghost use Rattle.cue_exchange.specs.Answers.{answer_passes, is_waiting};
ghost use Rattle.cue_exchange.specs.Live.{attempt_of};
ghost use Rattle.cue_show.specs.Number.{same_text};
ghost use Rattle.std.specs.Option.{option_eq, option_map_or};
ghost use Rattle.cue_station.specs.Asking as asking;

use crate::asking::{is_known, is_live_at, was_given, was_given_up};
use crate::heard::Copied;
use crate::memory::Reading;
use cue_core::State;
use cue_show::{CueNo, DeviceNo};
use cue_view::button::Button;

/// The newest attempt that the copy knows of; 0 if it knows of none.
pub(crate) fn newest_in(reading: &Option<Reading>) -> u32
    ensures { result ≡ asking.newest_in reading.now }
{
    match reading {
        Some(reading) => reading.copy.state.last_seq(),
        None => 0,
    }
}

// Whether a live attempt of this number waits for the device.
fn waits_for(state: &State, seq: u32, device: DeviceNo) -> bool
    ensures { result ≡ option_map_or (λ a. answer_passes is_waiting device a.answers)
        (attempt_of state.now.live seq) false }
{
    match state.live().of_seq(seq) {
        Some(attempt) => attempt.answers.waits_for(device),
        None => false,
    }
}

// Whether the cue is the place.
fn is_place(cue: CueNo, state: &State) -> bool
    ensures { result ≡ option_eq same_text (Some cue) state.now.show.place }
{
    Some(cue) == state.show().place()
}

// Whether the copy shows that the press was carried out.
fn is_shown_in(button: Button, before: u32, copy: &Copied) -> bool
    ensures { result ≡ asking.is_shown_in button before copy.now }
{
    match button {
        Button::Standby(cue) => is_live_at(cue, &copy.state) || before < copy.state.last_seq(),
        Button::Go(_, seq) => was_given(seq, copy) || !is_known(seq, copy),
        Button::Cancel(_, seq) => was_given_up(seq, copy) || !is_known(seq, copy),
        Button::Release(seq, device) => !waits_for(&copy.state, seq, device),
        Button::MoveTo(cue) => is_place(cue, &copy.state),
        Button::Choose(_) | Button::Seen(_) => true,
    }
}

/// Whether the newest copy shows that the press was carried out. `before`: the newest attempt when it was sent.
pub(crate) fn is_shown_by(button: Button, before: u32, reading: &Option<Reading>) -> bool
    ensures { result ≡ asking.is_shown_by button before reading.now }
{
    match reading {
        Some(reading) => is_shown_in(button, before, &reading.copy),
        None => false,
    }
}
