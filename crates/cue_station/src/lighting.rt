//! When a button may be lit.
ghost use Rattle.std.specs.Prelude.{◌≡◌, ◌&&◌, ◌||◌, is_none};
ghost use Rattle.cue_exchange.specs.Answers.{answer_passes, is_preparing, is_waiting};
ghost use Rattle.cue_exchange.specs.Live.{attempt_of_cue};
ghost use Rattle.cue_show.specs.Number.{same_text};
ghost use Rattle.cue_show.specs.Show.{has_cue};
ghost use Rattle.cue_station.specs.Following.{next_in};
ghost use Rattle.cue_station.specs.Alarms as alarms;
ghost use Rattle.cue_station.specs.Lighting as lighting;
ghost use Rattle.cue_station.specs.Showing.{since_in};

use crate::alarms::{in_sight_by, is_alive, is_young};
use crate::following::next_in;
use crate::heard::Copied;
use crate::memory::{Answered, Reading, Seen};
use crate::remembering::agrees;
use crate::showing::{is_in_time, since_in};
use cue_core::State;
use cue_exchange::Attempt;
use cue_show::{CueNo, DeviceNo};
use cue_view::button::Button;
use cue_view::view::{Next, Trouble};

/// What a lit button rests on, beside the copy and the attempts that are seen.
#[derive(Clone, Copy)]
pub struct Footing {
    pub at: u64,
    pub wall: u64,
    /// Whether the copy is in sight, and is what somebody served lately.
    pub stands: bool,
    pub chosen: Option<u32>,
    /// The attempt of the last press, if that is a GO that is open.
    pub going: Option<u32>,
    /// Whether no press is open.
    pub is_quiet: bool,
    /// Whether no go and no cancel is open.
    pub is_calm: bool,
}

// When the status was asked that was answered last.
pub(crate) fn asked_at(answered: &Option<Answered>) -> Option<u64>
    ensures { result ≡ alarms.asked_at answered.now }
{
    match answered {
        Some(answered) => Some(answered.asked),
        None => None,
    }
}

// The moment for which the copy stands.
pub(crate) fn read_at(reading: &Option<Reading>) -> Option<u64>
    ensures { result ≡ alarms.read_at reading.now }
{
    match reading {
        Some(reading) => Some(reading.at),
        None => None,
    }
}

// Whether what is known of the controller is of the store that was copied.
fn agree_by(answered: &Option<Answered>, reading: &Option<Reading>) -> bool
    ensures { result ≡ alarms.agree_by answered.now reading.now }
{
    match (answered, reading) {
        (Some(answered), Some(reading)) => agrees(answered.status, &reading.copy.state),
        (None, _) => false,
        (Some(_), None) => false,
    }
}

/// Whether the copy is in sight, somebody answered a status lately, and that is of the store that was copied.
pub(crate) fn stands_by(
    at: u64,
    trouble: Option<Trouble>,
    answered: &Option<Answered>,
    reading: &Option<Reading>,
) -> bool
    ensures { result ≡ alarms.stands_by at trouble answered.now reading.now }
{
    in_sight_by(at, trouble, read_at(reading))
        && is_alive(at, asked_at(answered))
        && agree_by(answered, reading)
}

/// Whether the copy is young and somebody answered a status lately, but of another store.
pub(crate) fn differs_by(at: u64, answered: &Option<Answered>, reading: &Option<Reading>) -> bool
    ensures { result ≡ alarms.differs_by at answered.now reading.now }
{
    is_young(at, read_at(reading))
        && is_alive(at, asked_at(answered))
        && !agree_by(answered, reading)
}

// Whether the number is this one.
fn is_number(seq: u32, chosen: Option<u32>) -> bool
    ensures { result ≡ lighting.is_number seq chosen }
{
    match chosen {
        Some(chosen) => seq == chosen,
        None => false,
    }
}

// Whether the cue is the one that is next.
fn is_next(cue: CueNo, next: Next) -> bool
    ensures { result ≡ lighting.is_next cue next }
{
    match next {
        Next::Cue(other) => other == cue,
        Next::Empty | Next::End | Next::Unknown => false,
    }
}

// Whether GO can be given for the attempt, in a copy that stands.
fn is_ready(attempt: &Attempt, seen: &[Seen], seq: u32, footing: Footing) -> bool
    ensures { result ≡ lighting.is_ready (since_in seen.now seq) footing.at footing.wall attempt.now }
{
    attempt.can_go() && is_in_time(since_in(seen, seq), footing.at, footing.wall, attempt)
}

// Whether the attempt is ready, if it is at the cue.
fn is_ready_at(state: &State, seen: &[Seen], footing: Footing, cue: CueNo, seq: u32) -> bool
    ensures { result ≡ lighting.is_live_as seq (λ a. same_text a.cue cue
        && lighting.is_ready (since_in seen.now seq) footing.at footing.wall a) state.now.live }
{
    match state.live().of_seq(seq) {
        Some(a) => a.cue == cue && is_ready(a, seen, seq, footing),
        None => false,
    }
}

// Whether the attempt prepares, if it is at the cue.
fn prepares_at(state: &State, cue: CueNo, seq: u32) -> bool
    ensures { result ≡ lighting.is_live_as seq (λ a. same_text a.cue cue && is_preparing a.stage) state.now.live }
{
    match state.live().of_seq(seq) {
        Some(a) => a.cue == cue && a.stage.is_preparing(),
        None => false,
    }
}

// Whether the attempt prepares.
fn prepares(state: &State, seq: u32) -> bool
    ensures { result ≡ lighting.is_live_as seq (λ a. is_preparing a.stage) state.now.live }
{
    match state.live().of_seq(seq) {
        Some(a) => a.stage.is_preparing(),
        None => false,
    }
}

// Whether the attempt waits for the device.
fn waits_for(state: &State, seq: u32, device: DeviceNo) -> bool
    ensures { result ≡ lighting.is_live_as seq (λ a. answer_passes is_waiting device a.answers) state.now.live }
{
    match state.live().of_seq(seq) {
        Some(a) => a.answers.waits_for(device),
        None => false,
    }
}

// Whether nothing is live at the cue.
fn is_free(state: &State, cue: CueNo) -> bool
    ensures { result ≡ is_none (attempt_of_cue state.now.live cue) }
{
    state.live().of_cue(cue).is_none()
}

// Whether the copy stands, no press is open, and the attempt is chosen.
fn stands_chosen(footing: Footing, seq: u32) -> bool
    ensures { result ≡ (footing.stands && (footing.is_quiet && lighting.is_number seq footing.chosen)) }
{
    footing.stands && (footing.is_quiet && is_number(seq, footing.chosen))
}

/// Whether the copy stands, and no press is open.
pub(crate) fn stands_quiet(footing: Footing) -> bool
    ensures { result ≡ (footing.stands && footing.is_quiet) }
{
    footing.stands && footing.is_quiet
}

fn may_go(state: &State, seen: &[Seen], footing: Footing, cue: CueNo, seq: u32) -> bool
    ensures { result ≡ ((footing.stands && (footing.is_quiet && lighting.is_number seq footing.chosen))
        && lighting.is_live_as seq (λ a. same_text a.cue cue
        && lighting.is_ready (since_in seen.now seq) footing.at footing.wall a) state.now.live) }
{
    stands_chosen(footing, seq) && is_ready_at(state, seen, footing, cue, seq)
}

// Whether the attempt is chosen and no go and no cancel is open, or the last press is a GO of it that is open.
fn is_cancelled_by(footing: Footing, seq: u32) -> bool
    ensures { result ≡ (footing.stands && ((footing.is_calm && lighting.is_number seq footing.chosen)
        || lighting.is_number seq footing.going)) }
{
    footing.stands
        && ((footing.is_calm && is_number(seq, footing.chosen)) || is_number(seq, footing.going))
}

fn may_cancel(state: &State, footing: Footing, cue: CueNo, seq: u32) -> bool
    ensures { result ≡ ((footing.stands && ((footing.is_calm && lighting.is_number seq footing.chosen)
        || lighting.is_number seq footing.going))
        && lighting.is_live_as seq (λ a. same_text a.cue cue && is_preparing a.stage) state.now.live) }
{
    is_cancelled_by(footing, seq) && prepares_at(state, cue, seq)
}

// Whether the cue is next, and nothing is live at it.
fn is_next_free(copy: &Copied, cue: CueNo) -> bool
    ensures { result ≡ (lighting.is_next cue (next_in copy.now)
        && is_none (attempt_of_cue copy.now.state.live cue)) }
{
    is_next(cue, next_in(copy)) && is_free(&copy.state, cue)
}

fn may_standby(copy: &Copied, footing: Footing, cue: CueNo) -> bool
    ensures { result ≡ lighting.may_standby footing cue copy.now }
{
    stands_quiet(footing) && is_next_free(copy, cue)
}

fn may_release(state: &State, footing: Footing, seq: u32, device: DeviceNo) -> bool
    ensures { result ≡ ((footing.stands && footing.is_quiet)
        && lighting.is_live_as seq (λ a. answer_passes is_waiting device a.answers) state.now.live) }
{
    stands_quiet(footing) && waits_for(state, seq, device)
}

fn may_move(state: &State, footing: Footing, cue: CueNo) -> bool
    ensures { result ≡ ((footing.stands && footing.is_quiet) && has_cue state.now.show cue) }
{
    stands_quiet(footing) && state.show().has_cue(cue)
}

/// Whether the button may be lit, over a copy.
pub(crate) fn may_in(button: Button, copy: &Copied, seen: &[Seen], footing: Footing) -> bool
    ensures { result ≡ lighting.may_in footing (since_in seen.now) copy.now button }
{
    match button {
        Button::Go(cue, seq) => may_go(&copy.state, seen, footing, cue, seq),
        Button::Cancel(cue, seq) => may_cancel(&copy.state, footing, cue, seq),
        Button::Standby(cue) => may_standby(copy, footing, cue),
        Button::Release(seq, device) => may_release(&copy.state, footing, seq, device),
        Button::MoveTo(cue) => may_move(&copy.state, footing, cue),
        Button::Choose(seq) => prepares(&copy.state, seq),
        Button::Seen(_) => true,
    }
}

/// Whether the button may be lit, over the newest copy.
pub(crate) fn may_by(
    button: Button,
    reading: &Option<Reading>,
    seen: &[Seen],
    footing: Footing,
) -> bool
    ensures { result ≡ lighting.may_by footing (since_in seen.now) reading.now button }
{
    match reading {
        Some(reading) => may_in(button, &reading.copy, seen, footing),
        None => false,
    }
}
