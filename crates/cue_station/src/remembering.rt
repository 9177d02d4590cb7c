//! What the desk remembers for its alarms, one thing after the other.
ghost use Rattle.std.specs.Prelude.{◌≡◌, ◌&&◌, length, pos};
ghost use Rattle.std.specs.Option.{option_eq};
ghost use Rattle.std.specs.Ordering.{int_eq};
ghost use Rattle.cue_show.specs.Number.{same_text};
ghost use Rattle.cue_station.specs.Alarms as alarms;
ghost use Rattle.cue_station.specs.Network as network;
ghost use Rattle.cue_station.specs.Reading.{ended_number, ended_outcome};

use crate::heard::Heard;
use crate::memory::Relayed;
use cue_core::{Ended, State};
use cue_desk::replying::{Replied, Status};
use cue_relay::status as relay;
use cue_show::CueNo;
use cue_view::view::Trouble;

/// Why the store could not be read when it was looked at last, once this was heard.
pub fn trouble_with(heard: &Heard, old: Option<Trouble>) -> Option<Trouble>
    ensures { result ≡ alarms.trouble_with heard.now old }
{
    match heard {
        Heard::Unread(why) => Some(*why),
        Heard::Copied(_) | Heard::Same(_) => None,
        Heard::Replied(_, _) | Heard::Nobody(_) | Heard::Pressed(_, _) => old,
        Heard::Relay(_) | Heard::Kept(_) | Heard::Tick => old,
    }
}

/// Whether nobody listened when the status was asked last, once this was heard; `asked`: the number of the newest ask
/// for the status.
pub fn nobody_with(heard: &Heard, asked: Option<u64>, old: bool) -> bool
    ensures { result ≡ alarms.nobody_by asked heard.now old }
{
    match heard {
        Heard::Nobody(ask) if asked == Some(*ask) => true,
        Heard::Replied(ask, Replied::Status(_)) if asked == Some(*ask) => false,
        _ => old,
    }
}

// The number of the attempt that ended last; 0 before the first.
fn ended_number(ended: Option<Ended>) -> u32
    ensures { result ≡ ended_number ended }
{
    match ended {
        Some(ended) => ended.seq,
        None => 0,
    }
}

// The number of how it ended; 0 before the first.
fn ended_outcome(ended: Option<Ended>) -> u8
    ensures { result ≡ ended_outcome ended }
{
    match ended {
        Some(ended) => ended.outcome.number(),
        None => 0,
    }
}

// Whether a number of a status is this one.
fn is_number(told: i32, number: u64) -> bool
    ensures { result ≡ int_eq told (pos number) }
{
    i128::from(told) == i128::from(number)
}

// Whether the place of a status is this one.
fn is_place(told: Option<CueNo>, place: Option<CueNo>) -> bool
    ensures { result ≡ option_eq same_text told place }
{
    told == place
}

// Whether the status tells of the attempt that ended last.
fn agrees_at_end(status: Status, ended: Option<Ended>) -> bool
    ensures { result ≡ (int_eq status.ended (pos (ended_number ended))
        && int_eq status.outcome (pos (ended_outcome ended))) }
{
    is_number(status.ended, u64::from(ended_number(ended)))
        && is_number(status.outcome, u64::from(ended_outcome(ended)))
}

// How many attempts are live.
fn live_count(state: &State) -> u64
    ensures { result ≡ length state.now.live }
{
    state.live().len() as u64
}

// Whether the status tells of what is live, and of the attempt that ended last.
fn agrees_on_live(status: Status, state: &State) -> bool
    ensures { result ≡ (int_eq status.live (pos (length state.now.live))
        && (int_eq status.ended (pos (ended_number state.now.ended))
        && int_eq status.outcome (pos (ended_outcome state.now.ended)))) }
{
    is_number(status.live, live_count(state)) && agrees_at_end(status, state.ended())
}

/// Whether the status tells of this state, as far as a status tells of one.
pub fn agrees(status: Status, state: &State) -> bool
    ensures { result ≡ alarms.agrees status state.now }
{
    is_number(status.last, u64::from(state.last_seq()))
        && is_place(status.place, state.show().place())
        && agrees_on_live(status, state)
}

/// Since when a disagreement lasts that there is or is not at this moment.
pub fn differs_with(differs: bool, at: u64, old: Option<u64>) -> Option<u64>
    ensures { result ≡ alarms.lasting differs at old }
{
    if !differs {
        return None;
    }
    match old {
        Some(since) => Some(since),
        None => Some(at),
    }
}

// Whether the stamp of what the relay wrote is this one.
fn has_stamp(now: u64, status: &Option<relay::Status>) -> bool
    ensures { result ≡ network.has_stamp now status.now }
{
    match status {
        Some(status) => status.now == now,
        None => false,
    }
}

/// Since when the relay has written nothing new, once it has written this at this moment.
pub fn stamped_with(status: &relay::Status, at: u64, old: &Option<Relayed>) -> u64
    ensures { result ≡ network.stamped_by status.entry.now.now at old.now }
{
    match old {
        Some(old) => {
            if has_stamp(status.now, &old.status) {
                old.since
            } else {
                at
            }
        }
        None => at,
    }
}
