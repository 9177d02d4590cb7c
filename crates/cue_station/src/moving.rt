//! The way back, after a press that moved the place.
ghost use Rattle.std.specs.Prelude.{◌≡◌};
ghost use Rattle.cue_station.specs.Moving as moving;

use crate::heard::Send;
use crate::memory::{Moved, Reading};
use cue_desk::orders::DeskCommand;
use cue_operator::CueVerb;
use cue_show::CueNo;

/// The place of the newest copy.
pub(crate) fn place_by(reading: &Option<Reading>) -> Option<CueNo>
    ensures { result ≡ moving.place_by reading.now }
{
    match reading {
        Some(reading) => reading.copy.state.show().place(),
        None => None,
    }
}

// From the place to the cue, if there is a place.
fn moved_from(place: Option<CueNo>, cue: CueNo) -> Option<Moved>
    ensures { result ≡ moving.moved_from place cue }
{
    match place {
        Some(from) => Some(Moved { from, to: cue }),
        None => None,
    }
}

// The move that the message is.
fn moved_by_verb(verb: CueVerb, place: Option<CueNo>, cue: CueNo) -> Option<Moved>
    ensures { result ≡ moving.moved_by_verb verb place cue }
{
    match verb {
        CueVerb::Goto => moved_from(place, cue),
        CueVerb::Standby | CueVerb::Go | CueVerb::Cancel | CueVerb::Remove => None,
    }
}

/// The last move, once this was sent: none if the last press was no move.
pub(crate) fn moved_by(send: &Send, place: Option<CueNo>, old: Option<Moved>) -> Option<Moved>
    ensures { result ≡ moving.moved_by_order send.now.order place old }
{
    match send.order {
        DeskCommand::Status => old,
        DeskCommand::OfCue(verb, cue) => moved_by_verb(verb, place, cue),
        DeskCommand::Release(_) | DeskCommand::RemoveDevice(_) => None,
    }
}

// Where a move came from, if this is the place where it left it.
fn back_from(moved: Moved, place: CueNo) -> Option<CueNo>
    ensures { result ≡ moving.back_from moved place }
{
    if moved.to == place && !(moved.from == moved.to) {
        Some(moved.from)
    } else {
        None
    }
}

/// The cue to which the way back leads, as long as the place is where the last press moved it.
pub(crate) fn back_by(moved: Option<Moved>, place: Option<CueNo>) -> Option<CueNo>
    ensures { result ≡ moving.back_by moved place }
{
    match (moved, place) {
        (Some(moved), Some(place)) => back_from(moved, place),
        (None, _) => None,
        (Some(_), None) => None,
    }
}
