//! The kinds of events, each with the number that stands before its events.
ghost use Rattle.std.specs.Prelude.{◌≡◌, if◌then◌else◌};
ghost use Rattle.cue_records.specs.Batch.{event_number};
ghost use Rattle.cue_records.specs.BatchReading.{kind_of};
ghost use Rattle.cue_records.specs.Fields.{are_required};

use crate::parts_form::are_required;
use cue_core::Event;
use cue_show::Parts;

/// The kinds of events, as `Event` has them; a cue with an optional part is of a kind of its own.
#[derive(Clone, Copy, Drop)]
pub enum Kind {
    Device,
    NoDevice,
    Cue,
    NoCue,
    Place,
    Start,
    Ready,
    Go,
    Done,
    Cancel,
    LetGo,
    Failed,
    MixedCue,
    Excuse,
}

/// The kind with the number.
pub(crate) fn kind_of(number: u8) -> Option<Kind>
    ensures { result ≡ kind_of number }
{
    match number {
        1 => Some(Kind::Device),
        2 => Some(Kind::NoDevice),
        3 => Some(Kind::Cue),
        4 => Some(Kind::NoCue),
        5 => Some(Kind::Place),
        6 => Some(Kind::Start),
        7 => Some(Kind::Ready),
        8 => Some(Kind::Go),
        9 => Some(Kind::Done),
        10 => Some(Kind::Cancel),
        11 => Some(Kind::LetGo),
        12 => Some(Kind::Failed),
        13 => Some(Kind::MixedCue),
        14 => Some(Kind::Excuse),
        _ => None,
    }
}

/// The number of an event's kind.
pub(crate) fn event_number(event: &Event) -> u8
    ensures { result ≡ event_number event.now }
{
    match event {
        Event::Device(_, _) => 1,
        Event::NoDevice(_) => 2,
        Event::Cue(_, parts) => cue_number(parts),
        Event::NoCue(_) => 4,
        Event::Place(_) => 5,
        Event::Start(_, _, _) => 6,
        Event::Ready(_, _) => 7,
        Event::Go(_) => 8,
        Event::Done(_, _) => 9,
        Event::Cancel(_, _) => 10,
        Event::LetGo(_, _) => 11,
        Event::Failed(_, _) => 12,
        Event::Excuse(_, _) => 14,
    }
}

// The number of the kind of a cue with the parts.
fn cue_number(parts: &Parts) -> u8
    ensures { result ≡ (if are_required parts.now then 3 else 13) }
{
    if are_required(parts) { 3 } else { 13 }
}
