//! How long events are, before they are written. A length that 64 bits do not hold counts as the most that they hold.
ghost use Rattle.std.specs.Prelude.{◌≡◌, length, min};
ghost use Rattle.std.specs.List.{flat_map};
ghost use Rattle.cue_records.specs.Batch.{body_text, event_text};

use crate::fields::{cue_len, parts_len};
use crate::parts_form::PartsForm;
use cue_core::Event;

/// How long the events are, one after the other.
pub(crate) fn events_len(events: &[Event]) -> u64
    ensures { result ≡ min (length (flat_map event_text events.now)) u64.MAX }
{
    let mut len: u64 = 0;
    for event in events {
        len = len.saturating_add(event_len(event));
    }
    len
}

fn event_len(event: &Event) -> u64
    ensures { result ≡ min (length (event_text event.now)) u64.MAX }
{
    body_len(event).saturating_add(1)
}

// How long an event is without the number of its kind.
fn body_len(event: &Event) -> u64
    ensures { result ≡ min (length (body_text event.now)) u64.MAX }
{
    match event {
        Event::Device(_, _) => 3,
        Event::NoDevice(_) => 1,
        Event::Cue(cue, parts) => {
            parts_len(PartsForm::of_parts(parts), parts).saturating_add(cue_len(*cue))
        }
        Event::NoCue(cue) => cue_len(*cue),
        Event::Place(cue) => cue_len(*cue),
        Event::Start(_, cue, _) => cue_len(*cue) + 12,
        Event::Ready(_, _) => 5,
        Event::Go(_) => 4,
        Event::Done(_, _) => 5,
        Event::Cancel(_, _) => 5,
        Event::LetGo(_, _) => 5,
        Event::Failed(_, _) => 5,
        Event::Excuse(_, _) => 5,
    }
}
