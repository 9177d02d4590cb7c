//! The attempts whose devices get new orders by events.
ghost use Rattle.std.specs.Prelude.{◌≡◌, ℕ, IfOk};
ghost use Rattle.std.specs.List.{filter_map};
ghost use Rattle.std.specs.List.Sorted.{IsStrictlyIncreasing};
ghost use Rattle.cue_show.specs.Devices.{is_among};
ghost use Rattle.cue_outbox.specs.Asked.{is_asked, number_asked};

use cue_core::Event;
use std::alloc::{AllocError, Global};

/// The numbers of the attempts that the events start, decide or cancel, rising, each once: those whose devices are to
/// be sent something new. What that is, `pending_of` gives on the state after the events.
pub fn numbers_asked(alloc: Global, events: &[Event]) -> Result<Vec<u32>, AllocError>
    ensures rising { IfOk result (λ numbers. IsStrictlyIncreasing numbers.items) }
    ensures exact { IfOk result (λ numbers. (q : ℕ) → is_among q numbers.items ≡ is_asked q events.now) }
{
    let mut numbers = all_asked(alloc, events)?;
    numbers.sort_unstable();
    numbers.dedup();
    Ok(numbers)
}

// The numbers in the order of the events.
fn all_asked(alloc: Global, events: &[Event]) -> Result<Vec<u32>, AllocError>
    ensures { IfOk result (λ numbers. numbers.items ≡ filter_map number_asked events.now) }
{
    events
        .iter()
        .filter_map(|event| number_asked(event))
        .collect(alloc)
}

fn number_asked(event: &Event) -> Option<u32>
    ensures { result ≡ number_asked event.now }
{
    match event {
        Event::Start(seq, _, _) | Event::Go(seq) | Event::Cancel(seq, _) => Some(*seq),
        Event::Device(_, _) | Event::NoDevice(_) => None,
        Event::Cue(_, _) | Event::NoCue(_) | Event::Place(_) => None,
        Event::Ready(_, _) | Event::Done(_, _) => None,
        Event::LetGo(_, _) | Event::Failed(_, _) | Event::Excuse(_, _) => None,
    }
}
