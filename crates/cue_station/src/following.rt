//! The cue that is next.
ghost use Rattle.std.specs.Prelude.{◌≡◌, count_by};
ghost use Rattle.std.specs.List.{list_any};
ghost use Rattle.cue_core.specs.Events.{is_start};
ghost use Rattle.cue_desk.specs.Board.{gave_last, is_giving};
ghost use Rattle.cue_station.specs.Following.{first_or_none, has_given, is_go, next_in, next_without, tells_all};
ghost use Rattle.cue_show.specs.Show.{first_cue};

use crate::heard::Copied;
use cue_core::{Event, State};
use cue_exchange::Outcome;
use cue_show::Show;
use cue_view::view::Next;

// Whether an attempt starts.
fn is_start(event: &Event) -> bool
    ensures { result ≡ is_start event.now }
{
    match event {
        Event::Start(_, _, _) => true,
        Event::Device(_, _) | Event::NoDevice(_) | Event::Cue(_, _) => false,
        Event::NoCue(_) | Event::Place(_) | Event::Ready(_, _) | Event::Go(_) => false,
        Event::Done(_, _) | Event::Cancel(_, _) | Event::LetGo(_, _) => false,
        Event::Failed(_, _) | Event::Excuse(_, _) => false,
    }
}

// Whether a cue is given.
fn is_go(event: &Event) -> bool
    ensures { result ≡ is_go event.now }
{
    matches!(event, Event::Go(_))
}

// Whether an attempt is decided.
fn is_giving(state: &State) -> bool
    ensures { result ≡ is_giving state.now.live }
{
    let live = state.live().as_slice();
    live.iter().any(|attempt| attempt.stage.is_decided())
}

// Whether the attempt that ended last was given.
fn gave_last(state: &State) -> bool
    ensures { result ≡ gave_last state.now.ended }
{
    match state.ended() {
        Some(ended) => match ended.outcome {
            Outcome::Complete | Outcome::Failed => true,
            Outcome::Cancelled => false,
        },
        None => false,
    }
}

// Whether an event says that a cue was given.
fn tells_go(events: &[Event]) -> bool
    ensures { result ≡ list_any is_go events.now }
{
    events.iter().any(|event| is_go(event))
}

// How many attempts started among the events.
fn count_starts(events: &[Event]) -> usize
    ensures { result ≡ count_by is_start events.now }
{
    events.iter().filter(|event| is_start(event)).count()
}

// Whether a cue was given, as far as the copy tells.
fn has_given(copy: &Copied) -> bool
    ensures { result ≡ has_given copy.now }
{
    tells_go(&copy.events) || is_giving(&copy.state) || gave_last(&copy.state)
}

// Whether each attempt that there ever was started among the events.
fn tells_all(copy: &Copied) -> bool
    ensures { result ≡ tells_all copy.now }
{
    count_starts(&copy.events) == copy.state.last_seq() as usize
}

// The first cue of the stack.
fn first_or_none(show: &Show) -> Next
    ensures { result ≡ first_or_none (first_cue show.now.cues) }
{
    match show.cues().next() {
        Some((cue, _)) => Next::Cue(*cue),
        None => Next::Empty,
    }
}

// The cue that is next, without a place.
fn next_without(copy: &Copied) -> Next
    ensures { result ≡ next_without copy.now }
{
    if has_given(copy) {
        Next::End
    } else if tells_all(copy) {
        first_or_none(copy.state.show())
    } else {
        Next::Unknown
    }
}

/// The cue that is next: that of the place. Without a place it is the first one only if no cue was ever given, and the
/// events tell of each attempt; after the last cue was given none is, whatever is cancelled then.
pub fn next_in(copy: &Copied) -> Next
    ensures { result ≡ next_in copy.now }
{
    match copy.state.show().place() {
        Some(cue) => Next::Cue(cue),
        None => next_without(copy),
    }
}
