//! Whether a store that was read is the one that the controller serves, and whether it may be replaced.
ghost use Rattle.std.specs.Prelude.{◌≡◌, IfOk};
ghost use Rattle.cue_load_words.specs.Looking as looking;

use cue_core::State;
use cue_desk::replying::Status;
use cue_load_machine::{live_cues, rests, show_in};
use cue_show::{CueNo, Show};
use std::alloc::{AllocError, Global};

/// The show of a store that was the one which the controller serves, as far as its status shows. Only `look_of` makes
/// one: whoever has it has read a store.
#[derive(Drop)]
pub struct Stored {
    show: Show,
    // How many attempts were live then.
    live: i32,
}

impl Stored {
    /// The show.
    pub fn show(&self) -> &Show
        ensures { result.now ≡ self.now.show }
    {
        &self.show
    }

    /// How many attempts were live when it was read.
    pub fn live(&self) -> i32
        ensures { result ≡ self.now.live }
    {
        self.live
    }
}

/// What a look at a store came to.
#[derive(Drop)]
pub enum Look {
    /// It is the one that the controller serves.
    Same(Stored),
    /// It is another one, or changed while it was read.
    Other,
    /// Nothing can be replaced, since these cues are live; none are known if the store is another one.
    Live(Vec<CueNo>),
}

// Whether something is live that may not be.
fn is_busy(is_to_rest: bool, status: Status) -> bool
    ensures { result ≡ looking.is_busy is_to_rest status }
{
    is_to_rest && !rests(status.live)
}

// A look at a store that may be read now.
fn look_at(status: Status, state: &State) -> Result<Look, AllocError>
    ensures { IfOk result (looking.IsReading status state.now) }
{
    let live = status.live;
    match show_in(status, state)? {
        Some(show) => Ok(Look::Same(Stored { show, live })),
        None => Ok(Look::Other),
    }
}

/// What a look came to at a store with this state, if the controller said this of the one that it serves. If it is to be
/// at rest, only a store of which nothing is live will do.
pub fn look_of(
    alloc: Global,
    is_to_rest: bool,
    status: Status,
    state: &State,
) -> Result<Look, AllocError>
    ensures { IfOk result (looking.IsLook is_to_rest status state.now) }
{
    if is_busy(is_to_rest, status) {
        Ok(Look::Live(live_cues(alloc, status, state)?))
    } else {
        look_at(status, state)
    }
}
