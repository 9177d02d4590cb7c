//! Whether a store is the one that the controller serves: whether its state is the one of which the status speaks.
ghost use Rattle.std.specs.Prelude.{◌≡◌, ◌++◌, IfOk, OnOk, map};
ghost use Rattle.cue_load_machine.specs.Agreeing as agreeing;

use cue_core::{Ended, State};
use cue_desk::replying::Status;
use cue_exchange::Attempt;
use cue_show::{CueNo, Show};
use std::alloc::{AllocError, Global};

// Whether the number of a status is this one.
fn is_number(said: i32, number: u32) -> bool
    ensures { result ≡ agreeing.is_number said number }
{
    i64::from(said) == i64::from(number)
}

// Whether a status names this place.
fn is_place(said: Option<CueNo>, place: Option<CueNo>) -> bool
    ensures { result ≡ agreeing.is_place said place }
{
    match (said, place) {
        (Some(said), Some(place)) => said == place,
        (Some(_), None) => false,
        (None, Some(_)) => false,
        (None, None) => true,
    }
}

// Whether a status names this attempt as the one that ended last, with this outcome.
fn is_ended(status: Status, ended: Option<Ended>) -> bool
    ensures { result ≡ agreeing.is_ended status ended }
{
    match ended {
        Some(ended) => {
            is_number(status.ended, ended.seq)
                && is_number(status.outcome, u32::from(ended.outcome.number()))
        }
        None => is_number(status.ended, 0) && is_number(status.outcome, 0),
    }
}

// How many attempts are live in a state.
fn live_in(state: &State) -> u32
    ensures { result ≡ agreeing.live_in state.now }
{
    match u32::try_from(state.live().as_slice().len()) {
        Ok(live) => live,
        Err(_) => u32::MAX,
    }
}

/// Whether the state is the one of which the controller says this.
pub fn agrees(status: Status, state: &State) -> bool
    ensures { result ≡ agreeing.agrees status state.now }
{
    is_number(status.last, state.last_seq())
        && (is_place(status.place, state.show().place())
            && (is_number(status.live, live_in(state)) && is_ended(status, state.ended())))
}

/// The show of a state, if it is the one of which the controller says this.
pub fn show_in(status: Status, state: &State) -> Result<Option<Show>, AllocError>
    ensures { IfOk result (λ show. show ≡ agreeing.show_in status state.now) }
{
    if agrees(status, state) {
        Ok(Some(state.show().try_clone()?))
    } else {
        Ok(None)
    }
}

// Puts the cues of these attempts after the others.
fn push_cues(cues: &mut Vec<CueNo>, attempts: &[Attempt]) -> Result<(), AllocError>
    ensures { OnOk result (cues.new.items ≡ cues.old.items ++ map (λ a. a.cue) attempts.now) }
{
    match attempts {
        [] => Ok(()),
        [first, rest @ ..] => {
            cues.push(first.cue)?;
            push_cues(cues, rest)
        }
    }
}

/// The cues that are live in a state, if it is the one of which the controller says this; else none.
pub fn live_cues(alloc: Global, status: Status, state: &State) -> Result<Vec<CueNo>, AllocError>
    ensures { IfOk result (λ cues. cues.items ≡ agreeing.live_cues status state.now) }
{
    let mut cues = Vec::new(alloc);
    if agrees(status, state) {
        push_cues(&mut cues, state.live().as_slice())?;
    }
    Ok(cues)
}
