//! The state after each input of a run. If inputs are committed together the run shows only the one after all of
//! them.
ghost use Rattle.std.specs.Prelude.{◌≡◌, true, IfSome};
ghost use Rattle.cue_core.specs.Steps.{after, after_events};

use cue_core::{Event, State};

/// Has the state after the inputs before follow the events of one more. If none is known it becomes a copy of the state
/// that the run shows, which may be ahead of the input until its group ends; and none, if there is no memory.
pub fn follow(followed: &mut Option<State>, shown: &State, batch: &[Event])
    ensures { IfSome followed.old (λ s. IfSome followed.new (λ t. t ≡ after_events s batch.now)) }
{
    match followed {
        Some(state) => {
            if !have_applied(state, batch) {
                *followed = None;
            }
        }
        None => *followed = shown.try_clone().ok(),
    }
}

// Lets events happen to a state, in order; answers whether all have happened.
fn have_applied(state: &mut State, batch: &[Event]) -> bool
    ensures { result ≡ true → state.new ≡ after_events state.old batch.now }
{
    for event in batch {
        if !has_applied(state, event) {
            return false;
        }
    }
    true
}

// Lets an event happen to a state, if it may and there is memory for it; answers whether it happened.
fn has_applied(state: &mut State, event: &Event) -> bool
    ensures { result ≡ true → state.new ≡ after state.old event.now }
{
    state.can_apply(event) && state.apply(event).is_ok()
}
