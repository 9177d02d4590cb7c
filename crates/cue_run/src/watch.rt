//! Who looks on while a show runs.
ghost use Rattle.std.specs.Prelude.{◌≡◌, ◌∷◌, [], List, None, Option};
ghost use Rattle.cue_core.specs.declared.event.Event.{Event};
ghost use Rattle.cue_run.specs.Watching.{Saw};

use cue_core::{Event, State};
use cue_engine::{Account, Wire};

/// Looks on while a show runs: after the first hand-out, and after each input that was taken and handed out. It cannot
/// change the show, nor what is sent over a wire that reports.
pub trait Watch<W: Wire> {
    /// The events of each look, in order; None for a watch that does not report.
    ghost seen: { Self → Option (List (List Event)) };

    /// Looks at the state, at the events of the input that was taken (none at the first look), at its account, and at
    /// the wire, which may have kept what became of each datagram. If inputs are committed together, the state is the
    /// one after all of them, also at the look for the first. Whoever needs the state after each input lets its events
    /// happen to a copy. At the first look the account is that of the recovery, or of the input that was taken last.
    fn look(&mut self, state: &State, batch: &[Event], account: Option<&Account>, wire: &mut W)
        ensures told { W.told wire.new ≡ W.told wire.old }
        ensures seen { Saw (seen self.old) (batch.now ∷ []) (seen self.new) };
}

/// Nobody looks on.
#[derive(Drop)]
pub struct Unwatched;

impl<W: Wire> Watch<W> for Unwatched {
    ghost seen = { λ _. None };

    fn look(
        &mut self,
        _state: &State,
        _batch: &[Event],
        _account: Option<&Account>,
        _wire: &mut W,
    ) {}
}
