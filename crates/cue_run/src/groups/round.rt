// One round of a run by groups: one group, from its first input to its last datagram.
ghost use Rattle.std.specs.Prelude.{◌≡◌, ◌≤◌, ◌⊎◌, [], length, vec_capacity, Some};
ghost use Rattle.cue_engine.specs.Taking.{IsOffered};
ghost use Rattle.cue_engine.specs.Observed.{offered_of, queue_of, state_of};
ghost use Rattle.cue_run.specs.Grouping.{HasRound, LostGroup, TookGroup, stop_of};
ghost use Rattle.cue_run.specs.Watching.{ShowedEach};

use super::handing::take_group;
use super::offering::{Stop, offer_group};
use crate::turns::RunFault;
use crate::watch::Watch;
use cue_disk::Disk;
use cue_engine::{Engine, Source, Wire};

/// What a round came to.
#[derive(Clone, Copy)]
pub(crate) struct Round {
    /// How many inputs were taken.
    pub(crate) turns: u64,
    /// How many sends were refused; it stops at `u64::MAX`.
    pub(crate) unsent: u64,
    /// None if another round may follow.
    pub(crate) stop: Option<Stop>,
}

impl Round {
    // No input was taken.
    fn none(stop: Stop) -> Round
        ensures { result ≡ record { turns = 0; unsent = 0; stop = Some stop } }
    {
        Round {
            turns: 0,
            unsent: 0,
            stop: Some(stop),
        }
    }
}

// The fault that cut a group short ends the run.
fn stop_of(cut: Option<RunFault>) -> Option<Stop>
    ensures { result ≡ stop_of cut }
{
    match cut {
        Some(fault) => Some(Stop::Fault(fault)),
        None => None,
    }
}

// Commits the group that was offered and hands it out; then the run goes on, unless a fault had cut the group short.
fn close_round<D: Disk, W: Wire, V: Watch<W>>(
    engine: &mut Engine<D>,
    wire: &mut W,
    watch: &mut V,
    ends: &[usize],
    cut: Option<RunFault>,
) -> Round
    requires emptied { queue_of engine.old ≡ [] }
    requires some { 1 ≤ length ends.now }
    requires each { length ends.now ≡ length (offered_of engine.old) }
    ensures closed { TookGroup (length ends.now) cut result engine.old engine.new (W.told wire.old) (W.told wire.new)
        ⊎ LostGroup result engine.old engine.new (W.told wire.old) (W.told wire.new) }
    ensures emptied { queue_of engine.new ≡ [] }
    ensures dropped { IsOffered [] engine.new }
    ensures showed { ShowedEach result.turns (V.seen watch.old) (state_of engine.old) (state_of engine.new)
        (V.seen watch.new) }
{
    match take_group(engine, wire, watch, ends) {
        Ok(unsent) => Round {
            turns: ends.len() as u64,
            unsent,
            stop: stop_of(cut),
        },
        Err(fault) => Round::none(Stop::Fault(RunFault::Engine(fault))),
    }
}

/// Takes one group of at most so many inputs, after a rest. `ends` has room for as many numbers.
pub(crate) fn take_round<D: Disk, S: Source, W: Wire, V: Watch<W>>(
    engine: &mut Engine<D>,
    source: &mut S,
    wire: &mut W,
    watch: &mut V,
    buffer: &mut [u8],
    ends: &mut Vec<usize>,
    room: u64,
) -> Round
    requires emptied { queue_of engine.old ≡ [] }
    requires none { IsOffered [] engine.old }
    requires some { 1 ≤ room }
    requires room { room ≤ vec_capacity ends.old }
    ensures round { HasRound (length buffer.old) room result engine.old engine.new
        (S.left source.old) (S.left source.new) (W.told wire.old) (W.told wire.new) }
    ensures emptied { queue_of engine.new ≡ [] }
    ensures dropped { IsOffered [] engine.new }
    ensures capacity { vec_capacity ends.new ≡ vec_capacity ends.old }
    ensures showed { ShowedEach result.turns (V.seen watch.old) (state_of engine.old) (state_of engine.new)
        (V.seen watch.new) }
{
    engine.rest();
    // Called for its clause that an engine that works stands for its state.
    let _state = engine.state();
    ends.clear();
    match offer_group(engine, source, buffer, ends, room) {
        Ok(cut) => close_round(engine, wire, watch, ends, cut),
        Err(stop) => Round::none(stop),
    }
}
