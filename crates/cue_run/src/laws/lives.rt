//! A run in the life of a store: what the engine's law of lives is about is what the loop makes.
//!
//! Each function makes the one call that it is named for, and nothing else. Nobody calls them: their contracts join the
//! clauses of a run to the promise.
ghost use Rattle.std.specs.Prelude.{[]};
ghost use Rattle.cue_engine.specs.Observed.{state_of, queue_of, first_of, second_of};
ghost use Rattle.cue_engine.specs.Lives.{InEachLifeWith, IsSound, view_of};
ghost use Rattle.cue_run.specs.declared.turns.TheConstants.{MAX_RECEIVED};
ghost use Rattle.cue_run.specs.Lives.{GoesThrough, EndsAtRest};
ghost use Rattle.cue_run.specs.Through.{RunsThrough, EachMomentIsSafe};

use crate::turns::Ended;
use crate::watch::Watch;
use cue_disk::Disk;
use cue_engine::{Engine, Source, Wire};
use std::alloc::Global;

/// `run_grouped` in the life of a store: it goes on with a commit and a hand-out of each input that the run took, and
/// has as handed over what the wire reports. If the source says what it has left, those inputs are what it gave first,
/// and after them it gave only what ended the run: nothing, if the run had its turns; the end, or a fault; or inputs that
/// were refused together, and at most one answer more. However the run ended, by a fault of a device too, the engine may
/// be closed then, and the store recovered: the life goes on at rest. It went in steps, from hand-out to commit and from
/// commit to hand-out. If the disks were sound, the promise holds at each moment of them within it, whatever a crash
/// leaves there: of the steps before, and of the one that is cut off.
pub fn run_grouped<D: Disk, S: Source, W: Wire, V: Watch<W>>(
    alloc: Global,
    engine: &mut Engine<D>,
    source: &mut S,
    wire: &mut W,
    turns: u64,
    most: u64,
    watch: &mut V,
) -> Ended
    ensures goes_on { InEachLifeWith (state_of engine.old) (queue_of engine.old)
        (λ life. GoesThrough MAX_RECEIVED turns result (S.left source.old) (S.left source.new) (W.told wire.old)
        (W.told wire.new) life (state_of engine.new)) }
    ensures rests { IsSound (view_of engine.old) → InEachLifeWith (state_of engine.new) []
        (λ life. EndsAtRest life (D.held (first_of engine.new)) (D.held (second_of engine.new))) }
    ensures through { RunsThrough MAX_RECEIVED result.turns engine.old engine.new
        (S.left source.old) (S.left source.new) (W.told wire.old) (W.told wire.new) }
{
    crate::groups::run_grouped(alloc, engine, source, wire, turns, most, watch)
}

/// `run` in the life of a store: the same.
pub fn run<D: Disk, S: Source, W: Wire>(
    alloc: Global,
    engine: &mut Engine<D>,
    source: &mut S,
    wire: &mut W,
    turns: u64,
) -> Ended
    ensures goes_on { InEachLifeWith (state_of engine.old) (queue_of engine.old)
        (λ life. GoesThrough MAX_RECEIVED turns result (S.left source.old) (S.left source.new) (W.told wire.old)
        (W.told wire.new) life (state_of engine.new)) }
    ensures rests { IsSound (view_of engine.old) → InEachLifeWith (state_of engine.new) []
        (λ life. EndsAtRest life (D.held (first_of engine.new)) (D.held (second_of engine.new))) }
    ensures through { RunsThrough MAX_RECEIVED result.turns engine.old engine.new
        (S.left source.old) (S.left source.new) (W.told wire.old) (W.told wire.new) }
{
    crate::groups::run(alloc, engine, source, wire, turns)
}

/// No moment of a run is left out: if its disks were sound, each moment of either lies in one of its steps, or in the
/// commit that was refused last, and the promise holds there.
pub fn each_moment_is_safe<D: Disk>()
    ensures { EachMomentIsSafe D.Disk }
{}
