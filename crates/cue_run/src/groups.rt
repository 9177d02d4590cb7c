//! The run of a show: it takes what a source gives, and hands out what that owes. What waits together is committed
//! together, and then handed out input by input; a run of single inputs is one of groups of one.
ghost use Rattle.std.specs.Prelude.{◌≡◌, ◌≤◌, [], length, max, vec_capacity, IfOk};
ghost use Rattle.cue_engine.specs.Observed.{state_of};
ghost use Rattle.cue_engine.specs.Taking.{IsOffered};
ghost use Rattle.cue_run.specs.Grouping.{fault_of};
ghost use Rattle.cue_run.specs.Running.{Ran};
ghost use Rattle.cue_run.specs.Through.{RunsThrough};
ghost use Rattle.cue_run.specs.Watching.{Showed};
ghost use Rattle.cue_run.specs.declared.turns.TheConstants.{MAX_RECEIVED};

mod handing;
mod offering;
mod round;

use crate::turns::{Ended, MAX_RECEIVED, RunFault};
use crate::watch::{Unwatched, Watch};
use cue_disk::Disk;
use cue_engine::{Engine, Source, Wire};
use cue_keeper::Fault;
use offering::Stop;
use round::take_round;
use std::alloc::{AllocError, Global};

/// The most inputs that a served show commits together.
pub const MAX_TOGETHER: u64 = 128;

// Why a run ends after its last round: None if the source ended.
fn fault_of(stop: Stop) -> Option<RunFault>
    ensures { result ≡ fault_of stop }
{
    match stop {
        Stop::Ended => None,
        Stop::Fault(fault) => Some(fault),
    }
}

// Room for a datagram, and for a number of each input of a group.
fn places(alloc: Global, most: u64) -> Result<(Vec<u8>, Vec<usize>), AllocError>
    ensures buffer { IfOk result (λ places. length places.0.items ≡ MAX_RECEIVED) }
    ensures ends { IfOk result (λ places. vec_capacity places.1 ≡ max 1 most) }
{
    let buffer = vec![in alloc; 0u8; MAX_RECEIVED]?;
    let ends = Vec::with_capacity(alloc, most.max(1) as usize)?;
    Ok((buffer, ends))
}

// Hands out what is owed, and then takes rounds in order, of as many inputs as `ends` has room for.
fn run_rounds<D: Disk, S: Source, W: Wire, V: Watch<W>>(
    engine: &mut Engine<D>,
    source: &mut S,
    wire: &mut W,
    watch: &mut V,
    buffer: &mut [u8],
    ends: &mut Vec<usize>,
    turns: u64,
) -> Ended
    requires { 1 ≤ vec_capacity ends.old }
    ensures ran { Ran (length buffer.old) (vec_capacity ends.old) turns result engine.old engine.new
        (S.left source.old) (S.left source.new) (W.told wire.old) (W.told wire.new) }
    ensures through { RunsThrough (length buffer.old) result.turns engine.old engine.new
        (S.left source.old) (S.left source.new) (W.told wire.old) (W.told wire.new) }
    ensures dropped { IsOffered [] engine.new }
    ensures showed { Showed result.turns (V.seen watch.old) (state_of engine.old) (state_of engine.new)
        (V.seen watch.new) }
{
    engine.withdraw();
    let mut unsent = engine.hand_out(wire);
    watch.look(engine.state(), &[], engine.last_accounts().last(), wire);
    let mut taken = 0;
    while taken < turns {
        let room = (ends.capacity() as u64).min(turns - taken);
        let round = take_round(engine, source, wire, watch, buffer, ends, room);
        taken += round.turns;
        unsent = unsent.saturating_add(round.unsent);
        if let Some(stop) = round.stop {
            return Ended {
                turns: taken,
                unsent,
                fault: fault_of(stop),
            };
        }
    }
    Ended {
        turns,
        unsent,
        fault: None,
    }
}

/// Withdraws what was offered and not committed, and hands out what is owed. Then it takes at most so many inputs, in
/// groups: an input, and the datagrams that are there already, up to `most` of them and the room of the live area. A
/// group is committed with the writes and syncs of one input; then what each owes is handed out in order, and after
/// each `watch` looks. A tick is a group of its own, and so is a datagram that comes first and changes nothing: it
/// would wait for the writes of others. The run ends at its turns, if the source ends, or at the first fault; what was
/// offered before the fault is committed and handed out first. Of a group whose commit is refused nothing is handed
/// out.
pub fn run_grouped<D: Disk, S: Source, W: Wire, V: Watch<W>>(
    alloc: Global,
    engine: &mut Engine<D>,
    source: &mut S,
    wire: &mut W,
    turns: u64,
    most: u64,
    watch: &mut V,
) -> Ended
    // What was taken is what the source gave first, the state and the wire are what the definition of a run makes of
    // it, one input after the other; it ended for its reason, and the engine works on unless a device failed.
    ensures ran { Ran MAX_RECEIVED (max 1 most) turns result engine.old engine.new
        (S.left source.old) (S.left source.new) (W.told wire.old) (W.told wire.new) }
    // It goes from hand-out to commit and from commit to hand-out, in each life that has come to the engine; if its
    // disks were sound, the promise holds at each moment of them.
    ensures through { RunsThrough MAX_RECEIVED result.turns engine.old engine.new
        (S.left source.old) (S.left source.new) (W.told wire.old) (W.told wire.new) }
    // Nothing is left of what was offered before it, nor of what it offered.
    ensures dropped { IsOffered [] engine.new }
    // A watch that reports was shown events that make the state, in order: those of each input, by `hand_out_each`.
    ensures showed { Showed result.turns (V.seen watch.old) (state_of engine.old) (state_of engine.new)
        (V.seen watch.new) }
{
    match places(alloc, most) {
        Ok((mut buffer, mut ends)) => {
            run_rounds(engine, source, wire, watch, &mut buffer, &mut ends, turns)
        }
        Err(_) => {
            // Called for its clause that an engine that works stands for its state.
            let _state = engine.state();
            engine.withdraw();
            let unsent = engine.hand_out(wire);
            Ended {
                turns: 0,
                unsent,
                fault: Some(RunFault::Engine(Fault::Memory)),
            }
        }
    }
}

/// The run of `run_grouped` with each input alone: hands out what is owed, and then takes at most so many inputs,
/// handing out after each what it owes. It ends at its turns, if the source ends, or at the first fault; nothing is
/// handed out for an input that was not taken. After each input that was taken `watch` looks at the state.
pub fn run_watched<D: Disk, S: Source, W: Wire, V: Watch<W>>(
    alloc: Global,
    engine: &mut Engine<D>,
    source: &mut S,
    wire: &mut W,
    turns: u64,
    watch: &mut V,
) -> Ended
    // What was taken is what the source gave first, the state and the wire are what the definition makes of it, it
    // ended for its reason, and the engine works on unless a device failed.
    ensures ran { Ran MAX_RECEIVED 1 turns result engine.old engine.new
        (S.left source.old) (S.left source.new) (W.told wire.old) (W.told wire.new) }
    // It goes from hand-out to commit and from commit to hand-out, in each life that has come to the engine; if its
    // disks were sound, the promise holds at each moment of them.
    ensures through { RunsThrough MAX_RECEIVED result.turns engine.old engine.new
        (S.left source.old) (S.left source.new) (W.told wire.old) (W.told wire.new) }
    // A watch that reports was shown events that make the state, in order: those of each input, by `hand_out_each`.
    ensures showed { Showed result.turns (V.seen watch.old) (state_of engine.old) (state_of engine.new)
        (V.seen watch.new) }
{
    run_grouped(alloc, engine, source, wire, turns, 1, watch)
}

/// The run of `run_watched`, with nobody looking on.
pub fn run<D: Disk, S: Source, W: Wire>(
    alloc: Global,
    engine: &mut Engine<D>,
    source: &mut S,
    wire: &mut W,
    turns: u64,
) -> Ended
    // What was taken is what the source gave first, the state and the wire are what the definition makes of it, it
    // ended for its reason, and the engine works on unless a device failed.
    ensures ran { Ran MAX_RECEIVED 1 turns result engine.old engine.new
        (S.left source.old) (S.left source.new) (W.told wire.old) (W.told wire.new) }
    // It goes from hand-out to commit and from commit to hand-out, in each life that has come to the engine; if its
    // disks were sound, the promise holds at each moment of them.
    ensures through { RunsThrough MAX_RECEIVED result.turns engine.old engine.new
        (S.left source.old) (S.left source.new) (W.told wire.old) (W.told wire.new) }
{
    run_watched(alloc, engine, source, wire, turns, &mut Unwatched)
}
