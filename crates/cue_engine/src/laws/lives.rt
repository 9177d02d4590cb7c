//! The calls of an engine, each in the life of a store: what the promise is about is what they make.
//!
//! Each function makes the call or the calls that it is named for, and nothing else. Nobody calls them: their contracts
//! join the clauses of the calls to the promise.
ghost use Rattle.std.specs.Prelude.{ℕ, [], ◌∷◌, ◌++◌, IfOk, OnOk, OnErr};
ghost use Rattle.cue_disk.specs.Disk.{Contents};
ghost use Rattle.cue_snap.specs.Observed.{first_after, second_after, RefusedAs};
ghost use Rattle.cue_outbox.specs.Sending.{datagrams};
ghost use Rattle.cue_snap.specs.Pair.{IsUnformedOr};
ghost use Rattle.cue_keeper.specs.Stands.{first_area};
ghost use Rattle.cue_engine.specs.Taking.{IsOffered, WhateverWasOffered};
ghost use Rattle.cue_engine.specs.Observed.{state_of, queue_of, first_of, second_of};
ghost use Rattle.cue_engine.specs.Inputs.{input_view};
ghost use Rattle.cue_engine.specs.Wires.{AllHanded, AreHanded};
ghost use Rattle.cue_engine.specs.Recovery.{IsLeftOrStands, RefusedBut};
ghost use Rattle.cue_engine.specs.Incidents.{
  formed,
  stopped_in_form,
  stopped_in_commit,
  committed,
  handed_out,
  handed_some,
  stopped,
  recovered,
  stopped_in_recovery,
  refused,
};
ghost use Rattle.cue_engine.specs.Headline.{handed_in};
ghost use Rattle.cue_engine.specs.Permitted.{IsWithin};
ghost use Rattle.cue_engine.specs.Lives.{
  with_next,
  store_now,
  view_of_disks,
  view_of,
  IsSound,
  RunsWith,
  RestsWith,
  RestsUnformed,
  InEachLifeWith,
  InEachLifeAt,
  InEachLifeBefore,
  InEachLifeOn,
  IsPromisedWithin,
  RestsWithin,
  LeavesAtEachStop,
  StopsAs,
  IsGivenBack,
};

use crate::engine::Engine;
use crate::input::Input;
use crate::taken::Taken;
use crate::wire::Wire;
use cue_disk::Disk;
use cue_keeper::{Fault, StoreFault};
use std::alloc::Global;

/// `Engine::form` in the life of a store that is not formed yet: if it answers Ok it is the next incident, and
/// wherever a stop finds the disks in it, the life goes on with a store that is not formed.
pub fn form<D: Disk>(alloc: Global, first: D, second: D) -> Result<Engine<D>, (StoreFault, D, D)>
    ensures formed { InEachLifeBefore (D.held first) (D.held second)
        (λ life. IfOk result (λ engine. RunsWith (with_next life formed) (state_of engine) (queue_of engine))) }
    ensures stopped { D.is_honest first → D.is_honest second → InEachLifeBefore (D.held first) (D.held second)
        (λ life. LeavesAtEachStop (view_of_disks D.Disk first second)
        (view_of_disks D.Disk (first_after first_of result) (second_after second_of result))
        (IsUnformedOr first_area (D.held first) (D.held second))
        (λ one other. RestsUnformed (with_next life (stopped_in_form one other)) one other)) }
{
    Engine::form(alloc, first, second)
}

/// `Engine::take` in the life of a store: a commit of the one input that was taken is the next incident, one that was
/// refused is none. At any moment of the call the promise holds of whatever a crash leaves, and the life goes on at
/// rest.
pub fn take<D: Disk>(engine: &mut Engine<D>, now: u64, input: Input<'_>) -> Result<Taken, Fault>
    ensures taken { InEachLifeWith (state_of engine.old) (queue_of engine.old)
        (λ life. OnOk result (RunsWith (with_next life (committed ((now, input_view input.entry) ∷ [])))
        (state_of engine.new) (queue_of engine.new))) }
    ensures not_taken { InEachLifeWith (state_of engine.old) (queue_of engine.old)
        (λ life. OnErr result (RunsWith life (state_of engine.new) (queue_of engine.new))) }
    ensures promised { InEachLifeWith (state_of engine.old) (queue_of engine.old)
        (λ life. IsPromisedWithin (view_of engine.old) (view_of engine.new) life
        ((now, input_view input.entry) ∷ [])) }
    ensures stopped { InEachLifeWith (state_of engine.old) (queue_of engine.old)
        (λ life. RestsWithin (view_of engine.old) (view_of engine.new) life ((now, input_view input.entry) ∷ [])) }
{
    engine.take(now, input)
}

/// `Engine::offer` in the life of a store: an input that was offered is the next of those that a commit takes, and the
/// life is as it was.
pub fn offer<D: Disk>(engine: &mut Engine<D>, now: u64, input: Input<'_>) -> Result<Taken, Fault>
    ensures next { WhateverWasOffered engine.old (λ inputs. OnOk result
        (IsOffered (inputs ++ (now, input_view input.entry) ∷ []) engine.new)) }
    ensures lives { InEachLifeWith (state_of engine.old) (queue_of engine.old)
        (λ life. RunsWith life (state_of engine.new) (queue_of engine.new)) }
{
    engine.offer(now, input)
}

/// `Engine::rest` in the life of a store: what was offered stays, and the life is as it was.
pub fn rest<D: Disk>(engine: &mut Engine<D>)
    ensures same { WhateverWasOffered engine.old (λ inputs. IsOffered inputs engine.new) }
    ensures lives { InEachLifeWith (state_of engine.old) (queue_of engine.old)
        (λ life. RunsWith life (state_of engine.new) (queue_of engine.new)) }
{
    engine.rest();
}

/// `Engine::withdraw` in the life of a store: nothing is offered any more, and the life is as it was.
pub fn withdraw<D: Disk>(engine: &mut Engine<D>)
    ensures dropped { IsOffered [] engine.new }
    ensures lives { InEachLifeWith (state_of engine.old) (queue_of engine.old)
        (λ life. RunsWith life (state_of engine.new) (queue_of engine.new)) }
{
    engine.withdraw();
}

/// `Engine::commit` in the life of a store: the inputs that were offered are the next incident together, and none if
/// they were refused. At any moment of the call the promise holds of whatever a crash leaves, and the life goes on at
/// rest.
pub fn commit<D: Disk>(engine: &mut Engine<D>) -> Result<(), Fault>
    ensures taken { WhateverWasOffered engine.old (λ inputs. InEachLifeWith (state_of engine.old) (queue_of engine.old)
        (λ life. OnOk result (RunsWith (with_next life (committed inputs)) (state_of engine.new)
        (queue_of engine.new)))) }
    ensures not_taken { InEachLifeWith (state_of engine.old) (queue_of engine.old)
        (λ life. OnErr result (RunsWith life (state_of engine.new) (queue_of engine.new))) }
    ensures promised { WhateverWasOffered engine.old
        (λ inputs. InEachLifeWith (state_of engine.old) (queue_of engine.old)
        (λ life. IsPromisedWithin (view_of engine.old) (view_of engine.new) life inputs)) }
    ensures stopped { WhateverWasOffered engine.old
        (λ inputs. InEachLifeWith (state_of engine.old) (queue_of engine.old)
        (λ life. RestsWithin (view_of engine.old) (view_of engine.new) life inputs)) }
{
    engine.commit()
}

/// `Engine::hand_out` in the life of a store: it is the next incident, and what the wire reports grew by what the life
/// has as handed over in it.
pub fn hand_out<D: Disk, W: Wire>(engine: &mut Engine<D>, wire: &mut W) -> u64
    ensures handed_out { InEachLifeWith (state_of engine.old) (queue_of engine.old)
        (λ life. RunsWith (with_next life handed_out) (state_of engine.new) (queue_of engine.new)) }
    ensures handed { InEachLifeWith (state_of engine.old) (queue_of engine.old)
        (λ life. AllHanded (W.told wire.old) (datagrams (handed_in (store_now life) handed_out)) result
        (W.told wire.new)) }
{
    engine.hand_out(wire)
}

/// `Engine::hand_out_first` in the life of a store: it is the next incident, and what the wire reports grew by what the
/// life has as handed over in it.
pub fn hand_out_first<D: Disk, W: Wire>(engine: &mut Engine<D>, wire: &mut W, most: usize) -> u64
    ensures handed_some { InEachLifeWith (state_of engine.old) (queue_of engine.old)
        (λ life. RunsWith (with_next life (handed_some most)) (state_of engine.new) (queue_of engine.new)) }
    ensures handed { InEachLifeWith (state_of engine.old) (queue_of engine.old)
        (λ life. AllHanded (W.told wire.old) (datagrams (handed_in (store_now life) (handed_some most))) result
        (W.told wire.new)) }
{
    engine.hand_out_first(wire, most)
}

/// `Engine::hand_out_first` with each of these numbers in turn, and then `Engine::hand_out`, in the life of a store:
/// together they are the one incident that `hand_out` alone is, and what the wire reports grew by the same.
pub fn hand_out_in_parts<D: Disk, W: Wire>(engine: &mut Engine<D>, wire: &mut W, parts: &[usize])
    ensures handed_out { InEachLifeWith (state_of engine.old) (queue_of engine.old)
        (λ life. RunsWith (with_next life handed_out) (state_of engine.new) (queue_of engine.new)) }
    ensures handed { InEachLifeWith (state_of engine.old) (queue_of engine.old)
        (λ life. AreHanded (W.told wire.old) (datagrams (handed_in (store_now life) handed_out))
        (W.told wire.new)) }
{
    for most in parts {
        let _refused = engine.hand_out_first(wire, *most);
    }
    let _refused = engine.hand_out(wire);
}

/// A stop between two parts of a hand-out, in the life of a store: `Engine::hand_out_first` with each of these numbers
/// in turn, and no call after them. The life goes on at rest, and has as handed over what these calls handed over.
pub fn stop_in_hand_out<D: Disk, W: Wire>(
    mut engine: Engine<D>,
    wire: &mut W,
    parts: &[usize],
) -> (D, D)
    ensures stopped { IsSound (view_of engine) → InEachLifeWith (state_of engine) (queue_of engine)
        (λ life. StopsAs stopped life (D.held result.0) (D.held result.1) (W.told wire.old)
        (W.told wire.new)) }
{
    for most in parts {
        let _refused = engine.hand_out_first(wire, *most);
    }
    engine.close()
}

/// `Engine::recover` in the life of a store, also of one whose `form` was cut off: if it answers Ok it gives what is
/// promised, and is the next incident. It never calls a store that was formed unformed, damaged, of another version or
/// malformed. After any other refusal but that of a device, and wherever a stop finds the disks in it, it may be called
/// again.
pub fn recover<D: Disk>(alloc: Global, first: D, second: D) -> Result<Engine<D>, (StoreFault, D, D)>
    ensures promised { D.is_honest first → D.is_honest second → InEachLifeOn (D.held first) (D.held second)
        (λ life. IfOk result (λ engine. IsGivenBack life (state_of engine) (queue_of engine))) }
    ensures recovered { D.is_honest first → D.is_honest second → InEachLifeOn (D.held first) (D.held second)
        (λ life. IfOk result (λ engine. RunsWith (with_next life (recovered (state_of engine)))
        (state_of engine) (queue_of engine))) }
    ensures readable { D.is_honest first → D.is_honest second → InEachLifeAt (D.held first) (D.held second)
        (λ _. RefusedAs StoreFault.Unformed ⊥ result × RefusedAs StoreFault.Damaged ⊥ result
        × RefusedAs StoreFault.Version ⊥ result × RefusedAs StoreFault.Malformed ⊥ result) }
    ensures refused { D.is_honest first → D.is_honest second → InEachLifeAt (D.held first) (D.held second)
        (λ life. RefusedBut StoreFault.Disk
        (RestsWith (with_next life (refused (D.held (first_after first_of result))
        (D.held (second_after second_of result)))) (D.held (first_after first_of result))
        (D.held (second_after second_of result))) result) }
    ensures stopped { D.is_honest first → D.is_honest second → InEachLifeAt (D.held first) (D.held second)
        (λ life. LeavesAtEachStop (view_of_disks D.Disk first second)
        (view_of_disks D.Disk (first_after first_of result) (second_after second_of result))
        (IsLeftOrStands (D.held first) (D.held second))
        (λ one other. RestsWith (with_next life (stopped_in_recovery one other)) one other)) }
    // A store whose `form` was cut off stays one that is not formed.
    ensures refused_unformed { D.is_honest first → D.is_honest second
        → InEachLifeBefore (D.held first) (D.held second) (λ life. RefusedBut StoreFault.Disk
        (RestsUnformed (with_next life (refused (D.held (first_after first_of result))
        (D.held (second_after second_of result)))) (D.held (first_after first_of result))
        (D.held (second_after second_of result))) result) }
    ensures stopped_unformed { D.is_honest first → D.is_honest second
        → InEachLifeBefore (D.held first) (D.held second)
        (λ life. LeavesAtEachStop (view_of_disks D.Disk first second)
        (view_of_disks D.Disk (first_after first_of result) (second_after second_of result))
        (IsLeftOrStands (D.held first) (D.held second))
        (λ one other. RestsUnformed (with_next life (stopped_in_recovery one other)) one other)) }
{
    Engine::recover(alloc, first, second)
}

/// `Engine::close` in the life of a store: the engine stops between two calls, and n of the datagrams that it owed may
/// have been handed over. A stop that finds no call at work leaves the disks so, too.
pub fn close<D: Disk>(engine: Engine<D>) -> (D, D)
    ensures stopped { IsSound (view_of engine) → InEachLifeWith (state_of engine) (queue_of engine)
        (λ life. (n : ℕ) (one other : Contents) → IsWithin (D.held result.0) one
        → IsWithin (D.held result.1) other → RestsWith (with_next life (stopped n one other)) one other) }
{
    engine.close()
}

/// What follows a commit that was refused, as after a disk failed, in the life of a store: `Engine::hand_out` of what
/// was owed before it, and `Engine::close`. The life goes on at rest, as after a stop within the commit, and has as
/// handed over what the wire reports; then the store may be recovered.
pub fn close_after_commit<D: Disk, W: Wire>(
    mut engine: Engine<D>,
    wire: &mut W,
) -> (Result<(), Fault>, D, D)
    ensures stopped { IsSound (view_of engine) → WhateverWasOffered engine
        (λ inputs. InEachLifeWith (state_of engine) (queue_of engine)
        (λ life. OnErr result.0 (StopsAs (stopped_in_commit inputs) life (D.held result.1) (D.held result.2)
        (W.told wire.old) (W.told wire.new)))) }
{
    let kept = engine.commit();
    let _refused = engine.hand_out(wire);
    let (first, second) = engine.close();
    (kept, first, second)
}

/// The same after `Engine::take`: a commit of the one input.
pub fn close_after_take<D: Disk, W: Wire>(
    mut engine: Engine<D>,
    wire: &mut W,
    now: u64,
    input: Input<'_>,
) -> (Result<Taken, Fault>, D, D)
    ensures stopped { IsSound (view_of engine) → InEachLifeWith (state_of engine) (queue_of engine)
        (λ life. OnErr result.0 (StopsAs (stopped_in_commit ((now, input_view input.entry) ∷ [])) life
        (D.held result.1) (D.held result.2) (W.told wire.old) (W.told wire.new))) }
{
    let taken = engine.take(now, input);
    let _refused = engine.hand_out(wire);
    let (first, second) = engine.close();
    (taken, first, second)
}
