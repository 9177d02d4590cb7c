// How an engine comes to be: over a store that is formed, or over one that is recovered.
ghost use Rattle.std.specs.Prelude.{◌≡◌, ◌↔◌, false, IfOk};
ghost use Rattle.cue_snap.specs.Pair.{AfterBarrier};
ghost use Rattle.cue_snap.specs.Disks.{Keeps};
ghost use Rattle.cue_snap.specs.Observed.{first_after, second_after, fault_of};
ghost use Rattle.cue_core.specs.Batches.{closed_state};
ghost use Rattle.cue_keeper.specs.Pairs.{LeavesPairsAtEachMoment};
ghost use Rattle.cue_keeper.specs.Stands.{StandsEither, StandsAs};
ghost use Rattle.cue_keeper.specs.Observed as kept;
ghost use Rattle.cue_keeper.specs.Opening.{FormsStore};
ghost use Rattle.cue_engine.specs.Recovery.{ClosedFrom, IsLeftOrStands};
ghost use Rattle.cue_engine.specs.Observed.{state_of, first_of, second_of};
ghost use Rattle.cue_engine.specs.Opening.{IsNew, IsRecovered, RefusesRecovery};
ghost use Rattle.cue_engine.specs.Opening.{IsClosedFrom, IsOfCancels, RefusesCancels};

use super::Engine;
use crate::drafts::Draft;
use crate::recovering::close_undecided;
use cue_disk::Disk;
use cue_keeper::{Fault, Keeper, StoreFault};
use cue_outbox::Queue;
use std::alloc::Global;

impl<D: Disk> Engine<D> {
    /// Forms a store on two disks without areas: no device, no cue, nothing owed. What is called later takes its
    /// memory from this allocator. A refusal hands both disks back.
    pub fn form(alloc: Global, first: D, second: D) -> Result<Engine<D>, (StoreFault, D, D)>
        ensures forms { FormsStore D.Disk first second (first_after first_of result) (second_after second_of result)
            (fault_of result) }
        ensures first { IfOk result IsNew }
    {
        match Keeper::form(alloc, first, second) {
            Ok(keeper) => Ok(Engine {
                alloc,
                keeper,
                draft: Draft::new(alloc),
                spare: Draft::new(alloc),
                offered: None,
                queue: Queue::new(alloc),
            }),
            Err(refused) => Err(refused),
        }
    }

    /// Recovers a show from two disks, as after power loss: each attempt that was undecided is cancelled, and all
    /// that is pending is owed again. A refusal hands both disks back, and the call may be made again.
    pub fn recover(alloc: Global, first: D, second: D) -> Result<Engine<D>, (StoreFault, D, D)>
        // The state was closed from one that stood there, and stays; what is pending in it is owed.
        ensures stood { D.is_honest first → D.is_honest second
            → IfOk result (λ engine. ClosedFrom (D.held first).bytes (D.held second).bytes (state_of engine)) }
        ensures stands { D.is_honest first → D.is_honest second
            → IfOk result (λ engine. StandsAs (D.held (first_of engine)) (D.held (second_of engine))
            (state_of engine)) }
        ensures recovered { IfOk result (IsRecovered first second) }
        // Each refusal has its reason.
        ensures refused { RefusesRecovery D.Disk first_of second_of first second result }
        // Up to the barrier a stop leaves what one at entry might have left, from then on what stands for such a
        // state or for that state closed.
        ensures any_moment { D.is_honest first → D.is_honest second
            → AfterBarrier D.moment D.held_at first second (first_after first_of result) (second_after second_of result)
            (IsLeftOrStands (D.held first) (D.held second)) }
        ensures keeps { Keeps D.Disk first (first_after first_of result)
            × Keeps D.Disk second (second_after second_of result) }
    {
        match Keeper::open(alloc, first, second) {
            Ok(keeper) => close_opened(alloc, keeper),
            Err(refused) => Err(refused),
        }
    }
}

// Closes the state that was opened.
#[tactic(auto, unfolding(cue_core::specs::Batches::closed_state))]
fn close_opened<D: Disk>(alloc: Global, keeper: Keeper<D>) -> Result<Engine<D>, (StoreFault, D, D)>
    requires works { kept.is_broken keeper ≡ false }
    ensures closed { IfOk result (IsClosedFrom keeper) }
    ensures stands { D.is_honest (kept.first_of keeper) → D.is_honest (kept.second_of keeper)
        → IfOk result (λ engine. StandsAs (D.held (first_of engine)) (D.held (second_of engine)) (state_of engine)) }
    ensures refused { RefusesCancels D.Disk first_of second_of (kept.first_of keeper) (kept.second_of keeper) result }
    ensures any_moment { D.is_honest (kept.first_of keeper) → D.is_honest (kept.second_of keeper)
        → LeavesPairsAtEachMoment D.moment D.held_at (kept.first_of keeper) (kept.second_of keeper)
        (first_after first_of result) (second_after second_of result)
        (StandsEither (kept.state_of keeper) (closed_state (kept.state_of keeper))) }
    ensures keeps { Keeps D.Disk (kept.first_of keeper) (first_after first_of result)
        × Keeps D.Disk (kept.second_of keeper) (second_after second_of result) }
{
    // Called for its clause that a keeper that is not broken stands for its state.
    let _broken = keeper.is_broken();
    let mut keeper = keeper;
    let mut draft = Draft::new(alloc);
    match close_undecided(alloc, &mut keeper, &mut draft) {
        Ok(queue) => Ok(Engine {
            alloc,
            keeper,
            draft,
            spare: Draft::new(alloc),
            offered: None,
            queue,
        }),
        Err(fault) => {
            drop(draft);
            let (first, second) = keeper.close();
            Err((store_fault(fault), first, second))
        }
    }
}

// Why the cancels are not accepted, as a fault of the store.
fn store_fault(fault: Fault) -> StoreFault
    requires works { fault ≡ Fault.Broken → ⊥ }
    requires room { fault ≡ Fault.Full → ⊥ }
    ensures memory { (result ≡ StoreFault.Memory) ↔ (fault ≡ Fault.Memory) }
    ensures exhausted { (result ≡ StoreFault.Exhausted) ↔ (fault ≡ Fault.Exhausted) }
    ensures disk { (result ≡ StoreFault.Disk) ↔ (fault ≡ Fault.Disk) }
    ensures no_other { IsOfCancels result }
{
    match fault {
        Fault::Broken | Fault::Full => unreachable!(),
        Fault::Memory => StoreFault::Memory,
        Fault::Exhausted => StoreFault::Exhausted,
        Fault::Disk => StoreFault::Disk,
    }
}
