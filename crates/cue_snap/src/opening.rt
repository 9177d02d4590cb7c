// How a pair is read: each disk for itself, and then the one that counts.
ghost use Rattle.std.specs.Prelude.{◌≡◌, ◌⊎◌, IfOk};
ghost use Rattle.cue_disk.specs.Disk.{MoreFailures};
ghost use Rattle.cue_log.specs.Observed.{disk_after};
ghost use Rattle.cue_snap.specs.Disks.{OnlySyncs};
ghost use Rattle.cue_snap.specs.Found.{disk_in, IsFound, FoundWorks};
ghost use Rattle.cue_snap.specs.Observed.{FailsAs, CountsOnlyAs};
ghost use Rattle.cue_snap.specs.Refusals.{found_by, open_fault};

use crate::choosing::{Found, Unfit, choose};
use crate::snap::Snap;
use cue_disk::Disk;
use cue_log::{Log, OpenFault as AreaFault, Records, Snapshot};
use std::alloc::Global;
use thiserror::Error;

/// Why a pair is not opened.
#[derive(Clone, Copy, Debug, PartialEq, Eq, Error)]
pub enum OpenFault {
    /// An area is damaged, or both have one generation.
    #[error("an area is damaged")]
    Damaged,
    /// Neither disk has an area.
    #[error("there is no area")]
    Unformed,
    /// A device call failed.
    #[error("the disk failed")]
    Disk,
    /// Out of memory.
    #[error("out of memory")]
    Memory,
}

/// A pair that was opened, and what its live area held.
#[derive(Drop)]
pub struct Opened2<D: Disk> {
    pub snap: Snap<D>,
    pub base: Snapshot,
    pub tail: Records,
}

// What a disk has. It is synced first, so that this stays.
fn find<D: Disk>(alloc: Global, disk: D) -> Result<Found<D>, (OpenFault, D)>
    ensures found { D.is_honest disk → IfOk result (IsFound D.held) }
    ensures works { IfOk result FoundWorks }
    ensures disk { FailsAs OpenFault.Disk (MoreFailures (D.failures disk)
        (D.failures (disk_after disk_in result))) result }
    ensures went_through { CountsOnlyAs OpenFault.Disk (D.failures disk)
        (D.failures (disk_after disk_in result)) result }
    ensures damaged { FailsAs OpenFault.Damaged ⊥ result }
    ensures unformed { FailsAs OpenFault.Unformed ⊥ result }
    ensures kept { OnlySyncs D.Disk disk (disk_after disk_in result) }
{
    match Log::open(alloc, disk) {
        Ok(opened) => Ok(Found::Area(opened)),
        Err((fault, disk)) => found_by(fault, disk),
    }
}

// What a disk has whose area is not opened: no area and a damaged one are no fault of the pair yet.
fn found_by<D: Disk>(fault: AreaFault, disk: D) -> Result<Found<D>, (OpenFault, D)>
    ensures table { result ≡ found_by fault disk }
    ensures disk { disk_after disk_in result ≡ disk }
    ensures works { IfOk result FoundWorks }
    ensures damaged { FailsAs OpenFault.Damaged ⊥ result }
    ensures unformed { FailsAs OpenFault.Unformed ⊥ result }
{
    match fault {
        AreaFault::Absent => Ok(Found::Absent(disk)),
        AreaFault::Damaged => Ok(Found::Damaged(disk)),
        AreaFault::Disk => Err((OpenFault::Disk, disk)),
        AreaFault::Memory => Err((OpenFault::Memory, disk)),
    }
}

// Why neither area is chosen, as a fault of the pair.
fn open_fault(unfit: Unfit) -> OpenFault
    ensures table { result ≡ open_fault unfit }
    ensures damaged { result ≡ OpenFault.Damaged → unfit ≡ Unfit.Damaged }
    ensures unformed { result ≡ OpenFault.Unformed → unfit ≡ Unfit.Unformed }
    ensures no_other { (result ≡ OpenFault.Damaged) ⊎ (result ≡ OpenFault.Unformed) }
{
    match unfit {
        Unfit::Damaged => OpenFault::Damaged,
        Unfit::Unformed => OpenFault::Unformed,
    }
}

impl<D: Disk> Snap<D> {
    ghost use Rattle.std.specs.Prelude.{◌≡◌, IfOk};
    ghost use Rattle.cue_snap.specs.Disks.{Opens};
    ghost use Rattle.cue_snap.specs.Found.{PairWorks};
    ghost use Rattle.cue_snap.specs.Observed.{live_area_of, first_after, second_after, fault_of};
    ghost use Rattle.cue_snap.specs.Opened.{live_area_read, first_opened, second_opened};
    ghost use Rattle.cue_snap.specs.Pair.{PairReads, PairLeaves};

    /// Opens a pair, pending writes included: from Ok on whatever a stop leaves reads as what is answered. It writes
    /// nothing, and takes memory in proportion to the areas. A refusal hands both disks back.
    pub fn open(alloc: Global, first: D, second: D) -> Result<Opened2<D>, (OpenFault, D, D)>
        // What is answered stood on the disks, and stays.
        ensures stood { D.is_honest first → D.is_honest second
            → IfOk result (λ opened. PairReads (live_area_read opened) (D.held first).bytes (D.held second).bytes) }
        ensures reads { D.is_honest first → D.is_honest second
            → IfOk result (λ opened. PairLeaves (D.held (first_opened opened)) (D.held (second_opened opened))
            (live_area_read opened)) }
        ensures area { D.is_honest first → D.is_honest second
            → IfOk result (λ opened. live_area_of D.held opened.snap ≡ live_area_read opened) }
        ensures works { IfOk result PairWorks }
        // Each refusal has its reason, and leaves the disks as they were.
        ensures opens { Opens D.Disk OpenFault.Damaged OpenFault.Unformed OpenFault.Disk first second
            (first_after first_opened result) (second_after second_opened result) (fault_of result) }
    {
        let first = match find(alloc, first) {
            Ok(found) => found,
            Err((fault, first)) => return Err((fault, first, second)),
        };
        match find(alloc, second) {
            Ok(second) => match choose(first, second) {
                Ok(opened) => Ok(opened),
                Err((unfit, first, second)) => Err((open_fault(unfit), first, second)),
            },
            Err((fault, second)) => Err((fault, first.into_disk(), second)),
        }
    }
}
