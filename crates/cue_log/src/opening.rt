// How an area is read: first a sync, so that what is read stays, and then from the front to the last gate.
use crate::fetching::read_area;
use crate::log::Log;
use crate::records::Records;
use crate::snapshot::Snapshot;
use cue_disk::{Disk, DiskFault};
use std::alloc::{AllocError, Global};
use thiserror::Error;

/// Why an area is not opened.
#[derive(Clone, Copy, Debug, PartialEq, Eq, Error)]
pub enum OpenFault {
    /// There is no area: the length is 0 or 1, or the head gate is not open.
    #[error("there is no area")]
    Absent,
    /// The head gate is open, and the bytes are no encoding of an area.
    #[error("the area is damaged")]
    Damaged,
    /// A device call failed.
    #[error("the disk failed")]
    Disk,
    /// Out of memory.
    #[error("out of memory")]
    Memory,
}

impl From<DiskFault> for OpenFault {
    ghost use Rattle.std.specs.Prelude.{◌≡◌};
    ghost use Rattle.cue_log.specs.declared.opening.OpenFault.TheVariants.{Disk};

    ghost from_gives = { λ _ fault. fault ≡ Disk };

    fn from(_: DiskFault) -> OpenFault {
        OpenFault::Disk
    }
}

impl From<AllocError> for OpenFault {
    ghost use Rattle.std.specs.Prelude.{◌≡◌};
    ghost use Rattle.cue_log.specs.declared.opening.OpenFault.TheVariants.{Memory};

    ghost from_gives = { λ _ fault. fault ≡ Memory };

    fn from(_: AllocError) -> OpenFault {
        OpenFault::Memory
    }
}

/// An area that was opened: the log, which goes on with it, and what it held.
#[derive(Drop)]
pub struct Opened<D: Disk> {
    pub log: Log<D>,
    pub snapshot: Snapshot,
    pub records: Records,
}

impl<D: Disk> Log<D> {
    ghost use Rattle.std.specs.Prelude.{◌≡◌, ◌≤◌, ◌↔◌, IfOk, length, false};
    ghost use Rattle.cue_disk.specs.Disk.{LeavesAtEachMoment, IsImage, MoreFailures};
    ghost use Rattle.cue_log.specs.Area.{IsArea, IsAbsent};
    ghost use Rattle.cue_log.specs.Log.{IsDamaged, LeavesAbsent, ReadsAs};
    ghost use Rattle.cue_log.specs.Observed.{disk_of, is_broken, count_of, area_of, disk_after};
    ghost use Rattle.cue_log.specs.Opened.{area_read, opened_disk, FailsAs, CountsOnlyAs};

    /// Opens the area of a disk, pending writes included: from Ok on whatever a stop leaves reads as what is answered.
    /// It writes nothing, and takes memory in proportion to the area. A refusal hands the disk back.
    pub fn open(alloc: Global, disk: D) -> Result<Opened<D>, (OpenFault, D)>
        // What is answered stood on the disk, and stays.
        ensures stood { D.is_honest disk → IfOk result (λ opened. IsArea (area_read opened) (D.held disk).bytes) }
        ensures reads { D.is_honest disk → IfOk result
            (λ opened. ReadsAs (D.held (disk_of opened.log)) (area_read opened)) }
        ensures area { D.is_honest disk → IfOk result (λ opened. area_of D.held opened.log ≡ area_read opened) }
        ensures works { IfOk result (λ opened. is_broken opened.log ≡ false) }
        ensures counted { IfOk result (λ opened. count_of opened.log ≡ length opened.records) }

        // Each refusal has its reason.
        ensures absent { D.is_honest disk → FailsAs OpenFault.Absent (IsAbsent (D.held disk).bytes) result }
        ensures stays_absent { D.is_honest disk → FailsAs OpenFault.Absent
            (LeavesAbsent (D.held (disk_after opened_disk result))) result }
        ensures damaged { D.is_honest disk → FailsAs OpenFault.Damaged (IsDamaged (D.held disk).bytes) result }
        ensures disk { FailsAs OpenFault.Disk (MoreFailures (D.failures disk)
            (D.failures (disk_after opened_disk result))) result }

        // No other answer hides a fault of the device: each call went through.
        ensures went_through { CountsOnlyAs OpenFault.Disk (D.failures disk)
            (D.failures (disk_after opened_disk result)) result }

        // A stop at any moment leaves what one at entry might have left.
        ensures any_moment { D.is_honest disk → LeavesAtEachMoment D.moment D.held_at disk
            (disk_after opened_disk result) (IsImage (D.held disk)) }
        ensures bytes { D.is_honest disk → (D.held (disk_after opened_disk result)).bytes ≡ (D.held disk).bytes }
        ensures failures { D.failures disk ≤ D.failures (disk_after opened_disk result) }
        ensures honest { D.is_honest (disk_after opened_disk result) ↔ D.is_honest disk }
    {
        let mut disk = disk;
        match read_area(alloc, &mut disk) {
            Err(fault) => Err((fault, disk)),
            Ok(parts) => {
                let count = parts.records.count();
                Ok(Opened {
                    log: Log::settled(disk, parts.generation, parts.end, count),
                    snapshot: Snapshot::from_vec(parts.snapshot),
                    records: parts.records,
                })
            }
        }
    }
}
