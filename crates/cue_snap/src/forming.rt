// How a pair comes to be: both disks are looked at and synced, and then the first one gets an area.
ghost use Rattle.std.specs.Prelude.{◌≡◌, ◌<◌, ◌+◌, ◌↔◌, false, length, IfOk, OnOk, IsErrOf};
ghost use Rattle.cue_disk.specs.Disk.{LeavesAtEachMoment, IsStable, CountsFailure, overwritten_bytes};
ghost use Rattle.cue_log.specs.Area.{fresh, formed_text};
ghost use Rattle.cue_log.specs.Log.{IsNoneOr, LeavesAbsent, ReadsAs};
ghost use Rattle.cue_log.specs.Observed.{disk_of, disk_after, generation_of, end_of, count_of, is_broken, area_of};
ghost use Rattle.cue_log.specs.declared.area.TheConstants.{MAX_AREA, HEAD_LEN};
ghost use Rattle.cue_snap.specs.Disks.{OnlySyncs, SomeFailed};
ghost use Rattle.cue_snap.specs.Pair.{NeitherHas, SomeIsThere};

use cue_disk::{Disk, DiskFault};
use cue_log::{Log, close, is_absent};
use thiserror::Error;

/// Why a pair is not formed.
#[derive(Clone, Copy, Debug, PartialEq, Eq, Error)]
pub enum FormFault {
    /// A disk has an area, or a damaged one. Nothing was written.
    #[error("a disk has an area already")]
    NotEmpty,
    /// A device call failed.
    #[error("the disk failed")]
    Disk,
}

impl From<DiskFault> for FormFault {
    ghost use Rattle.std.specs.Prelude.{◌≡◌};
    ghost use Rattle.cue_snap.specs.declared.forming.FormFault.TheVariants.{Disk};

    ghost from_gives = { λ _ fault. fault ≡ Disk };

    fn from(_: DiskFault) -> FormFault {
        FormFault::Disk
    }
}

/// The generation of a first area.
const FIRST: u64 = 1;

/// Syncs both disks, and says whether neither has an area.
pub(crate) fn look<D: Disk>(first: &mut D, second: &mut D) -> Result<(), FormFault>
    ensures empty { D.is_honest first.old → D.is_honest second.old
        → OnOk result (NeitherHas (D.held first.old).bytes (D.held second.old).bytes) }
    ensures not_empty { D.is_honest first.old → D.is_honest second.old → IsErrOf result FormFault.NotEmpty
        → SomeIsThere (D.held first.old).bytes (D.held second.old).bytes }
    ensures failed { IsErrOf result FormFault.Disk → SomeFailed D.Disk first.old second.old first.new second.new }
    ensures first_synced { D.is_honest first.old → IsErrOf result FormFault.NotEmpty → IsStable (D.held first.new) }
    ensures second_synced { D.is_honest second.old → IsErrOf result FormFault.NotEmpty
        → IsStable (D.held second.new) }
    ensures first_stays { D.is_honest first.old → OnOk result (LeavesAbsent (D.held first.new)) }
    ensures second_stays { D.is_honest second.old → OnOk result (LeavesAbsent (D.held second.new)) }
    ensures first { OnlySyncs D.Disk first.old first.new }
    ensures second { OnlySyncs D.Disk second.old second.new }
{
    let first_is_absent = is_absent(first)?;
    let second_is_absent = is_absent(second)?;
    if !first_is_absent {
        return Err(FormFault::NotEmpty);
    }
    if !second_is_absent {
        return Err(FormFault::NotEmpty);
    }
    Ok(())
}

/// Forms a first area on a disk without one.
pub(crate) fn form_first<D: Disk>(disk: D, snapshot: &[u8]) -> Result<Log<D>, (DiskFault, D)>
    requires room { HEAD_LEN + length snapshot.now < MAX_AREA }
    requires absent { D.is_honest disk → LeavesAbsent (D.held disk) }
    ensures formed { D.is_honest disk → IfOk result (λ log. ReadsAs (D.held (disk_of log)) (fresh 1 snapshot.now)) }
    ensures area { D.is_honest disk → IfOk result (λ log. area_of D.held log ≡ fresh 1 snapshot.now) }
    ensures bytes { D.is_honest disk → IfOk result (λ log. (D.held (disk_of log)).bytes
        ≡ overwritten_bytes (D.held disk).bytes 0 (formed_text 1 snapshot.now)) }
    ensures numbers { IfOk result (λ log. (generation_of log ≡ 1) × (count_of log ≡ 0)
        × (end_of log ≡ HEAD_LEN + length snapshot.now)) }
    ensures works { IfOk result (λ log. is_broken log ≡ false) }
    ensures any_moment { D.is_honest disk → LeavesAtEachMoment D.moment D.held_at disk (disk_after disk_of result)
        (IsNoneOr (fresh 1 snapshot.now)) }
    ensures count { CountsFailure result (D.failures disk) (D.failures (disk_after disk_of result)) }
    ensures honest { D.is_honest (disk_after disk_of result) ↔ D.is_honest disk }
{
    let mut disk = disk;
    match close(&mut disk) {
        Err(fault) => Err((fault, disk)),
        Ok(()) => Log::form(disk, FIRST, snapshot),
    }
}
