//! The area before the one that counts. A turn-over leaves it as it was: so what its records tell is known until the
//! next one.
ghost use Rattle.std.specs.Prelude.{◌≡◌, ◌+◌, ◌↔◌, if◌then◌else◌, IfOk, IsTrue, None, Some};
ghost use Rattle.cue_log.specs.Observed.{generation_of};
ghost use Rattle.cue_copies.specs.Earlier.{IsAreaBefore, IsEarlier, area_fault};

use cue_disk::MemDisk;
use cue_keeper::StoreFault;
use cue_log::{Log, OpenFault, Opened, Records};
use std::alloc::Global;

// Why a disk in memory is not opened, as a fault of the store; none if it has no area that can be read.
fn area_fault(fault: OpenFault) -> Option<StoreFault>
    ensures { result ≡ area_fault fault }
{
    match fault {
        OpenFault::Absent | OpenFault::Damaged => None,
        OpenFault::Disk | OpenFault::Memory => Some(StoreFault::Memory),
    }
}

// Whether the area of the log is the one before this generation.
fn is_before(log: &Log<MemDisk>, generation: u64) -> bool
    ensures { IsTrue result ↔ (generation_of log.now + 1 ≡ generation) }
{
    generation.checked_sub(1) == Some(log.generation())
}

// The records, if they are of the area before.
fn if_before(records: Records, is_before: bool) -> Option<Records>
    ensures { result ≡ if is_before then Some records else None }
{
    if is_before { Some(records) } else { None }
}

// The records of the area before this generation, if these bytes read as that.
#[tactic(auto, using(crate::proofs::EarlierLemmas::before_or_none))]
fn records_before(
    alloc: Global,
    bytes: &[u8],
    generation: u64,
) -> Result<Option<Records>, StoreFault>
    ensures { IfOk result (IsAreaBefore generation bytes.now) }
{
    let Ok(disk) = MemDisk::from_bytes(alloc, bytes) else {
        return Err(StoreFault::Memory);
    };
    match Log::open(alloc, disk) {
        Ok(Opened { log, records, .. }) => {
            let is_before = is_before(&log, generation);
            Ok(if_before(records, is_before))
        }
        Err((fault, _)) => match area_fault(fault) {
            Some(fault) => Err(fault),
            None => Ok(None),
        },
    }
}

/// The records of the area before this generation, if one of the two still has that.
pub(crate) fn earlier_records(
    alloc: Global,
    first: &[u8],
    second: &[u8],
    generation: u64,
) -> Result<Option<Records>, StoreFault>
    ensures { IfOk result (IsEarlier generation first.now second.now) }
{
    match records_before(alloc, first, generation)? {
        Some(records) => Ok(Some(records)),
        None => records_before(alloc, second, generation),
    }
}
