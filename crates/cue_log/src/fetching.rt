// How the encoding of an area comes from the device: from the front, until the area is there in whole.
ghost use Rattle.std.specs.Prelude.{◌≡◌, ◌⊎◌, ◌+◌, ◌<◌, ◌≤◌, ◌↔◌, ◌++◌, length};
ghost use Rattle.std.specs.Prelude.{take, drop, IsSome, IfOk, OnOk};
ghost use Rattle.std.specs.Prelude.{IsErrOf};
ghost use Rattle.cue_disk.specs.Disk.{LeavesAtEachMoment, IsImage, IsStable, MoreFailures};
ghost use Rattle.cue_log.specs.Area.{IsArea, IsAbsent, area_text};
ghost use Rattle.cue_log.specs.Reading.{area_at};
ghost use Rattle.cue_log.specs.Log.{OnlyReads, IsFront, IsDamaged, LeavesAbsent};
ghost use Rattle.cue_log.specs.Parts.{parts_area};

use crate::area::{MAX_AREA, OPEN};
use crate::opening::OpenFault;
use crate::reading::{Parts, is_whole, read_parts};
use cue_disk::Disk;
use std::alloc::Global;

// How many bytes are read at first.
const CHUNK: usize = 65_536;

// Reads some bytes more, after those that were read.
fn read_more<D: Disk>(disk: &mut D, text: &mut Vec<u8>, more: usize) -> Result<(), OpenFault>
    requires room { length text.old.items + more ≤ MAX_AREA }
    requires within { D.is_honest disk.old → length text.old.items + more ≤ length (D.held disk.old).bytes }
    ensures reads { D.is_honest disk.old → OnlyReads D.moment D.held D.held_at disk.old disk.new }
    ensures text { D.is_honest disk.old → OnOk result (text.new.items
        ≡ text.old.items ++ take more (drop (length text.old.items) (D.held disk.old).bytes)) }
    ensures len { OnOk result (length text.new.items ≡ length text.old.items + more) }
    ensures disk { IsErrOf result OpenFault.Disk → MoreFailures (D.failures disk.old) (D.failures disk.new) }
    ensures only { IsErrOf result OpenFault.Absent ⊎ IsErrOf result OpenFault.Damaged → ⊥ }
    ensures failures { D.failures disk.old ≤ D.failures disk.new }
    ensures no_other { (IsErrOf result OpenFault.Disk → ⊥) → D.failures disk.new ≡ D.failures disk.old }
    ensures honest { D.is_honest disk.new ↔ D.is_honest disk.old }
{
    let have = text.len();
    text.resize(have + more, 0)?;
    disk.read_at(have as u64, &mut text[have..])?;
    Ok(())
}

// Reads from the front until an area is there in whole, or else as much as an area may have. Each read is as long as
// those before it together, so that no more than twice the area is read.
fn read_text<D: Disk>(alloc: Global, disk: &mut D, most: usize) -> Result<Vec<u8>, OpenFault>
    requires room { most ≤ MAX_AREA }
    requires within { D.is_honest disk.old → most ≤ length (D.held disk.old).bytes }
    ensures reads { D.is_honest disk.old → OnlyReads D.moment D.held D.held_at disk.old disk.new }
    ensures text { D.is_honest disk.old → IfOk result (λ text. text.items
        ≡ take (length text.items) (D.held disk.old).bytes) }
    ensures enough { IfOk result (λ text. IsSome (area_at text.items) ⊎ (length text.items ≡ most)) }
    ensures short { IfOk result (λ text. length text.items ≤ most) }
    ensures disk { IsErrOf result OpenFault.Disk → MoreFailures (D.failures disk.old) (D.failures disk.new) }
    ensures only { IsErrOf result OpenFault.Absent ⊎ IsErrOf result OpenFault.Damaged → ⊥ }
    ensures failures { D.failures disk.old ≤ D.failures disk.new }
    ensures no_other { (IsErrOf result OpenFault.Disk → ⊥) → D.failures disk.new ≡ D.failures disk.old }
    ensures honest { D.is_honest disk.new ↔ D.is_honest disk.old }
{
    let mut text = Vec::new(alloc);
    while text.len() < most {
        let more = text.len().max(CHUNK).min(most - text.len());
        read_more(disk, &mut text, more)?;
        if is_whole(&text) {
            return Ok(text);
        }
    }
    Ok(text)
}

/// Makes the disk stable, and reads the front of it that has the area, if there is one.
pub(crate) fn fetch<D: Disk>(alloc: Global, disk: &mut D) -> Result<Vec<u8>, OpenFault>
    ensures any_moment { D.is_honest disk.old → LeavesAtEachMoment D.moment D.held_at disk.old disk.new
        (IsImage (D.held disk.old)) }
    ensures bytes { D.is_honest disk.old → (D.held disk.new).bytes ≡ (D.held disk.old).bytes }
    ensures stable { D.is_honest disk.old → OnOk result (IsStable (D.held disk.new)) }
    ensures front { D.is_honest disk.old → IfOk result (λ text. IsFront text.items (D.held disk.old).bytes) }
    ensures short { IfOk result (λ text. length text.items ≤ MAX_AREA) }
    ensures absent { D.is_honest disk.old → IsErrOf result OpenFault.Absent → IsAbsent (D.held disk.old).bytes }
    ensures stays_absent { D.is_honest disk.old → IsErrOf result OpenFault.Absent → LeavesAbsent (D.held disk.new) }
    ensures damaged { IsErrOf result OpenFault.Damaged → ⊥ }
    ensures disk { IsErrOf result OpenFault.Disk → MoreFailures (D.failures disk.old) (D.failures disk.new) }
    ensures failures { D.failures disk.old ≤ D.failures disk.new }
    ensures no_other { (IsErrOf result OpenFault.Disk → ⊥) → D.failures disk.new ≡ D.failures disk.old }
    ensures honest { D.is_honest disk.new ↔ D.is_honest disk.old }
{
    disk.sync()?;
    let len = disk.len()?;
    if len < 2 {
        return Err(OpenFault::Absent);
    }
    let mut gate = [0];
    disk.read_at(0, &mut gate)?;
    if gate[0] != OPEN {
        return Err(OpenFault::Absent);
    }
    read_text(alloc, disk, len.min(MAX_AREA) as usize)
}

/// Reads the area of a disk: what is answered stands there, and stays.
pub(crate) fn read_area<D: Disk>(alloc: Global, disk: &mut D) -> Result<Parts, OpenFault>
    ensures any_moment { D.is_honest disk.old → LeavesAtEachMoment D.moment D.held_at disk.old disk.new
        (IsImage (D.held disk.old)) }
    ensures bytes { D.is_honest disk.old → (D.held disk.new).bytes ≡ (D.held disk.old).bytes }
    ensures stable { D.is_honest disk.old → OnOk result (IsStable (D.held disk.new)) }
    ensures stood { D.is_honest disk.old → IfOk result (λ parts. IsArea (parts_area parts) (D.held disk.old).bytes) }
    ensures end { IfOk result (λ parts. parts.end ≡ length (area_text (parts_area parts))) }
    ensures within { IfOk result (λ parts. parts.end < MAX_AREA) }
    ensures few { IfOk result (λ parts. length parts.records ≤ parts.end) }
    ensures absent { D.is_honest disk.old → IsErrOf result OpenFault.Absent → IsAbsent (D.held disk.old).bytes }
    ensures stays_absent { D.is_honest disk.old → IsErrOf result OpenFault.Absent → LeavesAbsent (D.held disk.new) }
    ensures damaged { D.is_honest disk.old → IsErrOf result OpenFault.Damaged → IsDamaged (D.held disk.old).bytes }
    ensures disk { IsErrOf result OpenFault.Disk → MoreFailures (D.failures disk.old) (D.failures disk.new) }
    ensures failures { D.failures disk.old ≤ D.failures disk.new }
    ensures no_other { (IsErrOf result OpenFault.Disk → ⊥) → D.failures disk.new ≡ D.failures disk.old }
    ensures honest { D.is_honest disk.new ↔ D.is_honest disk.old }
{
    let text = fetch(alloc, disk)?;
    match read_parts(alloc, &text)? {
        Some(parts) => Ok(parts),
        None => Err(OpenFault::Damaged),
    }
}
