// What an area is to the device: its limits, its gates, and how its head gate is closed.
ghost use Rattle.std.specs.Prelude.{◌≡◌, ◌↔◌, IfOk, IsTrue, OnOk};
ghost use Rattle.cue_disk.specs.Disk.{LeavesAtEachMoment, CountsFailure, IsImage, IsStable};
ghost use Rattle.cue_log.specs.Area.{IsAbsent};
ghost use Rattle.cue_log.specs.Log.{IsOldOrAbsent, IsClosed, LeavesAbsent, closed_bytes};

use cue_disk::{Disk, DiskFault};

/// The longest encoding of an area, in bytes.
pub const MAX_AREA: u64 = 16_777_216;

/// The longest payload of a record, in bytes.
pub const MAX_PAYLOAD: usize = 32_768;

/// The bytes in front of the snapshot of an area: the head gate, the generation, and the snapshot's length.
pub const HEAD_LEN: u64 = 13;

/// The bytes that a record takes in front of its payload: its gate, and the payload's length.
pub const FRAME_LEN: usize = 5;

/// The byte of a gate that is open: what follows it counts.
pub(crate) const OPEN: u8 = 1;

/// The byte that closes a gate. Every byte but `OPEN` is a gate that is not open.
pub(crate) const CLOSED: u8 = 0;

/// Gives up the area of a disk, so that another can be formed there. An empty disk is left alone. On another the head
/// gate is written only if it is open. After a gate that is not open may stand a torn body, and a stop within a
/// write of that gate could open it.
pub fn close<D: Disk>(disk: &mut D) -> Result<(), DiskFault>
    // A stop at any moment leaves what one at entry might have left, or no area.
    ensures any_moment { D.is_honest disk.old → LeavesAtEachMoment D.moment D.held_at disk.old disk.new
        (IsOldOrAbsent (D.held disk.old)) }
    ensures absent { D.is_honest disk.old → OnOk result (LeavesAbsent (D.held disk.new)) }
    ensures closed { D.is_honest disk.old → OnOk result (IsClosed (D.held disk.new)) }
    ensures bytes { D.is_honest disk.old → OnOk result
        ((D.held disk.new).bytes ≡ closed_bytes (D.held disk.old).bytes) }
    ensures count { CountsFailure result (D.failures disk.old) (D.failures disk.new) }
    ensures honest { D.is_honest disk.new ↔ D.is_honest disk.old }
{
    if disk.len()? == 0 {
        return Ok(());
    }
    let mut gate = [CLOSED];
    disk.read_at(0, &mut gate)?;
    if gate[0] != OPEN {
        return disk.sync();
    }
    disk.write_at(0, &[CLOSED])?;
    disk.sync()
}

/// Whether a disk has no area, not even a damaged one. It syncs before it looks, so that what it answers holds of
/// whatever a stop leaves from then on. It writes nothing.
pub fn is_absent<D: Disk>(disk: &mut D) -> Result<bool, DiskFault>
    ensures absent { D.is_honest disk.old → IfOk result
        (λ absent. IsTrue absent ↔ IsAbsent (D.held disk.old).bytes) }
    ensures stable { D.is_honest disk.old → OnOk result (IsStable (D.held disk.new)) }
    ensures bytes { D.is_honest disk.old → (D.held disk.new).bytes ≡ (D.held disk.old).bytes }
    // A stop at any moment leaves what one at entry might have left.
    ensures any_moment { D.is_honest disk.old → LeavesAtEachMoment D.moment D.held_at disk.old disk.new
        (IsImage (D.held disk.old)) }
    ensures count { CountsFailure result (D.failures disk.old) (D.failures disk.new) }
    ensures honest { D.is_honest disk.new ↔ D.is_honest disk.old }
{
    disk.sync()?;
    if disk.len()? < 2 {
        return Ok(true);
    }
    let mut gate = [CLOSED];
    disk.read_at(0, &mut gate)?;
    Ok(gate[0] != OPEN)
}
