// How an area comes to be: its body is on the disk, after a closed head gate, before that gate is opened.
ghost use Rattle.std.specs.Prelude.{◌≡◌, ◌<◌, ◌≤◌, ◌+◌, ◌↔◌, [], ◌∷◌, ◌++◌, length};
ghost use Rattle.std.specs.Prelude.{OnOk};
ghost use Rattle.cue_disk.specs.Disk.{LeavesAtEachMoment, CountsFailure, overwritten_bytes};
ghost use Rattle.cue_log.specs.Area.{IsAbsent, fresh, body_text, formed_text, eight_bytes, four_bytes};
ghost use Rattle.cue_log.specs.Reading.{area_in};
ghost use Rattle.cue_log.specs.Log.{IsClosed, IsShut, IsFilled, IsNoneOr, IsSettled, ReadsAs, prepared_bytes};

use crate::area::{CLOSED, HEAD_LEN, MAX_AREA, OPEN};
use cue_disk::{Disk, DiskFault};

// Writes a closed head gate if the disk is empty.
fn prepare<D: Disk>(disk: &mut D) -> Result<(), DiskFault>
    requires { D.is_honest disk.old → IsClosed (D.held disk.old) }
    ensures any_moment { D.is_honest disk.old → LeavesAtEachMoment D.moment D.held_at disk.old disk.new IsAbsent }
    ensures shut { D.is_honest disk.old → OnOk result (IsShut (D.held disk.new)) }
    ensures bytes { D.is_honest disk.old → OnOk result
        ((D.held disk.new).bytes ≡ prepared_bytes (D.held disk.old).bytes) }
    ensures count { CountsFailure result (D.failures disk.old) (D.failures disk.new) }
    ensures honest { D.is_honest disk.new ↔ D.is_honest disk.old }
{
    if disk.len()? > 0 {
        return Ok(());
    }
    disk.write_at(0, &[CLOSED])?;
    disk.sync()
}

// What stands between the head gate and the snapshot: the generation, and the snapshot's length.
#[tactic(auto, unfolding(crate::specs::Area::eight_bytes, crate::specs::Area::four_bytes))]
fn header_of(generation: u64, len: u32) -> [u8; 12]
    ensures { result ≡ eight_bytes generation ++ four_bytes len }
{
    let [g0, g1, g2, g3, g4, g5, g6, g7] = generation.to_be_bytes();
    let [l0, l1, l2, l3] = len.to_be_bytes();
    [g0, g1, g2, g3, g4, g5, g6, g7, l0, l1, l2, l3]
}

// Writes the body after the closed head gate, and a closed gate after the body.
fn fill<D: Disk>(disk: &mut D, generation: u64, snapshot: &[u8]) -> Result<(), DiskFault>
    requires room { HEAD_LEN + length snapshot.now < MAX_AREA }
    requires shut { D.is_honest disk.old → IsShut (D.held disk.old) }
    ensures any_moment { D.is_honest disk.old → LeavesAtEachMoment D.moment D.held_at disk.old disk.new IsAbsent }
    ensures filled { D.is_honest disk.old → OnOk result (IsFilled (D.held disk.new) generation snapshot.now) }
    ensures bytes { D.is_honest disk.old → OnOk result
        ((D.held disk.new).bytes ≡ overwritten_bytes (D.held disk.old).bytes 1
        (body_text generation snapshot.now ++ 0 ∷ [])) }
    ensures count { CountsFailure result (D.failures disk.old) (D.failures disk.new) }
    ensures honest { D.is_honest disk.new ↔ D.is_honest disk.old }
{
    let header = header_of(generation, snapshot.len() as u32);
    disk.write_at(1, &header)?;
    disk.write_at(HEAD_LEN, snapshot)?;
    disk.write_at(HEAD_LEN + snapshot.len() as u64, &[CLOSED])?;
    disk.sync()
}

// Opens the head gate of a body that is on the disk.
fn open_gate<D: Disk>(disk: &mut D, generation: u64, snapshot: &[u8]) -> Result<(), DiskFault>
    requires room { HEAD_LEN + length snapshot.now < MAX_AREA }
    requires filled { D.is_honest disk.old → IsFilled (D.held disk.old) generation snapshot.now }
    ensures any_moment { D.is_honest disk.old → LeavesAtEachMoment D.moment D.held_at disk.old disk.new
        (IsNoneOr (fresh generation snapshot.now)) }
    ensures settled { D.is_honest disk.old → OnOk result
        (IsSettled (D.held disk.new) (HEAD_LEN + length snapshot.now)) }
    ensures area { D.is_honest disk.old → OnOk result (area_in (D.held disk.new).bytes
        ≡ fresh generation snapshot.now) }
    ensures bytes { D.is_honest disk.old → OnOk result
        ((D.held disk.new).bytes ≡ overwritten_bytes (D.held disk.old).bytes 0 (1 ∷ [])) }
    ensures count { CountsFailure result (D.failures disk.old) (D.failures disk.new) }
    ensures honest { D.is_honest disk.new ↔ D.is_honest disk.old }
{
    disk.write_at(0, &[OPEN])?;
    disk.sync()
}

/// Forms an area on a disk that has none. It takes no memory.
pub(crate) fn form_on<D: Disk>(
    disk: &mut D,
    generation: u64,
    snapshot: &[u8],
) -> Result<(), DiskFault>
    requires room { HEAD_LEN + length snapshot.now < MAX_AREA }
    requires closed { D.is_honest disk.old → IsClosed (D.held disk.old) }
    ensures any_moment { D.is_honest disk.old → LeavesAtEachMoment D.moment D.held_at disk.old disk.new
        (IsNoneOr (fresh generation snapshot.now)) }
    ensures settled { D.is_honest disk.old → OnOk result
        (IsSettled (D.held disk.new) (HEAD_LEN + length snapshot.now)) }
    ensures area { D.is_honest disk.old → OnOk result (area_in (D.held disk.new).bytes
        ≡ fresh generation snapshot.now) }
    ensures bytes { D.is_honest disk.old → OnOk result
        ((D.held disk.new).bytes ≡ overwritten_bytes (D.held disk.old).bytes 0 (formed_text generation snapshot.now)) }
    ensures count { CountsFailure result (D.failures disk.old) (D.failures disk.new) }
    ensures honest { D.is_honest disk.new ↔ D.is_honest disk.old }
{
    prepare(disk)?;
    fill(disk, generation, snapshot)?;
    open_gate(disk, generation, snapshot)
}
