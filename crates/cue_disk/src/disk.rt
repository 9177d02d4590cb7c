// The trait of a disk: what its calls do, and what a crash at any moment may leave.
ghost use Rattle.std.specs.Prelude.{◌≡◌, ◌≤◌, ◌+◌, ◌↔◌, ℕ, List, length, take, drop, IfOk, OnOk};
ghost use Rattle.cue_disk.specs.Disk.{
  Contents,
  IsImage,
  IsStable,
  Writes,
  AllTouched,
  overwritten_bytes,
  Elapses,
  CountsFailure,
};

use thiserror::Error;

/// The device failed. The call has no other answer for a failure.
#[derive(Clone, Copy, Debug, PartialEq, Eq, Error)]
#[error("the disk failed")]
pub struct DiskFault;

/// A disk: bytes that are written at an offset, and that a crash may change until a sync has succeeded.
///
/// What a call does, and what it asks of its caller, stands under `is_honest`: nobody knows anything of a disk
/// that lies. A caller proves its own promises under the premise that the disk is honest.
pub trait Disk {
    /// What the disk holds now.
    ghost held: { Self → Contents };

    /// The present moment, a number that does not fall. Moments stand between calls.
    ghost moment: { Self → ℕ };

    /// What the disk held at each moment up to the present one.
    ghost held_at: { Self → ℕ → Contents };

    /// How many calls have failed; it may stand at the last `u64`.
    ghost failures: { Self → ℕ };

    /// Each call keeps to this contract.
    ghost is_honest: { Self → Type 0 };

    /// The number of bytes that a read can reach.
    fn len(&mut self) -> Result<u64, DiskFault>
        ensures len { is_honest self.old → IfOk result (λ len. len ≡ length (held self.old).bytes) }
        ensures same { is_honest self.old → held self.new ≡ held self.old }
        ensures time { is_honest self.old → Elapses (moment self.old) (moment self.new)
            (held_at self.old) (held_at self.new) (held self.new) }
        ensures count { CountsFailure result (failures self.old) (failures self.new) }
        ensures honest { is_honest self.new ↔ is_honest self.old };

    /// Fills the buffer with the bytes from `at` on. After a fault the buffer may hold anything.
    fn read_at(&mut self, at: u64, buf: &mut [u8]) -> Result<(), DiskFault>
        requires { is_honest self.old → at + length buf.old ≤ length (held self.old).bytes }
        ensures read { is_honest self.old
            → OnOk result (buf.new ≡ take (length buf.old) (drop at (held self.old).bytes)) }
        ensures same { is_honest self.old → held self.new ≡ held self.old }
        ensures time { is_honest self.old → Elapses (moment self.old) (moment self.new)
            (held_at self.old) (held_at self.new) (held self.new) }
        ensures count { CountsFailure result (failures self.old) (failures self.new) }
        ensures honest { is_honest self.new ↔ is_honest self.old };

    /// Writes over what is there from `at` on, and past the end. After a fault any part of it may be there.
    fn write_at(&mut self, at: u64, bytes: &[u8]) -> Result<(), DiskFault>
        requires { is_honest self.old → at ≤ length (held self.old).bytes }
        ensures written { is_honest self.old
            → OnOk result ((held self.new).bytes ≡ overwritten_bytes (held self.old).bytes at bytes.now) }
        ensures touched { is_honest self.old → OnOk result (AllTouched at (length bytes.now) (held self.new)) }
        ensures crash { is_honest self.old → Writes at (length bytes.now) (held self.old) (held self.new) }
        ensures time { is_honest self.old → Elapses (moment self.old) (moment self.new)
            (held_at self.old) (held_at self.new) (held self.new) }
        ensures count { CountsFailure result (failures self.old) (failures self.new) }
        ensures honest { is_honest self.new ↔ is_honest self.old };

    /// After it a crash leaves what a read gives. After a fault any part of what was written may be on the disk for
    /// good, and none of it has to be.
    fn sync(&mut self) -> Result<(), DiskFault>
        ensures stable { is_honest self.old → OnOk result (IsStable (held self.new)) }
        ensures bytes { is_honest self.old → (held self.new).bytes ≡ (held self.old).bytes }
        ensures crash { is_honest self.old
            → (image : List ℕ) → IsImage (held self.new) image → IsImage (held self.old) image }
        ensures time { is_honest self.old → Elapses (moment self.old) (moment self.new)
            (held_at self.old) (held_at self.new) (held self.new) }
        ensures count { CountsFailure result (failures self.old) (failures self.new) }
        ensures honest { is_honest self.new ↔ is_honest self.old };

    /// What it holds now is what it holds at the present moment.
    ghost held_now: { (disk : Self) → is_honest disk → held_at disk (moment disk) ≡ held disk };

    /// The bytes as they are read are one of the images.
    ghost reads_as_image: { (disk : Self) → is_honest disk → IsImage (held disk) (held disk).bytes };
}
