// The device calls of a memory disk.
ghost use Rattle.std.specs.Prelude.{◌≡◌, ◌≤◌, ◌+◌, ◌&&◌, ℕ, not, List, length, is_ok, is_err, take, drop, OnErr, IfOk};
ghost use Rattle.std.specs.Prelude.{OnOk};
ghost use Rattle.cue_disk.specs.Disk.{IsImage, IsStable, Writes, AllTouched, overwritten_bytes, Elapses, CountsFailure};
ghost use Rattle.cue_disk.specs.Memory.{
  memory_held,
  memory_moment,
  memory_held_at,
  memory_failures,
  memory_plan,
  lacked_memory,
  IsCounted,
  GoesAsPlanned,
  GoesWithMemory,
  IsBegun,
  IsEnded,
};
ghost use Rattle.cue_disk.specs.Effect.{written_as, synced_as};
ghost use Rattle.cue_disk.specs.Plan.{outcome_of, goes_through};

use crate::disk::{Disk, DiskFault};
use crate::memory::MemDisk;
use crate::plan::CallOutcome;
use std::alloc::AllocError;

impl MemDisk {
    // Counts a call, and says what is planned for it.
    fn begin(&mut self) -> CallOutcome
        ensures outcome { result ≡ outcome_of (memory_plan self.old) 1 }
        ensures begun { IsBegun self.old self.new }
    {
        let outcome = self.plan.next();
        self.plan.count();
        self.calls = self.calls.saturating_add(1);
        outcome
    }

    // What a call answers that was planned to end so and that did its work, or found no memory for it.
    fn end(&mut self, outcome: CallOutcome, done: Result<(), AllocError>) -> Result<(), DiskFault>
        ensures ended { IsEnded self.old self.new }
        ensures lacked { lacked_memory self.new ≡ is_err done }
        ensures succeeds { is_ok result ≡ (goes_through outcome && not (is_err done)) }
        ensures count { CountsFailure result (memory_failures self.old) (memory_failures self.new) }
    {
        self.lacked_memory = done.is_err();
        if outcome == CallOutcome::Succeeds && done.is_ok() {
            return Ok(());
        }
        self.failures = self.failures.saturating_add(1);
        Err(DiskFault)
    }

    // A call that changes nothing of what the disk holds.
    fn look(&mut self) -> Result<(), DiskFault>
        ensures same { self.new.medium ≡ self.old.medium }
        ensures counted { IsCounted self.old self.new }
        ensures succeeds { GoesAsPlanned result self.old }
        ensures count { CountsFailure result (memory_failures self.old) (memory_failures self.new) }
    {
        let outcome = self.begin();
        self.end(outcome, Ok(()))
    }
}

impl Disk for MemDisk {
    ghost use Rattle.cue_disk.specs.MediumLaws.{held_now, reads_as_image};

    ghost held = { memory_held };

    ghost moment = { memory_moment };

    ghost held_at = { memory_held_at };

    ghost failures = { memory_failures };

    ghost is_honest = { λ _. Unit {0} };

    fn len(&mut self) -> Result<u64, DiskFault>
        ensures len { IfOk result (λ len. len ≡ length (memory_held self.old).bytes) }
        ensures same { memory_held self.new ≡ memory_held self.old }
        ensures time { Elapses (memory_moment self.old) (memory_moment self.new)
            (memory_held_at self.old) (memory_held_at self.new) (memory_held self.new) }
        ensures count { CountsFailure result (memory_failures self.old) (memory_failures self.new) }
        ensures counted { IsCounted self.old self.new }
        ensures succeeds { GoesAsPlanned result self.old }
    {
        self.look()?;
        Ok(self.medium.bytes().len() as u64)
    }

    fn read_at(&mut self, at: u64, buf: &mut [u8]) -> Result<(), DiskFault>
        requires { at + length buf.old ≤ length (memory_held self.old).bytes }
        ensures read { OnOk result (buf.new ≡ take (length buf.old) (drop at (memory_held self.old).bytes)) }
        ensures same { memory_held self.new ≡ memory_held self.old }
        ensures time { Elapses (memory_moment self.old) (memory_moment self.new)
            (memory_held_at self.old) (memory_held_at self.new) (memory_held self.new) }
        ensures count { CountsFailure result (memory_failures self.old) (memory_failures self.new) }
        ensures counted { IsCounted self.old self.new }
        ensures succeeds { GoesAsPlanned result self.old }
        ensures unread { OnErr result (buf.new ≡ buf.old) }
    {
        self.look()?;
        self.medium.read(at as usize, buf);
        Ok(())
    }

    fn write_at(&mut self, at: u64, bytes: &[u8]) -> Result<(), DiskFault>
        requires { at ≤ length (memory_held self.old).bytes }
        ensures written { OnOk result ((memory_held self.new).bytes
            ≡ overwritten_bytes (memory_held self.old).bytes at bytes.now) }
        ensures touched { OnOk result (AllTouched at (length bytes.now) (memory_held self.new)) }
        ensures crash { Writes at (length bytes.now) (memory_held self.old) (memory_held self.new) }
        ensures time { Elapses (memory_moment self.old) (memory_moment self.new)
            (memory_held_at self.old) (memory_held_at self.new) (memory_held self.new) }
        ensures count { CountsFailure result (memory_failures self.old) (memory_failures self.new) }
        ensures counted { IsCounted self.old self.new }
        ensures succeeds { GoesWithMemory result self.old self.new }
        ensures stored { memory_held self.new ≡ written_as (outcome_of (memory_plan self.old) 1)
            (lacked_memory self.new) at bytes.now (memory_held self.old) }
    {
        let outcome = self.begin();
        let done = self.medium.write_as(outcome, at as usize, bytes);
        self.end(outcome, done)
    }

    fn sync(&mut self) -> Result<(), DiskFault>
        ensures stable { OnOk result (IsStable (memory_held self.new)) }
        ensures bytes { (memory_held self.new).bytes ≡ (memory_held self.old).bytes }
        ensures crash { (image : List ℕ) → IsImage (memory_held self.new) image → IsImage (memory_held self.old) image }
        ensures time { Elapses (memory_moment self.old) (memory_moment self.new)
            (memory_held_at self.old) (memory_held_at self.new) (memory_held self.new) }
        ensures count { CountsFailure result (memory_failures self.old) (memory_failures self.new) }
        ensures counted { IsCounted self.old self.new }
        ensures succeeds { GoesWithMemory result self.old self.new }
        ensures stored { memory_held self.new ≡ synced_as (outcome_of (memory_plan self.old) 1) (lacked_memory self.new)
            (memory_held self.old) }
    {
        let outcome = self.begin();
        let done = self.medium.sync_as(outcome);
        self.end(outcome, done)
    }

    ghost held_now = { λ disk _. held_now disk.medium };

    ghost reads_as_image = { λ disk _. reads_as_image disk.medium };
}
