// A disk in memory, for tests and for runs that need no file: it can be set to fail, and it shows what a crash leaves.
ghost use Rattle.std.specs.Prelude.{◌≡◌};

mod calls;

use crate::medium::Medium;
use crate::plan::Plan;
use std::alloc::{AllocError, Global};

/// A disk in memory. It is honest: a crash of it leaves what the contract of `Disk` allows, and all of that.
///
/// It keeps what each write and each sync replaced, so that it knows what it held at every moment.
#[derive(Drop)]
pub struct MemDisk {
    medium: Medium,
    plan: Plan,
    calls: u64,
    failures: u64,
    // the last call found no memory
    lacked_memory: bool,
}

impl MemDisk {
    ghost use Rattle.std.specs.Prelude.{[], Some, IfOk};
    ghost use Rattle.cue_disk.specs.Crash.{IsCrashed, ReachesAllImages};
    ghost use Rattle.cue_disk.specs.Disk.{IsImage};
    ghost use Rattle.cue_disk.specs.Plan.{no_plan, FailsAt, StopsAt};
    ghost use Rattle.cue_disk.specs.Memory.{
      memory_held,
      memory_bytes,
      memory_calls,
      memory_failures,
      memory_plan,
      IsNew,
      IsSameButPlan,
    };

    /// An empty disk.
    pub fn new(alloc: Global) -> MemDisk
        ensures { IsNew [] result }
    {
        MemDisk::over(Medium::of(alloc, Vec::new(alloc)))
    }

    /// A disk with these bytes, all of them stable.
    pub fn from_bytes(alloc: Global, bytes: &[u8]) -> Result<MemDisk, AllocError>
        ensures { IfOk result (IsNew bytes.now) }
    {
        let bytes = Vec::from_slice(alloc, bytes)?;
        Ok(MemDisk::over(Medium::of(alloc, bytes)))
    }

    // A disk over a medium, on which no call was made.
    fn over(medium: Medium) -> MemDisk
        ensures medium { result.medium ≡ medium }
        ensures calls { memory_calls result ≡ 0 }
        ensures failures { memory_failures result ≡ 0 }
        ensures plan { memory_plan result ≡ no_plan }
    {
        MemDisk {
            medium,
            plan: Plan::none(),
            calls: 0,
            failures: 0,
            lacked_memory: false,
        }
    }

    /// The bytes that a read gives now. It is no call of the device.
    pub fn bytes(&self) -> &[u8]
        ensures { result.now ≡ memory_bytes self.now }
    {
        self.medium.bytes()
    }

    /// The number of device calls so far: `len`, `read_at`, `write_at` and `sync`, whether they failed or not. It stops
    /// at `u64::MAX`.
    pub fn calls(&self) -> u64
        ensures { result ≡ memory_calls self.now }
    {
        self.calls
    }

    /// Lets the k-th device call from now fail, in place of the one that an earlier `fail_at` named. A write that fails
    /// stores the first half of its bytes, rounded down. With `k = 0` no call is to fail.
    pub fn fail_at(&mut self, k: u64)
        ensures plan { memory_plan self.new ≡ record (memory_plan self.old) { fail_in = k } }
        ensures fails { FailsAt k (memory_plan self.new) }
        ensures same { IsSameButPlan self.old self.new }
    {
        self.plan.fail_in = k;
    }

    /// Lets the k-th device call from now and all later ones fail, in place of what an earlier `stop_at` said. A write
    /// that is the k-th stores the first half of its bytes, rounded down; later calls change nothing. With `k = 0` the
    /// disk has stopped.
    pub fn stop_at(&mut self, k: u64)
        ensures plan { memory_plan self.new ≡ record (memory_plan self.old) { stop_in = Some k } }
        ensures stops { StopsAt k (memory_plan self.new) }
        ensures same { IsSameButPlan self.old self.new }
    {
        self.plan.stop_in = Some(k);
    }

    /// The disk that a crash now leaves, as a new one. Its length is the synced one and `extra`, at most the present
    /// one. The k-th byte that the crash may change, in rising order, is `junk[k]`; if `junk` is shorter it is as it
    /// was. Some `extra` and `junk` make each image that there is.
    pub fn crash(&self, extra: u64, junk: &[u8]) -> Result<MemDisk, AllocError>
        ensures image { IfOk result (λ disk. IsImage (memory_held self.now) (memory_bytes disk)) }
        ensures crashed { IfOk result (λ disk. IsCrashed (memory_held self.now) extra junk.now (memory_bytes disk)) }
        ensures fresh { IfOk result (λ disk. IsNew (memory_bytes disk) disk) }
        ensures every { ReachesAllImages (memory_held self.now) }
    {
        let bytes = self.medium.crashed(extra, junk)?;
        Ok(MemDisk::over(Medium::of(self.medium.alloc(), bytes)))
    }
}
