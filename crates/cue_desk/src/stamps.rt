//! What the system says of the files of a store without reading them, and when that says what they hold.
ghost use Rattle.std.specs.Prelude.{◌≡◌, ◌≢◌, ◌<◌, ◌≤◌, ◌+◌, ◌*◌, ◌↔◌, ℕ, IsTrue};
ghost use Rattle.std.specs.Fs.{metadata_len};
ghost use Rattle.cue_desk.specs.Readings.{Holds, IsSettled};
ghost use Rattle.cue_desk.specs.declared.stamps.Stamp.{Stamp};

use std::fs::Metadata;
use std::os::unix::fs::MetadataExt;

/// How long ago a file has to be changed, in milliseconds, so that each later change gives it another time. Most file
/// systems count time in some milliseconds, and some in two seconds; a second more is for what is cut off here.
const SETTLED: u64 = 4_000;

/// What the system says of a file.
#[derive(Clone, Copy, Debug, PartialEq, Eq)]
pub struct Stamp {
    /// Its number in its file system.
    node: u64,
    len: u64,
    /// When it was changed last: seconds since 1970, and nanoseconds after that.
    seconds: u64,
    nanos: u64,
}

/// What the system says of both files of a store.
#[derive(Clone, Copy, Debug, PartialEq, Eq)]
pub struct Stamps {
    pub first: Stamp,
    pub second: Stamp,
}

impl Stamp {
    /// What the system says of a file. A time before 1970 counts as one that is still to come.
    pub fn of(metadata: &Metadata) -> Stamp
        ensures { result.len ≡ metadata_len metadata.now }
    {
        Stamp {
            node: metadata.ino(),
            len: metadata.len(),
            seconds: u64::try_from(metadata.ctime()).unwrap_or(u64::MAX),
            nanos: u64::try_from(metadata.ctime_nsec()).unwrap_or(u64::MAX),
        }
    }

    /// Whether each change after this time, in milliseconds since 1970, gives the file another time.
    pub fn is_settled(self, now: u64) -> bool
        ensures { IsTrue result ↔ IsSettled self now }
    {
        u128::from(self.seconds) * 1_000 + u128::from(SETTLED) <= u128::from(now)
    }
}

impl Stamps {
    /// Whether what was read of files with these stamps, from a moment on, is what files with the seen stamps hold.
    pub fn holds(self, begun: u64, seen: Stamps) -> bool
        ensures { IsTrue result ↔ Holds self begun seen }
    {
        self == seen && self.first.is_settled(begun) && self.second.is_settled(begun)
    }
}

/// A law: a change after that moment gives a settled file another time, if the file system counts time in steps of
/// two seconds at most. The seconds of that change are cut off to whole ones.
pub fn later_changes_show()
    ensures { (stamp : Stamp) → (begun time seconds : ℕ) → IsSettled stamp begun → begun ≤ time
        → time < seconds * 1000 + 3000 → seconds ≢ stamp.seconds }
{}
