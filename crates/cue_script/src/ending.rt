//! How a script ends.
ghost use Rattle.std.specs.Prelude.{◌≡◌};
ghost use Rattle.cue_script.specs.Endings.{
  ending_line,
  failure_by,
  failure_line,
  failure_of,
  failure_status,
  status_of,
  store_line,
  store_status,
};

use cue_keeper::{Fault, StoreFault};
use std::io::{self, ErrorKind};

/// How a script ends.
#[derive(Clone, Copy, Debug, PartialEq, Eq)]
pub enum Ending {
    /// All lines were run.
    Done,
    /// A line is of no form. Those before it were run.
    BadLine,
    /// The script is too long. No line was run.
    BadInput,
    /// A line was not carried out. Those before it were run.
    Failed(Failure),
    /// The reader or the writer failed. What was written up to then is not known.
    Stopped(StreamFailure),
}

/// Why a line is not carried out, whatever it stands for.
#[derive(Clone, Copy, Debug, PartialEq, Eq)]
pub enum Failure {
    /// A device call failed before.
    Broken,
    /// The store refuses, a device call failed, or memory ran out.
    Store(StoreFault),
}

/// How a call of the reader or the writer fails.
#[derive(Clone, Copy, Debug, PartialEq, Eq)]
pub enum StreamFailure {
    Io,
    /// It lacked memory.
    Memory,
}

impl StreamFailure {
    /// What a call failed as.
    pub fn of(error: &io::Error) -> StreamFailure
        ensures { result ≡ failure_of error.now }
    {
        match error.kind() {
            ErrorKind::OutOfMemory => StreamFailure::Memory,
            _ => StreamFailure::Io,
        }
    }
}

impl From<Fault> for Failure {
    ghost from_gives = { λ fault failure. failure ≡ failure_by fault };

    fn from(fault: Fault) -> Failure {
        match fault {
            Fault::Broken => Failure::Broken,
            Fault::Memory => Failure::Store(StoreFault::Memory),
            Fault::Exhausted => Failure::Store(StoreFault::Exhausted),
            Fault::Full => Failure::Store(StoreFault::Full),
            Fault::Disk => Failure::Store(StoreFault::Disk),
        }
    }
}

impl Failure {
    /// The line that is printed.
    pub fn line(self) -> &'static [u8]
        ensures { result.now ≡ failure_line self }
    {
        match self {
            Failure::Broken => b"! Broken\n",
            Failure::Store(fault) => store_line(fault),
        }
    }

    /// The exit status.
    pub fn status(self) -> u8
        ensures { result ≡ failure_status self }
    {
        match self {
            Failure::Broken => 3,
            Failure::Store(fault) => store_status(fault),
        }
    }
}

impl Ending {
    /// Memory ran out.
    pub const NO_MEMORY: Ending = Ending::Failed(Failure::Store(StoreFault::Memory));

    /// The last line of the output.
    pub fn line(self) -> &'static [u8]
        ensures { result.now ≡ ending_line self }
    {
        match self {
            Ending::Done => b"",
            Ending::BadLine => b"! BadLine\n",
            Ending::BadInput => b"! BadInput\n",
            Ending::Failed(failure) => failure.line(),
            Ending::Stopped(StreamFailure::Io) => b"! Io\n",
            Ending::Stopped(StreamFailure::Memory) => b"! Memory\n",
        }
    }

    /// The exit status.
    pub fn status(self) -> u8
        ensures { result ≡ status_of self }
    {
        match self {
            Ending::Done => 0,
            Ending::BadLine | Ending::BadInput => 1,
            Ending::Failed(failure) => failure.status(),
            Ending::Stopped(_) => 3,
        }
    }
}

fn store_line(fault: StoreFault) -> &'static [u8]
    ensures { result.now ≡ store_line fault }
{
    match fault {
        StoreFault::NotEmpty => b"! NotEmpty\n",
        StoreFault::Unformed => b"! Unformed\n",
        StoreFault::Damaged => b"! Damaged\n",
        StoreFault::Version => b"! Version\n",
        StoreFault::Malformed => b"! Malformed\n",
        StoreFault::Full => b"! Full\n",
        StoreFault::Exhausted => b"! Exhausted\n",
        StoreFault::Memory => b"! Memory\n",
        StoreFault::Disk => b"! Disk\n",
    }
}

fn store_status(fault: StoreFault) -> u8
    ensures { result ≡ store_status fault }
{
    match fault {
        StoreFault::NotEmpty
        | StoreFault::Unformed
        | StoreFault::Damaged
        | StoreFault::Version
        | StoreFault::Malformed
        | StoreFault::Full
        | StoreFault::Exhausted => 1,
        StoreFault::Memory | StoreFault::Disk => 3,
    }
}
