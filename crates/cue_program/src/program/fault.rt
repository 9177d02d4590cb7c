//! Why a command was not carried out.
ghost use Rattle.std.specs.Prelude.{◌≡◌, OnOk};
ghost use Rattle.cue_program.specs.Endings.{
  done_status,
  file_fault,
  program_line,
  program_status,
  run_fault,
};
ghost use Rattle.cue_script.specs.Endings.{failure_by};
ghost use Rattle.cue_script.specs.declared.ending.Failure.TheVariants.{Store};
ghost use Rattle.cue_program.specs.declared.program.fault.ProgramFault.TheVariants.{Failed};
ghost use Rattle.cue_keeper.specs.declared.fault.StoreFault.TheVariants.{Memory};

use cue_disk::FileFault;
use cue_keeper::{Fault, StoreFault};
use cue_run::RunFault;
use cue_script::Failure;
use std::alloc::AllocError;
use std::io::Write;

/// Why a command was not carried out.
#[derive(Clone, Copy, Debug, PartialEq, Eq)]
pub enum ProgramFault {
    /// The store refuses, a device call failed, or memory ran out.
    Failed(Failure),
    /// A file of the store is missing.
    NotFound,
    /// A file was not opened or made, or the output was not written.
    Io,
    /// The port, the socket or the clock failed.
    Net,
}

impl ProgramFault {
    /// Memory ran out.
    pub const MEMORY: ProgramFault = ProgramFault::Failed(Failure::Store(StoreFault::Memory));

    /// The line that is printed.
    pub fn line(self) -> &'static [u8]
        ensures { result.now ≡ program_line self }
    {
        match self {
            ProgramFault::Failed(failure) => failure.line(),
            ProgramFault::NotFound => b"! NotFound\n",
            ProgramFault::Io => b"! Io\n",
            ProgramFault::Net => b"! Net\n",
        }
    }

    /// The exit status.
    pub fn status(self) -> u8
        ensures { result ≡ program_status self }
    {
        match self {
            ProgramFault::Failed(failure) => failure.status(),
            ProgramFault::NotFound | ProgramFault::Io | ProgramFault::Net => 3,
        }
    }
}

impl From<AllocError> for ProgramFault {
    ghost from_gives = { λ _ fault. fault ≡ Failed (Store Memory) };

    fn from(_: AllocError) -> ProgramFault {
        ProgramFault::MEMORY
    }
}

impl From<StoreFault> for ProgramFault {
    ghost from_gives = { λ store fault. fault ≡ Failed (Store store) };

    fn from(fault: StoreFault) -> ProgramFault {
        ProgramFault::Failed(Failure::Store(fault))
    }
}

impl From<Fault> for ProgramFault {
    ghost from_gives = { λ engine fault. fault ≡ Failed (failure_by engine) };

    fn from(fault: Fault) -> ProgramFault {
        ProgramFault::Failed(Failure::from(fault))
    }
}

/// Why a file was not opened or made.
pub fn file_fault(fault: FileFault) -> ProgramFault
    ensures { result ≡ file_fault fault }
{
    match fault {
        FileFault::NotFound => ProgramFault::NotFound,
        FileFault::Io(_) => ProgramFault::Io,
    }
}

/// Why a run ended before it had its turns.
pub fn run_fault(fault: RunFault) -> ProgramFault
    ensures { result ≡ run_fault fault }
{
    match fault {
        RunFault::Source => ProgramFault::Net,
        RunFault::Engine(fault) => ProgramFault::from(fault),
    }
}

/// Prints a line of a refusal. If that cannot be written, the status alone reports it.
pub fn print_fault<W: Write>(writer: &mut W, line: &[u8]) {
    let _ = writer.write_all(line);
    let _ = writer.flush();
}

/// The exit status of a command, if a refusal is printed by its name.
pub fn status_of<T: Drop, W: Write>(done: Result<T, ProgramFault>, writer: &mut W) -> u8
    ensures status { result ≡ done_status done }
    ensures kept { OnOk done (W.contents writer.new ≡ W.contents writer.old) }
{
    match done {
        Ok(_) => 0,
        Err(fault) => {
            print_fault(writer, fault.line());
            fault.status()
        }
    }
}
