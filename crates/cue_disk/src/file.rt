// A disk over a file of the system.
ghost use Rattle.std.specs.Prelude.{◌≡◌, ◌≤◌, [], IfOk};
ghost use Rattle.cue_disk.specs.Effect.{settled_contents};
ghost use Rattle.cue_disk.specs.Disk.{CountsFailure, MoreFailures};
ghost use Rattle.cue_disk.specs.File.{file_failures, opening_fault};

use crate::{Disk, DiskFault};
use std::error::Error;
use std::fmt;
use std::fs::{File, Files, OpenFile, OpenOptions};
use std::io::{self, ErrorKind};
use std::os::unix::fs::{FileExt, OpenOptionsExt};
use std::path::Path;

/// Why a file was not opened.
#[derive(Clone, Copy, Debug)]
pub enum FileFault {
    /// There is no such file.
    NotFound,
    /// The system refused it, for this reason.
    Io(io::Error),
}

impl fmt::Display for FileFault {
    fn fmt<W: fmt::Write>(&self, f: &mut fmt::Formatter<W>) -> fmt::Result {
        match self {
            FileFault::NotFound => write!(f, "there is no such file"),
            FileFault::Io(error) => write!(f, "{error}"),
        }
    }
}

impl Error for FileFault {}

// Why a file was not opened.
fn opening_fault(error: io::Error) -> FileFault
    ensures { result ≡ opening_fault error }
{
    match error.kind() {
        ErrorKind::NotFound => FileFault::NotFound,
        _ => FileFault::Io(error),
    }
}

/// A disk over an open file. Nothing of a real file can be proved. That the file is honest, that nobody else writes it
/// and that it stays where it was made are premises of whoever serves a show from it.
///
/// It tests the bounds of `Disk` itself, by the length that it knows from its opening, its own writes and `len`. A
/// write goes on until the file has taken all of it. A sync is one sync of its data, which takes its length along.
#[derive(Drop)]
pub struct DiskOver<F: Drop> {
    file: F,
    len: u64,
    failures: u64,
    last_failure: Option<io::Error>,
}

/// A disk over a file of the system.
pub type FileDisk = DiskOver<File>;

/// Who may do what with a file that is made: its owner writes it, its group reads it. Whoever may read a file may lock
/// it, so nobody else may: one lock keeps the controller from its store.
pub const MODE: u32 = 0o640;

impl DiskOver<File> {
    /// Opens a file that is there, to read and to write it.
    pub fn open<R: Files<File = File>>(rt: &R, path: &str) -> Result<FileDisk, FileFault>
        ensures { IfOk result (λ disk. file_failures disk ≡ 0) }
    {
        let opened = OpenOptions::new().read(true).write(true).open(rt, path);
        opened.and_then(FileDisk::over).map_err(opening_fault)
    }

    /// Opens a file that is there, to read it alone: the system refuses each write. For whoever looks at a store: so it
    /// cannot be changed, and no permission to change it is needed.
    pub fn open_to_read<R: Files<File = File>>(rt: &R, path: &str) -> Result<FileDisk, FileFault>
        ensures { IfOk result (λ disk. file_failures disk ≡ 0) }
    {
        let opened = OpenOptions::new().read(true).open(rt, path);
        opened.and_then(FileDisk::over).map_err(opening_fault)
    }

    /// Opens a file, or makes it empty if it is missing, of the mode `MODE`. The folder that it stands in is synced, so
    /// that a crash does not lose the file.
    pub fn create<R: Files<File = File>>(rt: &R, path: &str) -> Result<FileDisk, FileFault>
        ensures { IfOk result (λ disk. file_failures disk ≡ 0) }
    {
        make(rt, path)
            .and_then(FileDisk::over)
            .map_err(FileFault::Io)
    }
}

impl<F: OpenFile + FileExt + Drop> DiskOver<F> {
    /// A disk over an open file, on which nothing has failed. The error is that the file does not say its length.
    pub fn over(file: F) -> io::Result<DiskOver<F>>
        ensures { IfOk result (λ disk. file_failures disk ≡ 0) }
    {
        let len = file.metadata()?.len();
        Ok(DiskOver {
            file,
            len,
            failures: 0,
            last_failure: None,
        })
    }

    /// The file.
    pub fn file(&self) -> &F {
        &self.file
    }

    /// Why the last call that failed did so, for the person who reads it. `None`: none has failed.
    pub fn last_failure(&self) -> Option<io::Error> {
        self.last_failure
    }

    // Counts a call that failed.
    fn fault(&mut self, why: io::Error) -> DiskFault
        ensures more { MoreFailures (file_failures self.old) (file_failures self.new) }
        ensures no_fewer { file_failures self.old ≤ file_failures self.new }
    {
        self.failures = self.failures.saturating_add(1);
        self.last_failure = Some(why);
        DiskFault
    }

    // What a call answers, counted if it failed.
    fn counted(&mut self, done: io::Result<()>) -> Result<(), DiskFault>
        ensures { CountsFailure result (file_failures self.old) (file_failures self.new) }
    {
        match done {
            Ok(()) => Ok(()),
            Err(why) => Err(self.fault(why)),
        }
    }
}

// Opens or makes the file, and syncs the folder around it.
fn make<R: Files<File = File>>(rt: &R, path: &str) -> io::Result<File> {
    let file = OpenOptions::new()
        .read(true)
        .write(true)
        .create(true)
        .mode(MODE)
        .open(rt, path)?;
    let folder = match Path::new(path).parent() {
        Some(folder) if folder.as_str() != "" => folder,
        _ => Path::new("."),
    };
    File::open(rt, folder)?.sync_all()?;
    Ok(file)
}

// A call that does not keep within the length.
fn outside() -> io::Error {
    io::Error::new(ErrorKind::InvalidInput, "outside of the file")
}

impl<F: OpenFile + FileExt + Drop> Disk for DiskOver<F> {
    ghost held = { λ _. settled_contents [] };

    ghost moment = { λ _. 0 };

    ghost held_at = { λ _ _. settled_contents [] };

    ghost failures = { λ disk. file_failures disk };

    // Nobody can prove that a file keeps to the contract.
    ghost is_honest = { λ _. ⊥ };

    fn len(&mut self) -> Result<u64, DiskFault> {
        match self.file.metadata() {
            Ok(data) => {
                self.len = data.len();
                Ok(self.len)
            }
            Err(why) => Err(self.fault(why)),
        }
    }

    fn read_at(&mut self, at: u64, buf: &mut [u8]) -> Result<(), DiskFault> {
        if at > self.len || buf.len() as u64 > self.len - at {
            return Err(self.fault(outside()));
        }
        let done = self.file.read_exact_at(buf, at);
        self.counted(done)
    }

    fn write_at(&mut self, at: u64, bytes: &[u8]) -> Result<(), DiskFault> {
        if at > self.len {
            return Err(self.fault(outside()));
        }
        let done = self.file.write_all_at(bytes, at);
        if done.is_ok() {
            self.len = u64::max(self.len, at.saturating_add(bytes.len() as u64));
        }
        self.counted(done)
    }

    fn sync(&mut self) -> Result<(), DiskFault> {
        let done = self.file.sync_data();
        self.counted(done)
    }

    ghost held_now = { λ _ honest. absurd honest };

    ghost reads_as_image = { λ _ honest. absurd honest };
}
