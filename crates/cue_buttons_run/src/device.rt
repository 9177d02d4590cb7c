//! The device that stands at a path.
ghost use Rattle.std.specs.Prelude.{◌≡◌, None, length};
ghost use Rattle.cue_buttons_run.specs.Telling.{EndsAt, IsWithin, TakesOff};
ghost use Rattle.cue_buttons_run.specs.Waiting.{found_nothing, was_interrupted};

use crate::jack::{Came, Jack};
use mio::unix::SourceFd;
use mio::{Interest, Registry, Token};
use std::fs::{self, File, Files, Metadata, OpenOptions};
use std::io::{self, ErrorKind, Read};
use std::os::fd::AsRawFd;
use std::os::unix::fs::{FileTypeExt, MetadataExt};

/// The token of the device in a poll.
const BYTES: Token = Token(3);

/// What names a file on this machine, whatever path leads to it.
#[derive(Clone, Copy, PartialEq, Eq)]
struct Node {
    disk: u64,
    file: u64,
    device: u64,
}

// An open device.
#[derive(Drop)]
struct Device {
    file: File,
    node: Node,
}

/// The jack of the device at a path. It shows nothing of what it told.
#[derive(Drop)]
pub struct PathJack<'a> {
    path: &'a str,
    device: Option<Device>,
}

// Whether a call that failed so only found nothing at this moment.
fn found_nothing(kind: ErrorKind) -> bool
    ensures { result ≡ found_nothing kind }
{
    matches!(kind, ErrorKind::WouldBlock)
}

// Whether a signal ended the call that failed so.
fn was_interrupted(kind: ErrorKind) -> bool
    ensures { result ≡ was_interrupted kind }
{
    matches!(kind, ErrorKind::Interrupted)
}

// What names the file of which the system says this.
fn node_of(metadata: &Metadata) -> Node {
    Node {
        disk: metadata.dev(),
        file: metadata.ino(),
        device: metadata.rdev(),
    }
}

// Opens what stands at the path. A FIFO is opened for both ways, so that this waits for nobody.
fn open_at<R: Files<File = File>>(rt: &R, path: &str) -> io::Result<File> {
    let is_fifo = fs::metadata(rt, path)?.file_type().is_fifo();
    let mut options = OpenOptions::new();
    let _ = options.read(true);
    let _ = options.write(is_fifo);
    options.open(rt, path)
}

// Lets a call that finds nothing return at once.
fn never_wait(file: &File) -> io::Result<()> {
    if os::set_nonblocking(file.as_raw_fd(), true) < 0 {
        return Err(io::Error::from(ErrorKind::Unsupported));
    }
    Ok(())
}

// Lets what comes wake the poll. The system refuses that of a plain file, which is read in each round all the same.
fn wake(registry: &Registry, file: &File) {
    let fd = file.as_raw_fd();
    let _ = registry.register(&mut SourceFd(&fd), BYTES, Interest::READABLE);
}

// Reads what is there, into this room: no byte is made up, none is lost, and none is read twice.
#[tactic(auto, using(crate::proofs::TellingLemmas::takes_none))]
fn read_from<F: Read>(file: &mut F, room: &mut [u8]) -> Came
    ensures within { IsWithin result (length room.new) }
    ensures takes { TakesOff result room.new (F.remaining file.old) (F.remaining file.new) }
    ensures ends { EndsAt result (length room.new) (F.remaining file.new) }
{
    match file.read(room) {
        Ok(0) => Came::Ended,
        Ok(n) => Came::Bytes(n),
        Err(why) if found_nothing(why.kind()) => Came::Nothing,
        Err(why) if was_interrupted(why.kind()) => Came::Interrupted,
        Err(why) => Came::Gone(why),
    }
}

impl Device {
    // Opens the device at this path. It waits only for a sound device that another program holds.
    fn open<R: Files<File = File>>(rt: &R, registry: &Registry, path: &str) -> io::Result<Device> {
        let file = open_at(rt, path)?;
        let node = node_of(&file.metadata()?);
        never_wait(&file)?;
        wake(registry, &file);
        Ok(Device { file, node })
    }

    // Whether the path still names this device.
    fn is_at<R: Files<File = File>>(&self, rt: &R, path: &str) -> bool {
        match fs::metadata(rt, path) {
            Ok(metadata) => node_of(&metadata) == self.node,
            Err(_) => false,
        }
    }
}

impl<'a> PathJack<'a> {
    /// The jack at this path; nothing is open.
    pub fn new(path: &'a str) -> PathJack<'a> {
        PathJack { path, device: None }
    }
}

impl Jack for PathJack<'_> {
    ghost told = { λ _. None };

    fn is_open(&self) -> bool {
        self.device.is_some()
    }

    fn open<R: Files<File = File>>(&mut self, rt: &R, registry: &Registry) -> io::Result<()> {
        self.device = Some(Device::open(rt, registry, self.path)?);
        Ok(())
    }

    fn is_here<R: Files<File = File>>(&self, rt: &R) -> bool {
        match &self.device {
            Some(device) => device.is_at(rt, self.path),
            None => false,
        }
    }

    fn read(&mut self, room: &mut [u8]) -> Came {
        match &mut self.device {
            Some(device) => read_from(&mut device.file, room),
            None => Came::Interrupted,
        }
    }

    fn close(&mut self) {
        self.device = None;
    }
}
