//! Where the bytes of a panel come from.
ghost use Rattle.std.specs.Prelude.{◌≡◌, List, Option, is_ok, length};
ghost use Rattle.cue_buttons_run.specs.Telling.{IsWithin, Told, opened_if, told_as};
ghost use Rattle.cue_machine.specs.Growing.{Grew};

use mio::Registry;
use std::fs::{File, Files};
use std::io;

/// What comes of a reading.
#[derive(Debug, Drop)]
pub enum Came {
    /// So many bytes.
    Bytes(usize),
    /// Nothing is there at this moment.
    Nothing,
    /// A signal came first: nobody knows what is there.
    Interrupted,
    /// The file is at its end.
    Ended,
    /// It cannot be read any more.
    Gone(io::Error),
}

/// Where a device stands that is heard, and after it another one.
pub trait Jack {
    /// All that it told so far, in order: that a device was opened, and what each reading gave; None for one that does
    /// not show it.
    ghost told: { Self → Option (List Told) };

    /// Whether a device is open.
    fn is_open(&self) -> bool;

    /// Opens the device that stands here, and lets what comes of it wake the poll.
    fn open<R: Files<File = File>>(&mut self, rt: &R, registry: &Registry) -> io::Result<()>
        ensures { Grew (told self.old) (opened_if (is_ok result)) (told self.new) };

    /// Whether the device that is open still stands here.
    fn is_here<R: Files<File = File>>(&self, rt: &R) -> bool;

    /// Reads the next bytes that are there, into this room.
    fn read(&mut self, room: &mut [u8]) -> Came
        ensures within { IsWithin result (length room.new) }
        ensures told { Grew (told self.old) (told_as result room.new) (told self.new) };

    /// Lets the device go.
    fn close(&mut self)
        ensures { told self.new ≡ told self.old };
}
