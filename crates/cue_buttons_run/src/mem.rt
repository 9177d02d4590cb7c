//! A jack in memory, for tests and proofs: it shows all that it told.
ghost use Rattle.std.specs.Prelude.{◌≡◌, [], Some, length};
ghost use Rattle.cue_buttons_run.specs.Memory.{reading_view, told_by};
ghost use Rattle.cue_buttons_run.specs.Telling.{IsWithin, reading_as};

use crate::jack::{Came, Jack};
use mio::Registry;
use std::alloc::Global;
use std::fs::{File, Files};
use std::io;
use std::vec::IntoIter;

/// What a jack in memory is to give: one reading each.
#[derive(Debug, Drop)]
pub enum MemCame {
    Bytes(Vec<u8>),
    Nothing,
    Interrupted,
    Ended,
}

// What was told.
#[derive(Debug, Drop)]
enum MemTold {
    Opened,
    Read(MemCame),
}

impl MemCame {
    // Gives it, cut to the room.
    fn give(&mut self, room: &mut [u8]) -> Came
        ensures within { IsWithin result (length room.new) }
        ensures gave { reading_as result room.new ≡ reading_view self.new }
    {
        match self {
            MemCame::Bytes(bytes) => {
                bytes.truncate(room.len());
                let n = bytes.len();
                room[..n].copy_from_slice(bytes);
                Came::Bytes(n)
            }
            MemCame::Nothing => Came::Nothing,
            MemCame::Interrupted => Came::Interrupted,
            MemCame::Ended => Came::Ended,
        }
    }
}

/// A jack that gives the readings of a list in turn, and then is at its end. It shows what it told, until there is no
/// memory for that.
#[derive(Drop)]
pub struct MemJack {
    to_give: IntoIter<MemCame>,
    is_open: bool,
    told: Vec<MemTold>,
    shows: bool,
}

impl MemJack {
    /// A jack that is to give these, and has told nothing.
    pub fn new(alloc: Global, to_give: Vec<MemCame>) -> MemJack
        ensures { told_by result ≡ Some [] }
    {
        MemJack {
            to_give: to_give.into_iter(),
            is_open: false,
            told: Vec::new(alloc),
            shows: true,
        }
    }
}

impl Jack for MemJack {
    ghost told = { told_by };

    fn is_open(&self) -> bool {
        self.is_open
    }

    fn open<R: Files<File = File>>(&mut self, _rt: &R, _registry: &Registry) -> io::Result<()> {
        self.is_open = true;
        if self.told.push(MemTold::Opened).is_err() {
            self.shows = false;
        }
        Ok(())
    }

    fn is_here<R: Files<File = File>>(&self, _rt: &R) -> bool {
        true
    }

    fn read(&mut self, room: &mut [u8]) -> Came {
        let mut next = self.to_give.next().unwrap_or(MemCame::Ended);
        let came = next.give(room);
        if self.told.push(MemTold::Read(next)).is_err() {
            self.shows = false;
        }
        came
    }

    fn close(&mut self) {
        self.is_open = false;
    }
}
