//! When a show file is read again.
ghost use Rattle.std.specs.Prelude.{◌≡◌, ◌↔◌, false, IsTrue, None, Some};
ghost use Rattle.cue_desk.specs.declared.stamps.Stamp.{Stamp};
ghost use Rattle.cue_file_news.specs.Looks.{Holds, IsAskedBy, IsToRead};
ghost use Rattle.cue_file_news.specs.declared.looking.Look.TheVariants as look;

use cue_desk::stamps::Stamp;

/// What a look at a show file found.
#[derive(Clone, Copy, Debug, PartialEq, Eq)]
pub enum Look {
    /// The file is not there.
    Gone,
    /// What the system says of the file.
    There(Stamp),
}

/// A reading of the file, as it was begun.
#[derive(Clone, Copy, Debug, PartialEq, Eq)]
pub struct Reading {
    /// What the system said of the file before.
    pub stamp: Stamp,
    /// The moment, in milliseconds since 1970, by the clock of the wall.
    pub begun: u64,
}

/// What is known of a show file.
#[derive(Clone, Copy, Debug, PartialEq, Eq)]
pub struct Looks {
    // What the last look found, if somebody has looked.
    last: Option<Look>,
    // The last reading, if there was one.
    read: Option<Reading>,
}

// Whether the reading is what a file with this stamp holds.
fn holds(read: Option<Reading>, stamp: Stamp) -> bool
    ensures { IsTrue result ↔ Holds read stamp }
{
    match read {
        Some(read) => read.stamp == stamp && stamp.is_settled(read.begun),
        None => false,
    }
}

impl Looks {
    /// Nobody has looked yet, and nothing was read.
    pub fn new() -> Looks
        ensures last { result.last ≡ None }
        ensures read { result.read ≡ None }
    {
        Looks {
            last: None,
            read: None,
        }
    }

    /// What the last look found, if somebody has looked.
    pub fn last(self) -> Option<Look>
        ensures { result ≡ self.last }
    {
        self.last
    }

    // Whether the file is to be read, which has this stamp now.
    fn is_to_read(self, stamp: Stamp) -> bool
        ensures { IsTrue result ↔ IsToRead self.last self.read stamp }
    {
        self.last == Some(Look::There(stamp)) && !holds(self.read, stamp)
    }

    // The stamp with which the file is to be read, after a look that found this.
    fn to_read(self, found: Look) -> Option<Stamp>
        ensures there { (stamp : Stamp) → found ≡ look.There stamp
            → (result ≡ Some stamp) ↔ IsToRead self.last self.read stamp }
        ensures same { (stamp : Stamp) → result ≡ Some stamp → found ≡ look.There stamp }
    {
        match found {
            Look::There(stamp) => if self.is_to_read(stamp) {
                Some(stamp)
            } else {
                None
            },
            Look::Gone => None,
        }
    }

    /// A look found this: what the file is to be read with, if it is to be read. While an attempt is live nothing is
    /// read: a press would have to wait for it.
    pub fn look(&mut self, found: Look, is_live: bool) -> Option<Stamp>
        ensures asked { (stamp : Stamp) → (result ≡ Some stamp)
            ↔ IsAskedBy self.old.last self.old.read found is_live stamp }
        ensures next { self.new ≡ record self.old { last = Some found } }
    {
        let looks = *self;
        self.last = Some(found);
        if is_live { None } else { looks.to_read(found) }
    }

    /// The file was read.
    pub fn note(&mut self, reading: Reading)
        ensures { self.new ≡ record self.old { read = Some reading } }
    {
        self.read = Some(reading);
    }
}
