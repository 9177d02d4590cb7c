//! Whether the files of a store still stand where they were opened. A folder that is moved or removed under a controller
//! takes along what is commanded from then on, and the next start does not find it.
ghost use Rattle.std.specs.Prelude.{◌≡◌};
ghost use Rattle.cue_program.specs.Placing.{is_elsewhere, is_due};

use super::files::{first_path, say, second_path};
use cue_core::{Event, State};
use cue_disk::FileDisk;
use cue_engine::{Account, Wire};
use cue_run::Watch;
use std::alloc::{AllocError, Global};
use std::fs::{self, Files, Metadata, OpenFile};
use std::io::Eprint;
use std::os::unix::fs::MetadataExt;
use std::time::{Clock, Duration};

/// How far two looks at the place are apart, in milliseconds.
const LOOK_MS: u128 = 1_000;

/// Which file it is: its device, and its number there.
#[derive(Clone, Copy, Debug, PartialEq, Eq)]
pub struct Identity {
    pub device: u64,
    pub number: u64,
}

impl Identity {
    fn of(data: &Metadata) -> Identity {
        Identity {
            device: data.dev(),
            number: data.ino(),
        }
    }

    // That of the file at a path; None if there is none, or it cannot be looked at.
    fn at<R: Files>(rt: &R, path: &str) -> Option<Identity> {
        match fs::metadata(rt, path) {
            Ok(data) => Some(Identity::of(&data)),
            Err(_) => None,
        }
    }

    // That of an open file; None if it does not say.
    fn of_disk(disk: &FileDisk) -> Option<Identity> {
        match disk.file().metadata() {
            Ok(data) => Some(Identity::of(&data)),
            Err(_) => None,
        }
    }
}

// Whether an open file stands at its path no more, by which file is found there. One that does not say which it is counts
// as there.
fn is_elsewhere(opened: Option<Identity>, found: Option<Identity>) -> bool
    ensures { result ≡ is_elsewhere opened found }
{
    match (opened, found) {
        (Some(opened), Some(found)) => opened != found,
        (Some(_), None) => true,
        (None, _) => false,
    }
}

// Whether the place is looked at, so long after a start; None: it never was.
fn is_due(last: Option<u128>, now: u128) -> bool
    ensures { result ≡ is_due last now }
{
    match last {
        Some(last) => now < last || now - last >= LOOK_MS,
        None => true,
    }
}

/// A file of the store: where it was opened, and which it is.
#[derive(Drop)]
struct Placed {
    path: String,
    opened: Option<Identity>,
}

impl Placed {
    fn is_elsewhere<R: Files>(&self, rt: &R) -> bool {
        is_elsewhere(self.opened, Identity::at(rt, self.path.as_str()))
    }
}

/// Both files of a store.
#[derive(Drop)]
pub struct Place {
    first: Placed,
    second: Placed,
}

impl Place {
    /// Where both files of a folder were opened.
    pub fn of(alloc: Global, dir: &str, disks: &(FileDisk, FileDisk)) -> Result<Place, AllocError> {
        Ok(Place {
            first: Placed {
                path: first_path(alloc, dir)?,
                opened: Identity::of_disk(&disks.0),
            },
            second: Placed {
                path: second_path(alloc, dir)?,
                opened: Identity::of_disk(&disks.1),
            },
        })
    }
}

/// A watch that looks on, and beside it sees once a second that the files stand where they were opened. If they do so no
/// more it says so on standard error, once until they are back. The show goes on: what moves has to be commanded.
#[derive(Drop)]
pub struct PlaceWatch<'a, R: Files + Clock + Eprint, V: Drop> {
    rt: &'a R,
    dir: &'a str,
    place: Place,
    /// When the place was looked at last, after an arbitrary start.
    last: Option<u128>,
    is_gone: bool,
    beside: V,
}

impl<'a, R: Files + Clock + Eprint, V: Drop> PlaceWatch<'a, R, V> {
    pub fn new(rt: &'a R, dir: &'a str, place: Place, beside: V) -> PlaceWatch<'a, R, V> {
        PlaceWatch {
            rt,
            dir,
            place,
            last: None,
            is_gone: false,
            beside,
        }
    }

    // Looks at the place, and says it if the files are there no more.
    fn look_at_place(&mut self)
        ensures { self.new.beside ≡ self.old.beside }
    {
        let is_gone = self.place.first.is_elsewhere(self.rt)
            || self.place.second.is_elsewhere(self.rt);
        if is_gone && !self.is_gone {
            say(
                self.rt,
                self.dir,
                "these files were moved or removed: put them back, for the next start will not find what is commanded now",
            );
        }
        self.is_gone = is_gone;
    }

    // The same, at most once a second.
    fn look_in_time(&mut self)
        ensures { self.new.beside ≡ self.old.beside }
    {
        let now = self.rt.monotonic().unwrap_or(Duration::ZERO).as_millis();
        if is_due(self.last, now) {
            self.last = Some(now);
            self.look_at_place();
        }
    }
}

impl<'a, R: Files + Clock + Eprint, W: Wire, V: Watch<W> + Drop> Watch<W> for PlaceWatch<'a, R, V> {
    ghost seen = { λ w. V.seen w.beside };

    fn look(&mut self, state: &State, batch: &[Event], account: Option<&Account>, wire: &mut W) {
        self.beside.look(state, batch, account, wire);
        self.look_in_time();
    }
}
