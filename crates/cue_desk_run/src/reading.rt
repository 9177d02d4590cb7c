//! A store as the desk reads it, beside whoever serves it: read again only if its files may have changed.
ghost use Rattle.std.specs.Prelude.{◌≡◌, ◌↔◌, IsTrue};
ghost use Rattle.cue_desk_run.specs.Readings as readings;
ghost use Rattle.cue_keeper.specs.Observed.{state_of};

use crate::clocks::wall_time;
use crate::stamps::stamps_at;
use cue_copies::{Copies, Found, read_again};
use cue_core::Event;
use cue_desk::stamps::Stamps;
use cue_disk::{FileDisk, FileFault, MemDisk};
use cue_keeper::{Keeper, StoreFault};
use cue_station::heard::{Copied, Heard};
use cue_view::view::Trouble;
use std::fs::{File, Files};
use std::time::Clock;

/// The store of a folder. Its files are only looked at and read: nothing is locked, written or synced.
#[derive(Drop)]
pub struct Store {
    dir: String,
    // When the last copy was begun, in milliseconds since 1970, and what the system said of the files then.
    seen: Option<(u64, Stamps)>,
    // The last copy, as its bytes.
    last: Option<Copies>,
}

// Why a file cannot be opened.
fn trouble_of(fault: &FileFault) -> Trouble
    ensures { result ≡ readings.trouble_of fault.now }
{
    match fault {
        FileFault::NotFound => Trouble::Missing,
        FileFault::Io(_) => Trouble::Refused,
    }
}

// Why a store is refused.
fn refusal_of(fault: StoreFault) -> Trouble
    ensures { result ≡ readings.refusal_of fault }
{
    match fault {
        StoreFault::Memory => Trouble::Memory,
        _ => Trouble::Refused,
    }
}

// One file of a store.
fn open_one<R: Files<File = File> + AllocGlobal>(
    rt: &R,
    dir: &str,
    name: &str,
) -> Result<FileDisk, Trouble> {
    let Ok(path) = format!(in rt.alloc(); "{dir}/{name}") else {
        return Err(Trouble::Memory);
    };
    FileDisk::open_to_read(rt, path.as_str()).map_err(|why| trouble_of(&why))
}

// Both files as they stood at one moment; `last` is the last copy.
fn find<R: Files<File = File> + AllocGlobal>(
    rt: &R,
    dir: &str,
    last: &Option<Copies>,
) -> Result<Found, Trouble> {
    let mut first = open_one(rt, dir, "a.area")?;
    let mut second = open_one(rt, dir, "b.area")?;
    Ok(read_again(rt.alloc(), &mut first, &mut second, last))
}

// A copy of what was read, which was begun at this moment.
fn heard_copy(begun: u64, keeper: &Keeper<MemDisk>, events: Vec<Event>) -> Heard
    ensures copy { readings.IsCopy begun (state_of keeper.now) events.items result }
    ensures moment { readings.IsOf begun result }
{
    match keeper.state().try_clone() {
        Ok(state) => Heard::Copied(Copied {
            begun,
            state,
            events,
        }),
        Err(_) => Heard::Unread(Trouble::Memory),
    }
}

// The same, with the bytes of the copy, if there was memory for it.
fn hear_whole(
    begun: u64,
    copies: Copies,
    keeper: Keeper<MemDisk>,
    events: Vec<Event>,
) -> (Heard, Option<Copies>)
    ensures copy { readings.IsCopy begun (state_of keeper) events.items result.0 }
    ensures moment { readings.IsOf begun result.0 }
{
    match heard_copy(begun, &keeper, events) {
        Heard::Copied(copy) => (Heard::Copied(copy), Some(copies)),
        other => {
            drop(copies);
            (other, None)
        }
    }
}

// What a reading is heard as that was begun at this moment, with the bytes that are kept of it.
fn hear_found(begun: u64, found: Result<Found, Trouble>) -> (Heard, Option<Copies>)
    ensures heard { readings.IsHeard begun found result.0 }
    ensures moment { readings.IsOf begun result.0 }
{
    match found {
        Ok(Found::Whole(copies, keeper, events)) => hear_whole(begun, copies, keeper, events),
        Ok(Found::Same) => (Heard::Same(begun), None),
        Ok(Found::Refused(fault)) => (Heard::Unread(refusal_of(fault)), None),
        Ok(Found::Changing) => (Heard::Unread(Trouble::Changing), None),
        Err(trouble) => (Heard::Unread(trouble), None),
    }
}

// What is kept of the files once this was heard of them: nothing, unless it stands for what they held at this moment.
fn seen_by(heard: &Heard, wall: u64, stamps: Option<Stamps>) -> Option<(u64, Stamps)>
    ensures { result ≡ readings.seen_by heard.now wall stamps }
{
    match heard {
        Heard::Copied(_) | Heard::Same(_) => stamps.map(|stamps| (wall, stamps)),
        _ => None,
    }
}

impl Store {
    /// The store of this folder, of which nothing is read yet.
    pub fn new(dir: String) -> Store
        ensures { readings.IsUnread result }
    {
        Store {
            dir,
            seen: None,
            last: None,
        }
    }

    /// Lets it be read again, whatever the files look like.
    pub fn forget(&mut self)
        ensures { readings.IsUnread self.new }
    {
        self.seen = None;
        self.last = None;
    }

    // Whether the last copy is what another one would give, too.
    fn holds(&self, stamps: Option<Stamps>) -> bool
        ensures { IsTrue result ↔ readings.StillHolds self.now.seen stamps }
    {
        let Some((begun, seen)) = self.seen else {
            return false;
        };
        match stamps {
            Some(stamps) => seen.holds(begun, stamps),
            None => false,
        }
    }

    // Reads the store, from this moment on.
    fn read<R: Files<File = File> + AllocGlobal>(&mut self, rt: &R, begun: u64) -> Heard
        ensures { readings.IsOf begun result }
    {
        let found = find(rt, self.dir.as_str(), &self.last);
        let (heard, copies) = hear_found(begun, found);
        if copies.is_some() {
            self.last = copies;
        }
        heard
    }

    /// Looks at the store: it is read if that may give something else than the last copy. `begun` is this moment, by
    /// the clock that never goes back.
    #[tactic(auto, using(crate::proofs::ReadLemmas::read_again))]
    pub fn look<R: Files<File = File> + Clock + AllocGlobal>(&mut self, rt: &R, begun: u64) -> Heard
        ensures moment { readings.IsOf begun result }
        ensures again { readings.IsReadAgain result self.new.seen }
    {
        let wall = wall_time(rt);
        let stamps = stamps_at(rt, self.dir.as_str());
        if self.holds(stamps) {
            return Heard::Same(begun);
        }
        let heard = self.read(rt, begun);
        self.seen = seen_by(&heard, wall, stamps);
        heard
    }
}
