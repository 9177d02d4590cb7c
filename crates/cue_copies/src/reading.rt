//! Reading a store again and again, together with what its records tell: for whoever shows how attempts have ended.
ghost use Rattle.std.specs.Prelude.{◌≡◌, ◌≢◌, IsTrue};
ghost use Rattle.cue_copies.specs.OnlyReads.{OnlyReadsBoth};
ghost use Rattle.cue_copies.specs.Telling.{AreOf, IsFoundIn, StandsAsFound};
ghost use Rattle.cue_copies.specs.declared.reading.Found.TheVariants.{Refused};

use crate::copying::{Copies, copy_at_once, is_read_again};
use crate::looking::MAX_READINGS;
use cue_core::Event;
use cue_disk::{Disk, MemDisk};
use cue_keeper::{Keeper, StoreFault};
use std::alloc::Global;

/// What a reading of both files gave.
#[derive(Drop)]
pub enum Found {
    /// The copies, the store that they stand for, and the events that their records tell, the oldest first.
    Whole(Copies, Keeper<MemDisk>, Vec<Event>),
    /// The files hold what the last copies have.
    Same,
    /// The store is refused.
    Refused(StoreFault),
    /// A file was turned over while they were read.
    Changing,
}

// Whether the copies are those that were made last.
fn is_same(last: &Option<Copies>, copies: &Copies) -> bool
    ensures { IsTrue result → AreOf last.now copies.now.first.items copies.now.second.items }
{
    match last {
        Some(last) => {
            last.first.as_slice() == copies.first.as_slice()
                && last.second.as_slice() == copies.second.as_slice()
        }
        None => false,
    }
}

// What these copies stand for, and what they tell, unless they are those that were made last.
fn found_in(alloc: Global, copies: Copies, last: &Option<Copies>) -> Found
    ensures found { IsFoundIn last.now copies.first.items copies.second.items result }
    ensures memory { result ≢ Refused StoreFault.Disk }
{
    if is_same(last, &copies) {
        return Found::Same;
    }
    match copies.open(alloc) {
        Ok(keeper) => match copies.events(alloc) {
            Ok(events) => Found::Whole(copies, keeper, events),
            Err(_) => {
                // What is opened has whole records: nothing but memory can fail here.
                drop(keeper);
                Found::Refused(StoreFault::Memory)
            }
        },
        Err(fault) => Found::Refused(fault),
    }
}

/// Reads both files once, as `look` does; `last` are the copies that were made last. It makes no write and no sync.
pub fn read<D: Disk>(alloc: Global, first: &mut D, second: &mut D, last: &Option<Copies>) -> Found
    ensures reads { OnlyReadsBoth D.Disk (result ≡ Refused StoreFault.Disk) first.old second.old first.new second.new }
    ensures stood { D.is_honest first.old → D.is_honest second.old
        → StandsAsFound last.now (D.held first.old) (D.held second.old) result }
{
    match copy_at_once(alloc, first, second) {
        Ok(Some(copies)) => found_in(alloc, copies, last),
        Ok(None) => Found::Changing,
        Err(fault) => Found::Refused(fault),
    }
}

/// Reads both files until they give a store or a fault that another reading would not mend, `MAX_READINGS` times at
/// most, as `look_again` does.
pub fn read_again<D: Disk>(
    alloc: Global,
    first: &mut D,
    second: &mut D,
    last: &Option<Copies>,
) -> Found
    ensures reads { OnlyReadsBoth D.Disk (result ≡ Refused StoreFault.Disk) first.old second.old first.new second.new }
    ensures stood { D.is_honest first.old → D.is_honest second.old
        → StandsAsFound last.now (D.held first.old) (D.held second.old) result }
{
    for _ in 1..MAX_READINGS {
        match read(alloc, first, second, last) {
            Found::Changing => {}
            Found::Refused(fault) if is_read_again(fault) => {}
            found => return found,
        }
    }
    read(alloc, first, second, last)
}
