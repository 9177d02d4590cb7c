//! Looking at a store: once, or again if what was read may be of two moments.
ghost use Rattle.std.specs.Prelude.{◌≡◌};
ghost use Rattle.cue_copies.specs.declared.looking.Seen.TheVariants.{Refused};
ghost use Rattle.cue_copies.specs.Looking.{StandsAsSeen};
ghost use Rattle.cue_copies.specs.OnlyReads.{OnlyReadsBoth};

use crate::copying::{copy_at_once, is_read_again};
use cue_disk::{Disk, MemDisk};
use cue_keeper::{Keeper, StoreFault};
use std::alloc::Global;

/// The most times that both files are read.
pub const MAX_READINGS: u32 = 10;

/// What a reading of both files gave.
pub enum Seen {
    /// The store.
    Whole(Keeper<MemDisk>),
    /// The store is refused.
    Refused(StoreFault),
    /// A file was turned over while they were read.
    Changing,
}

/// Reads both files once. It makes no write and no sync of them.
pub fn look<D: Disk>(alloc: Global, first: &mut D, second: &mut D) -> Seen
    ensures reads { OnlyReadsBoth D.Disk (result ≡ Refused StoreFault.Disk) first.old second.old first.new second.new }
    ensures stood { D.is_honest first.old → D.is_honest second.old
        → StandsAsSeen (D.held first.old) (D.held second.old) result }
{
    match copy_at_once(alloc, first, second) {
        Ok(Some(copies)) => match copies.open(alloc) {
            Ok(keeper) => Seen::Whole(keeper),
            Err(fault) => Seen::Refused(fault),
        },
        Ok(None) => Seen::Changing,
        Err(fault) => Seen::Refused(fault),
    }
}

/// Reads both files until they give a store or a fault that another reading would not mend, `MAX_READINGS` times at
/// most. Such a fault is read again only if the store is served meanwhile, which the closure says.
pub fn look_while<D: Disk, S: Fn() -> bool>(
    alloc: Global,
    first: &mut D,
    second: &mut D,
    is_served: S,
) -> Seen
    requires { S.IsAlwaysCallable is_served }
    ensures reads { OnlyReadsBoth D.Disk (result ≡ Refused StoreFault.Disk) first.old second.old first.new second.new }
    ensures stood { D.is_honest first.old → D.is_honest second.old
        → StandsAsSeen (D.held first.old) (D.held second.old) result }
{
    for _ in 1..MAX_READINGS {
        match look(alloc, first, second) {
            Seen::Changing => {}
            Seen::Refused(fault) if is_read_again(fault) && is_served() => {}
            seen => return seen,
        }
    }
    look(alloc, first, second)
}

/// The same, for whoever does not ask whether the store is served.
pub fn look_again<D: Disk>(alloc: Global, first: &mut D, second: &mut D) -> Seen
    ensures reads { OnlyReadsBoth D.Disk (result ≡ Refused StoreFault.Disk) first.old second.old first.new second.new }
    ensures stood { D.is_honest first.old → D.is_honest second.old
        → StandsAsSeen (D.held first.old) (D.held second.old) result }
{
    look_while(alloc, first, second, || true)
}
