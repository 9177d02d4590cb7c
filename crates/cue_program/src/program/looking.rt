//! The command `show`: it reads a store that another process may serve meanwhile, and reads it again if what it read
//! may be of two moments.
ghost use Rattle.std.specs.Prelude.{◌≡◌, IfErr, IfOk, IsErrOf, OnOk};
ghost use Rattle.std.specs.Io.KnownBytes.{Appends};
ghost use Rattle.cue_keeper.specs.Observed.{state_of};
ghost use Rattle.cue_keeper.specs.Stands.{Stands};
ghost use Rattle.cue_copies.specs.Copies.{copy_of};
ghost use Rattle.cue_copies.specs.Looking.{StandsAsSeen};
ghost use Rattle.cue_copies.specs.OnlyReads.{OnlyReadsBoth};
ghost use Rattle.cue_copies.specs.declared.looking.Seen.TheVariants.{Refused};
ghost use Rattle.cue_script.specs.declared.ending.Failure.TheVariants.{Store};
ghost use Rattle.cue_program.specs.Performing.{IsStateShown, IsStateTold};
ghost use Rattle.cue_words.specs.ShowText.{show_text};
ghost use Rattle.cue_program.specs.Showing.{IsRefusedFor};
ghost use Rattle.cue_program.specs.declared.program.fault.ProgramFault.TheVariants.{Failed, Io};

use super::fault::ProgramFault;
use super::files::{open_both_to_read, say, say_failures};
use super::lock::is_served;
use super::print;
use cue_copies::{Seen, look_while};
use cue_core::State;
use cue_disk::{Disk, MemDisk};
use cue_keeper::{Keeper, StoreFault};
use cue_words::show_text;
use std::alloc::Global;
use std::fs::{File, Files};
use std::io::{Eprint, Write};

/// Reads both files until the answer is one of a single moment, `MAX_READINGS` times at most. What a store at rest
/// answers is answered at once. No write and no sync of them is made. Whether the store is served is asked of the
/// folder.
pub fn look_again<R: Files<File = File>, D: Disk>(
    rt: &R,
    alloc: Global,
    dir: &str,
    first: &mut D,
    second: &mut D,
) -> Seen
    ensures reads { OnlyReadsBoth D.Disk (result ≡ Refused StoreFault.Disk) first.old second.old first.new second.new }
    ensures stood { D.is_honest first.old → D.is_honest second.old
        → StandsAsSeen (D.held first.old) (D.held second.old) result }
{
    look_while(alloc, first, second, || is_served(rt, alloc, dir))
}

// Says that the files did not stand still; this is the fault.
fn say_changing<R: Eprint>(rt: &R, dir: &str) -> ProgramFault
    ensures { result ≡ Io }
{
    say(rt, dir, "the files change while they are read; ask again");
    ProgramFault::Io
}

// Says why the store of a folder is refused; this is the fault.
fn say_refused<R: Eprint>(rt: &R, dir: &str, fault: StoreFault) -> ProgramFault
    ensures { result ≡ Failed (Store fault) }
{
    say(rt, dir, fault);
    ProgramFault::from(fault)
}

// Opens the store of a folder, whose files these disks are, in memory. No write and no sync of them is made. `Io` if
// they were turned over at each reading.
fn open_copies<R: Files<File = File> + Eprint, D: Disk>(
    rt: &R,
    alloc: Global,
    dir: &str,
    first: &mut D,
    second: &mut D,
) -> Result<Keeper<MemDisk>, ProgramFault>
    ensures reads { OnlyReadsBoth D.Disk (IsErrOf result (Failed (Store StoreFault.Disk))) first.old second.old
        first.new second.new }
    ensures stood { D.is_honest first.old → D.is_honest second.old → IfOk result (λ keeper.
        Stands (copy_of (D.held first.old)) (copy_of (D.held second.old)) (state_of keeper)) }
    ensures refused { D.is_honest first.old → D.is_honest second.old → IfErr result
        (λ fault. IsRefusedFor (copy_of (D.held first.old)) (copy_of (D.held second.old)) fault) }
{
    match look_again(rt, alloc, dir, first, second) {
        Seen::Whole(keeper) => Ok(keeper),
        Seen::Refused(fault) => Err(say_refused(rt, dir, fault)),
        Seen::Changing => Err(say_changing(rt, dir)),
    }
}

// Prints a state.
fn print_state<W: Write>(alloc: Global, state: &State, writer: &mut W) -> Result<(), ProgramFault>
    ensures { OnOk result (Appends (W.contents writer.old) (W.contents writer.new) (show_text state.now)) }
{
    let text = show_text(alloc, state)?;
    print(writer, &text)
}

// Prints the show of a folder, whose files these disks are.
fn show_disks<R: Files<File = File> + Eprint, D: Disk, W: Write>(
    rt: &R,
    alloc: Global,
    dir: &str,
    first: &mut D,
    second: &mut D,
    writer: &mut W,
) -> Result<(), ProgramFault>
    ensures told { OnOk result (IsStateTold (W.contents writer.old) (W.contents writer.new)) }
    ensures stood { D.is_honest first.old → D.is_honest second.old
        → OnOk result (IsStateShown (copy_of (D.held first.old)) (copy_of (D.held second.old))
        (W.contents writer.old) (W.contents writer.new)) }
    ensures first_kept { D.is_honest first.old → D.held first.new ≡ D.held first.old }
    ensures second_kept { D.is_honest second.old → D.held second.new ≡ D.held second.old }
{
    let keeper = open_copies(rt, alloc, dir, first, second)?;
    print_state(alloc, keeper.state(), writer)
}

/// Prints the show of a folder. If a file failed, it is said which, and how.
pub fn show<R: Files<File = File> + Eprint, W: Write>(
    rt: &R,
    alloc: Global,
    dir: &str,
    writer: &mut W,
) -> Result<(), ProgramFault>
    ensures { OnOk result (IsStateTold (W.contents writer.old) (W.contents writer.new)) }
{
    let (mut first, mut second) = open_both_to_read(rt, alloc, dir)?;
    let shown = show_disks(rt, alloc, dir, &mut first, &mut second, writer);
    if shown.is_err() {
        say_failures(rt, &first, &second);
    }
    shown
}
