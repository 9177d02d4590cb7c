//! Stores, as copies in memory.
ghost use Rattle.std.specs.Prelude.{◌≡◌, IfErr, OnOk};
ghost use Rattle.cue_files_run.specs.Reading.{PrintsShow};

use cue_copies::{Seen, look_again};
use cue_desk::ending::Ending;
use cue_disk::{FileDisk, MemDisk};
use cue_findings::words;
use cue_keeper::Keeper;
use cue_saying::{print, say};
use cue_show::Show;
use cue_show_file::{of_show, written};
use std::fs::{File, Files};
use std::io::{Eprint, Write};

// One file of a store.
fn open_one<R: Files<File = File> + AllocGlobal>(
    rt: &R,
    dir: &str,
    name: &str,
) -> Result<FileDisk, String> {
    let alloc = rt.alloc();
    let path = format!(in alloc; "{dir}/{name}").map_err(|_| String::new(alloc))?;
    FileDisk::open_to_read(rt, path.as_str()).map_err(|why| words(alloc, path.as_str(), why))
}

/// Opens the store of a folder in memory. Nothing is written to its files, and no sync or lock is asked of them. The
/// error is in words; empty if memory ran out.
pub fn open_store<R: Files<File = File> + AllocGlobal>(
    rt: &R,
    dir: &str,
) -> Result<Keeper<MemDisk>, String> {
    let alloc = rt.alloc();
    let mut first = open_one(rt, dir, "a.area")?;
    let mut second = open_one(rt, dir, "b.area")?;
    match look_again(alloc, &mut first, &mut second) {
        Seen::Whole(keeper) => Ok(keeper),
        Seen::Refused(fault) => Err(words(alloc, dir, fault)),
        Seen::Changing => Err(words(
            alloc,
            dir,
            "the files change while they are read; ask again",
        )),
    }
}

// Prints the show file of a show.
fn print_show<R: AllocGlobal, W: Write>(rt: &R, show: &Show, writer: &mut W) -> Result<(), Ending>
    ensures { OnOk result (PrintsShow show.now (W.contents writer.old) (W.contents writer.new)) }
{
    let file = of_show(rt.alloc(), show)?;
    let text = written(rt.alloc(), &file)?;
    print(writer, text.as_str())
}

/// The command `export`.
pub fn export<R: Files<File = File> + Eprint + AllocGlobal, W: Write>(
    rt: &R,
    dir: &str,
    writer: &mut W,
) -> Result<(), Ending> {
    match open_store(rt, dir) {
        Ok(keeper) => print_show(rt, keeper.state().show(), writer),
        Err(why) => {
            say(rt, why.as_str());
            Err(Ending::Failed)
        }
    }
}
