//! The command `mark`: when the curtain goes up or down, in a file beside the log.
ghost use Rattle.std.specs.Prelude.{IfOk, OnOk, string_bytes};
ghost use Rattle.cue_report.specs.Marks.{IsLineOf};
ghost use Rattle.cuedesk.specs.Marking as marking;

use cue_curtain::text_after;
use cue_desk::ending::Ending;
use cue_report::marks::{Curtain, Mark, mark_line};
use cue_saying::{print, say};
use std::fs::{self, File, Files, OpenOptions};
use std::io::{self, Eprint, ErrorKind, Read, Seek, SeekFrom, Write};
use std::time::Clock;

// The last byte of a file; none if it is empty.
fn last_of(file: &mut File) -> io::Result<Option<u8>> {
    let len = file.metadata()?.len();
    if len == 0 {
        return Ok(None);
    }
    let mut last = [0];
    file.seek(SeekFrom::Start(len - 1))?;
    file.read_exact(&mut last)?;
    Ok(Some(last[0]))
}

// Opens a file to put a line after its others; it is made if it is not there. A pipe that nobody reads would be waited
// for: what is no file is not opened.
fn open_after<R: Files<File = File>>(rt: &R, path: &str) -> io::Result<File> {
    if let Ok(found) = fs::metadata(rt, path) {
        if !found.is_file() {
            return Err(io::Error::from(ErrorKind::InvalidInput));
        }
    }
    OpenOptions::new()
        .read(true)
        .append(true)
        .create(true)
        .open(rt, path)
}

// Puts a line after those of a file.
fn append<R: Files<File = File> + AllocGlobal>(rt: &R, path: &str, line: &str) -> io::Result<()> {
    let mut file = open_after(rt, path)?;
    let text = text_after(rt.alloc(), last_of(&mut file)?, line)?;
    let written = file.write_all(text.as_bytes());
    drop(text);
    written
}

/// Puts a mark with the time of this machine after those of a file: its line.
pub fn write_mark<R: Files<File = File> + Clock + AllocGlobal>(
    rt: &R,
    path: &str,
    curtain: Curtain,
) -> io::Result<String>
    ensures { IfOk result (λ line. IsLineOf curtain (string_bytes line)) }
{
    let at = rt.since_1970()?.as_secs();
    let marked = mark_line(rt.alloc(), Mark { at, curtain })?;
    match append(rt, path, marked.as_str()) {
        Ok(()) => Ok(marked),
        Err(why) => {
            drop(marked);
            Err(why)
        }
    }
}

/// Puts a mark with the time of this machine into a file, and says it.
pub fn mark_curtain<R: Files<File = File> + Clock + Eprint + AllocGlobal, W: Write>(
    rt: &R,
    path: &str,
    curtain: Curtain,
    writer: &mut W,
) -> Result<(), Ending>
    ensures { OnOk result (marking.IsSaid curtain (W.contents writer.old) (W.contents writer.new)) }
{
    match write_mark(rt, path, curtain) {
        Ok(marked) => print(writer, marked.as_str()),
        Err(why) => {
            say(rt, format_args!("{path}: {why}"));
            Err(Ending::Failed)
        }
    }
}
