//! The command `new`.
ghost use Rattle.std.specs.Prelude.{◌≡◌, IfOk, OnOk, string_bytes};
ghost use Rattle.std.specs.Io.KnownBytes.{Appends};
ghost use Rattle.cuedesk.specs.NewFiles as new;

use cue_desk::ending::Ending;
use cue_saying::{print, say};
use cue_show_file::BEGINNING;
use std::alloc::{AllocError, Global};
use std::fs::{self, File, Files, OpenOptions};
use std::io::{self, Eprint, ErrorKind, Write};

// How the command ends if a file could not be made or written.
fn unmade(kind: ErrorKind) -> Ending
    ensures { result ≡ new.unmade kind }
{
    match kind {
        ErrorKind::AlreadyExists => Ending::Refused,
        _ => Ending::Failed,
    }
}

// Says why a file was not made.
fn say_unmade<R: Eprint>(rt: &R, path: &str, why: &io::Error) -> Ending {
    let ending = unmade(why.kind());
    match ending {
        Ending::Refused => say(
            rt,
            format_args!("{path}: it is there already, and stays as it is: take another name"),
        ),
        _ => say(rt, format_args!("{path}: {why}")),
    }
    ending
}

// Writes the file. One that could not be written whole is taken away again: it was not there before.
fn fill<R: Files<File = File> + Eprint>(rt: &R, path: &str, file: &mut File) -> Result<(), Ending> {
    match file.write_all(BEGINNING.as_bytes()) {
        Ok(()) => Ok(()),
        Err(why) => {
            let _ = fs::remove_file(rt, path);
            Err(say_unmade(rt, path, &why))
        }
    }
}

// The line that says what to do next.
fn made_line(alloc: Global, path: &str) -> Result<String, AllocError>
    ensures { IfOk result (λ line. string_bytes line ≡ new.made_words path.now) }
{
    format!(in alloc;
        "{path} is written. Change it to your show, then look at it: cuedesk check {path}\n"
    )
}

/// Writes a show file to begin with, and says what to do next. A file that is there stays as it is.
pub fn write_new<R: Files<File = File> + Eprint + AllocGlobal, W: Write>(
    rt: &R,
    path: &str,
    writer: &mut W,
) -> Result<(), Ending>
    ensures { OnOk result (Appends (W.contents writer.old) (W.contents writer.new) (new.made_words path.now)) }
{
    let made = OpenOptions::new()
        .write(true)
        .create_new(true)
        .open(rt, path);
    match made {
        Ok(mut file) => fill(rt, path, &mut file)?,
        Err(why) => return Err(say_unmade(rt, path, &why)),
    }
    let text = made_line(rt.alloc(), path)?;
    print(writer, text.as_str())
}
