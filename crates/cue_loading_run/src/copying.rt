//! What the store had before a load changes it is kept as a show file, beside the one that is loaded.
ghost use Rattle.std.specs.Prelude.{◌≡◌, IfOk, true};
ghost use Rattle.std.specs.Fs.{asks_create_new};
ghost use Rattle.cue_load_words.specs.Copies.{IsBeside};

use cue_load_words::{Attempt, Keeping, Kept, MAX_KEPT, kept_name, next_of, stem_of};
use std::fs::{self, File, Files, OpenOptions};
use std::io::{self, ErrorKind, Write};

// How a copy is opened: only if nothing stands there.
fn as_new() -> OpenOptions
    ensures { asks_create_new result ≡ true }
{
    let mut options = OpenOptions::new();
    options.write(true).create_new(true);
    options
}

// Writes a new file. One that could not be written whole is taken away again: it was not there before.
fn write_new<R: Files<File = File>>(rt: &R, path: &str, text: &[u8]) -> io::Result<()> {
    let mut file = as_new().open(rt, path)?;
    let written = file.write_all(text);
    if written.is_err() {
        let _ = fs::remove_file(rt, path);
    }
    drop(file);
    written
}

// Keeps the text in this file, if nothing stands there. What cannot be read there is another text.
fn attempt<R: Files<File = File> + AllocGlobal>(
    rt: &R,
    path: &str,
    text: &[u8],
) -> io::Result<Attempt> {
    match write_new(rt, path, text) {
        Ok(()) => Ok(Attempt::Written),
        Err(why) if why.kind() != ErrorKind::AlreadyExists => Err(why),
        Err(_) => match fs::read_to_string(rt, path) {
            Ok(other) if other.as_bytes() == text => Ok(Attempt::HasSame),
            _ => Ok(Attempt::HasOther),
        },
    }
}

/// Keeps the text beside the show file of this path, in the first file that has it already, or that is not there. No
/// file is written over.
pub fn keep_beside<R: Files<File = File> + AllocGlobal>(
    rt: &R,
    path: &str,
    text: &[u8],
) -> io::Result<Kept>
    ensures { IfOk result (λ kept. IsBeside path.now kept) }
{
    let mut number = 1;
    for _ in 0..MAX_KEPT {
        let name = kept_name(rt.alloc(), stem_of(path), number)?;
        match next_of(number, attempt(rt, name.as_str(), text)?) {
            Keeping::Kept => return Ok(Kept::In(name)),
            Keeping::Next(next) => number = next,
            Keeping::Full => return Ok(Kept::Full),
        }
    }
    Ok(Kept::Full)
}
