//! The word of the lock of a page, as the command line has it or a file.
use super::beside::text_of;
use cue_desk::ending::Ending;
use cue_desk_line::{LockWord, PageUse};
use cue_request::lock::is_word;
use cue_saying::say;
use std::fs::{File, Files};
use std::io::{self, Eprint};

/// The most bytes that are read of the file with the word.
const MAX_BYTES: u64 = 4_096;

// The front of a file.
fn front_of<R: Files<File = File> + AllocGlobal>(rt: &R, path: &str) -> io::Result<String> {
    text_of(rt.alloc(), File::open(rt, path)?, MAX_BYTES)
}

// The word in the first line of a text, which is that of this file; else why there is none is said.
fn first_word<R: Eprint + AllocGlobal>(rt: &R, path: &str, text: &str) -> Result<String, Ending> {
    let word = text.lines().next().unwrap_or("");
    if is_word(word.as_bytes()) {
        return Ok(String::from_str(rt.alloc(), word)?);
    }
    say(
        rt,
        format_args!(
            "{path}: its first line is to be the word of the lock: 1 to 64 letters, digits and signs of \
            ASCII, without spaces"
        ),
    );
    Err(Ending::Refused)
}

// The word in the first line of this file; else why there is none is said.
fn word_in<R: Files<File = File> + Eprint + AllocGlobal>(
    rt: &R,
    path: &str,
) -> Result<String, Ending> {
    match front_of(rt, path) {
        Ok(text) => first_word(rt, path, text.as_str()),
        Err(why) => {
            say(rt, format_args!("{path}: {why}"));
            Err(Ending::Failed)
        }
    }
}

/// The word of the lock of a page, if it has one; else why it cannot be had is said.
pub fn lock_word<R: Files<File = File> + Eprint + AllocGlobal>(
    rt: &R,
    page_use: &PageUse,
) -> Result<Option<String>, Ending> {
    match page_use {
        PageUse::Plays(Some(LockWord::Said(word))) => Ok(Some(word.clone()?)),
        PageUse::Plays(Some(LockWord::InFile(path))) => Ok(Some(word_in(rt, path.as_str())?)),
        PageUse::Plays(None) | PageUse::Shows(_) => Ok(None),
    }
}
