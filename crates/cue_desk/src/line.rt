//! Why a command line gives no command.
ghost use Rattle.clap.specs.Words.{kind_of};
ghost use Rattle.cue_desk.specs.Lines.{IsFaultOf};

use clap::Error;
use clap::error::ErrorKind;
use cue_words::shown;
use std::alloc::{AllocError, Global};

/// Why a command line gives no command.
#[derive(Drop)]
pub enum LineFault {
    /// It asks for help or for the version: this is its text.
    Help(String),
    /// The command line is not understood: at which word, and what to write there. Of its characters a terminal may get
    /// each; it may have several lines.
    Usage(String),
    Memory,
}

impl From<AllocError> for LineFault {
    ghost use Rattle.std.specs.Prelude.{◌≡◌};
    ghost use Rattle.cue_desk.specs.declared.line.LineFault.TheVariants.{Memory};

    ghost from_gives = { λ _ fault. fault ≡ Memory };

    fn from(_: AllocError) -> LineFault {
        LineFault::Memory
    }
}

// The text of what is wrong, without the word that clap puts first. The words of the command line may have come from
// anywhere, also by a copy from a page: so each character is one that a terminal may get.
fn usage_of(alloc: Global, error: &Error) -> Result<String, AllocError> {
    let whole = error.to_string(alloc)?;
    let text = whole.as_str();
    let mut usage = String::new(alloc);
    for c in text.strip_prefix("error: ").unwrap_or(text).chars() {
        usage.push(if c == '\n' { c } else { shown(c) })?;
    }
    Ok(usage)
}

/// Why there is no match: the text of the help, of the version and of what is wrong is clap's.
pub fn fault_of(alloc: Global, error: &Error) -> LineFault
    ensures { IsFaultOf (kind_of error.now) result }
{
    match error.kind() {
        ErrorKind::DisplayHelp | ErrorKind::DisplayVersion => match error.to_string(alloc) {
            Ok(text) => LineFault::Help(text),
            Err(_) => LineFault::Memory,
        },
        ErrorKind::OutOfMemory => LineFault::Memory,
        _ => match usage_of(alloc, error) {
            Ok(text) => LineFault::Usage(text),
            Err(_) => LineFault::Memory,
        },
    }
}

/// A word of the command line that is not what stands there; `wanted` says what to write, as `is no port: ..`.
pub fn unfit(alloc: Global, word: &str, wanted: &str) -> LineFault {
    let mut text = String::new(alloc);
    match push_unfit(&mut text, word, wanted) {
        Ok(()) => LineFault::Usage(text),
        Err(AllocError) => LineFault::Memory,
    }
}

// The word as a terminal may get it, and what is wanted in its place.
fn push_unfit(text: &mut String, word: &str, wanted: &str) -> Result<(), AllocError> {
    text.push_str("`")?;
    for c in word.chars() {
        text.push(shown(c))?;
    }
    text.push_str("` ")?;
    text.push_str(wanted)
}
