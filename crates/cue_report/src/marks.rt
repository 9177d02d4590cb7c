//! Marks: when the curtain went up and down, as a stage manager writes it into a file beside the log.
ghost use Rattle.std.specs.Prelude.{◌≡◌, [], IfOk, OnOk, string_bytes};
ghost use Rattle.cue_report.specs.Marks as spec;

use crate::dates::{date_of, dated};
use crate::range::Range;
use std::alloc::{AllocError, Global};

/// What the curtain did.
#[derive(Clone, Copy, PartialEq, Eq)]
pub enum Curtain {
    Up,
    Down,
}

/// A mark, and its second since 1970.
#[derive(Clone, Copy)]
pub struct Mark {
    pub at: u64,
    pub curtain: Curtain,
}

impl Curtain {
    /// The words of a mark.
    pub fn words(self) -> &'static str
        ensures { result.now ≡ spec.words self }
    {
        match self {
            Curtain::Up => "curtain up",
            Curtain::Down => "curtain down",
        }
    }

    /// What these words say; none if they are those of no mark.
    pub fn of(words: &[u8]) -> Option<Curtain>
        ensures { result ≡ spec.curtain_of words.now }
    {
        if words == b"curtain up".as_slice() {
            Some(Curtain::Up)
        } else if words == b"curtain down".as_slice() {
            Some(Curtain::Down)
        } else {
            None
        }
    }
}

/// The mark that a line is: a date as the log has it, and what the curtain did; none if it is no mark.
pub fn read_mark(line: &[u8]) -> Option<Mark> {
    let (at, words) = dated(line)?;
    match Curtain::of(words.trim_ascii()) {
        Some(curtain) => Some(Mark { at, curtain }),
        None => None,
    }
}

/// The line of a mark.
pub fn mark_line(alloc: Global, mark: Mark) -> Result<String, AllocError>
    ensures { IfOk result (λ line. spec.IsLineOf mark.curtain (string_bytes line)) }
{
    let date = date_of(alloc, mark.at)?;
    format!(in alloc; "{} {}\n", date.as_str(), mark.curtain.words())
}

/// The marks of a file.
#[derive(Drop)]
pub struct Marks {
    /// In the order of its lines.
    pub list: Vec<Mark>,
    /// How many of its lines are none.
    pub unread: u64,
}

impl Marks {
    /// No line was read.
    pub fn new(alloc: Global) -> Marks
        ensures { result.list.items ≡ [] }
    {
        Marks {
            list: Vec::new(alloc),
            unread: 0,
        }
    }

    // Takes what a line of the file is.
    fn take(&mut self, mark: Option<Mark>) -> Result<(), AllocError>
        ensures list { OnOk result (self.new.list.items ≡ spec.with_mark mark self.old.list.items) }
        ensures unread { OnOk result (self.new.unread ≡ spec.unread_with mark self.old.unread) }
    {
        match mark {
            Some(mark) => self.list.push(mark)?,
            None => self.unread = self.unread.saturating_add(1),
        }
        Ok(())
    }

    /// Reads the next line of the file.
    pub fn read(&mut self, line: &[u8]) -> Result<(), AllocError>
        ensures { OnOk result (spec.IsRead self.old.list.items self.old.unread self.new.list.items self.new.unread) }
    {
        self.take(read_mark(line))
    }

    /// Those that are of a part of an evening, where the clock on the wall is so many seconds ahead of UTC.
    pub fn within(&self, alloc: Global, range: Range, ahead: i64) -> Result<Vec<Mark>, AllocError>
        ensures { IfOk result (λ told. told.items ≡ spec.within range ahead self.now.list.items) }
    {
        let mut told = Vec::new(alloc);
        for mark in self.list.iter() {
            if range.has(ahead, mark.at) {
                told.push(*mark)?;
            }
        }
        Ok(told)
    }
}
