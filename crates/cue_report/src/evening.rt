//! The evening: what the lines of a log say together.
ghost use Rattle.std.specs.Prelude.{◌≡◌, [], OnOk, if◌then◌else◌};
ghost use Rattle.cue_report.specs.Evening as spec;
ghost use Rattle.cue_report.specs.Marks.{within};
ghost use Rattle.cue_report.specs.Picture.{nothing, picture};
ghost use Rattle.cue_report.specs.Range.{has};

mod asking;
mod counting;
mod following;
mod hearing;
mod repeating;
mod replies;

use crate::attempt::Who;
use crate::attempts::Attempts;
use crate::cutting::Cutter;
use crate::dates::Times;
use crate::marks::{Mark, Marks};
use crate::range::Range;
use asking::Asking;
pub use counting::{Totals, totals_of};
use repeating::Repeats;
use std::alloc::{AllocError, Global};

/// The most things that `serve` did, and the most refusals, that are kept; others are counted.
const MOST: usize = 1_000;

/// What `serve` did, and when, in seconds since 1970.
#[derive(Drop)]
pub struct Done {
    pub at: u64,
    pub said: String,
}

/// A command that was refused, or several that the log counted: then nobody is seen who asked.
#[derive(Drop)]
pub struct Refusal {
    pub at: u64,
    pub by: Who,
    /// Its address, code and reason.
    pub said: String,
}

/// How many lines there were of each kind.
#[derive(Clone, Copy)]
pub struct Counts {
    /// Lines of the log.
    pub told: u64,
    /// Lines that are none of the log.
    pub others: u64,
    /// Lines of the log that stood there twice.
    pub repeated: u64,
    /// Lines of the log of another part of the evening.
    pub outside: u64,
}

/// Things of which the first are kept, and the others counted.
#[derive(Drop)]
pub struct Kept<T> {
    pub items: Vec<T>,
    pub more: u64,
}

impl<T: Drop> Kept<T> {
    fn new(alloc: Global) -> Kept<T>
        ensures items { result.items.items ≡ [] }
        ensures more { result.more ≡ 0 }
    {
        Kept {
            items: Vec::new(alloc),
            more: 0,
        }
    }

    // Keeps the next one, or counts it.
    fn push(&mut self, item: T) -> Result<(), AllocError>
        ensures kept { OnOk result (self.new.items.items ≡ spec.kept_with self.old.items.items item) }
        ensures more { OnOk result (self.new.more ≡
            (if spec.has_room self.old.items.items then self.old.more else spec.more_by 1 self.old.more)) }
    {
        if self.items.len() < MOST {
            self.items.push(item)?;
        } else {
            self.more = self.more.saturating_add(1);
        }
        Ok(())
    }
}

/// An evening, as far as its log was heard.
#[derive(Drop)]
pub struct Evening {
    alloc: Global,
    cutter: Cutter,
    repeats: Repeats,
    asking: Asking,
    /// Whether `serve` runs, as far as the log says.
    is_running: bool,
    /// Whether the last line was one that stood there before.
    is_repeating: bool,
    /// Whether the last line with a date was of another part of the evening.
    is_outside: bool,
    /// How many seconds a clock on the wall is ahead of UTC, and which part of the evening is told.
    pub ahead: i64,
    pub range: Range,
    pub counts: Counts,
    /// The seconds of the first and of the last line.
    pub first: Option<u64>,
    pub last: Option<u64>,
    pub deeds: Kept<Done>,
    pub attempts: Attempts,
    pub refusals: Kept<Refusal>,
    /// How many refusals there were, with those that the log counted and did not tell.
    pub refused: u64,
    /// When the curtain went up and down, in this order, and how many lines of the marks are none.
    pub marks: Vec<Mark>,
    pub unread_marks: u64,
}

impl Evening {
    /// An evening of which nothing was heard.
    pub fn new(alloc: Global) -> Evening
        ensures { picture result.attempts ≡ nothing }
    {
        let counts = Counts {
            told: 0,
            others: 0,
            repeated: 0,
            outside: 0,
        };
        Evening {
            alloc,
            cutter: Cutter::new(alloc),
            repeats: Repeats::new(alloc),
            asking: Asking::new(alloc),
            is_running: false,
            is_repeating: false,
            is_outside: false,
            ahead: 0,
            range: Range::ALL,
            counts,
            first: None,
            last: None,
            deeds: Kept::new(alloc),
            attempts: Attempts::new(alloc),
            refusals: Kept::new(alloc),
            refused: 0,
            marks: Vec::new(alloc),
            unread_marks: 0,
        }
    }

    /// How the times of the evening are shown.
    pub fn times(&self) -> Times
        ensures { result ≡ spec.times self.now.ahead self.now.first }
    {
        Times {
            ahead: self.ahead,
            first: self.first.unwrap_or(0),
        }
    }

    // Whether what was written at a second is told.
    fn is_told(&self, at: u64) -> bool
        ensures { result ≡ has self.now.range self.now.ahead at }
    {
        self.range.has(self.ahead, at)
    }

    /// Takes the marks of a file. Those of another part of the evening are left out.
    pub fn take_marks(&mut self, marks: &Marks) -> Result<(), AllocError>
        ensures marks { OnOk result (self.new.marks.items ≡
            within self.old.range self.old.ahead marks.now.list.items) }
        ensures unread { OnOk result (self.new.unread_marks ≡ marks.now.unread) }
        ensures attempts { picture self.new.attempts ≡ picture self.old.attempts }
    {
        self.marks = marks.within(self.alloc, self.range, self.ahead)?;
        self.unread_marks = marks.unread;
        Ok(())
    }
}
