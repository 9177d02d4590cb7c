//! What was heard and not taken, counted by kind.
use cue_midi::Kind;
use std::alloc::{AllocError, Global};
use std::fmt::Write as _;

/// What was heard and is no key.
#[derive(Clone, Copy, PartialEq, Eq, Debug)]
pub enum Passed {
    /// A note that is no key.
    Note(u8),
    /// A controller that is no key.
    Controller(u8),
    /// A command of show control for another device or format.
    Elsewhere,
    /// Another message.
    Other(Kind),
}

impl Passed {
    /// In words.
    pub fn words(self, alloc: Global) -> Result<String, AllocError> {
        match self {
            Passed::Note(note) => format!(in alloc; "note {note}"),
            Passed::Controller(number) => format!(in alloc; "controller {number}"),
            Passed::Elsewhere => String::from_str(alloc, "show control for others"),
            Passed::Other(kind) => String::from_str(alloc, kind_words(kind)),
        }
    }
}

// A kind of message in words.
fn kind_words(kind: Kind) -> &'static str {
    match kind {
        Kind::NoteOff => "notes off",
        Kind::KeyPressure => "key pressure",
        Kind::Program => "program changes",
        Kind::ChannelPressure => "channel pressure",
        Kind::PitchBend => "pitch bends",
        Kind::Common => "common messages",
        Kind::RealTime => "real time",
        Kind::Exclusive => "exclusive messages",
        Kind::Long => "long exclusive messages",
        Kind::Cut => "cut messages",
    }
}

/// How often each kind was heard. There are not more than 270 kinds.
#[derive(Drop)]
pub struct Tally {
    counts: Vec<(Passed, u64)>,
}

impl Tally {
    /// Nothing was heard yet.
    pub fn new(alloc: Global) -> Tally {
        Tally {
            counts: Vec::new(alloc),
        }
    }

    /// Counts one more. Answers whether it is the first of its kind.
    pub fn count(&mut self, passed: Passed) -> Result<bool, AllocError> {
        for entry in self.counts.iter_mut() {
            if entry.0 == passed {
                entry.1 = entry.1.saturating_add(1);
                return Ok(false);
            }
        }
        self.counts.push((passed, 1))?;
        Ok(true)
    }

    /// All counts in words, as `20 of notes off, 3 of real time`; empty if nothing was heard.
    pub fn text(&self, alloc: Global) -> Result<String, AllocError> {
        let mut text = String::new(alloc);
        for entry in &self.counts {
            let comma = if text.is_empty() { "" } else { ", " };
            let count = entry.1;
            let words = entry.0.words(alloc)?;
            let words = words.as_str();
            write!(text, "{comma}{count} of {words}")?;
        }
        Ok(text)
    }
}
