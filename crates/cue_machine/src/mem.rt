//! Ears and post in memory, for tests and proofs: they show all that was told and all that went out.
ghost use Rattle.std.specs.Prelude.{◌≡◌, ◌++◌, [], ◌∷◌, Some, IfSome, OnOk, length, map, option_map, slice_get};
ghost use Rattle.cue_machine.specs.Hearing.{IsWithin, answer_as};
ghost use Rattle.cue_machine.specs.Memory.{answer_view, loses_in, posted_by, posted_view, told_by};
ghost use Rattle.cue_machine.specs.Posting.{posted_as};

use crate::ears::{Ears, EarsFault, Input, Turn};
use crate::post::{Output, Post, PostFault};
use std::alloc::{AllocError, Global};
use std::vec::IntoIter;

/// What ears in memory are to answer: one call each.
#[derive(Debug, Drop)]
pub enum MemAnswer {
    /// This came, at a moment.
    Comes {
        now: u64,
        input: Input,
        bytes: Vec<u8>,
    },
    /// Nothing comes any more.
    End,
    /// They fail.
    Fault,
}

// What was told, and when it was to be told at the latest.
#[derive(Debug, Drop)]
struct MemTold {
    until: Option<u64>,
    answer: MemAnswer,
}

impl MemAnswer {
    // Gives the answer, cut to the buffer.
    fn give(&mut self, buffer: &mut [u8]) -> Result<Turn, EarsFault>
        ensures within { IsWithin result (length buffer.old) }
        ensures gave { answer_as result buffer.new ≡ answer_view self.new }
    {
        match self {
            MemAnswer::Comes { now, input, bytes } => {
                bytes.truncate(buffer.len());
                let n = bytes.len();
                buffer[..n].copy_from_slice(bytes);
                Ok(Turn::Comes {
                    now: *now,
                    input: *input,
                    n,
                })
            }
            MemAnswer::End => Ok(Turn::End),
            MemAnswer::Fault => Err(EarsFault),
        }
    }
}

/// Ears that give the answers of a list in turn, and then nothing more. They show what they told, until there is no
/// memory for that.
#[derive(Drop)]
pub struct MemEars {
    answers: IntoIter<MemAnswer>,
    told: Vec<MemTold>,
    shows: bool,
}

impl MemEars {
    /// Ears that are to give these answers, and have told nothing.
    pub fn new(alloc: Global, answers: Vec<MemAnswer>) -> MemEars
        ensures { told_by result ≡ Some [] }
    {
        MemEars {
            answers: answers.into_iter(),
            told: Vec::new(alloc),
            shows: true,
        }
    }

    /// When each was to be told at the latest, in order, of what was told so far; for tests.
    pub fn asked(&self, nth: usize) -> Option<Option<u64>>
        ensures { result ≡ option_map (λ t. t.until) (slice_get self.now.told.items nth) }
    {
        Some(self.told.get(nth)?.until)
    }
}

impl Ears for MemEars {
    ghost told = { told_by };

    fn hear(&mut self, until: Option<u64>, buffer: &mut [u8]) -> Result<Turn, EarsFault> {
        let mut answer = self.answers.next().unwrap_or(MemAnswer::End);
        let turn = answer.give(buffer);
        if self.told.push(MemTold { until, answer }).is_err() {
            self.shows = false;
        }
        turn
    }
}

/// What went out to a post in memory.
#[derive(Debug, Drop)]
pub struct Sent {
    pub output: Output,
    pub bytes: Vec<u8>,
    /// Whether it was lost.
    pub lost: bool,
}

/// A post in memory. It shows all that went out, until there is no memory for it.
#[derive(Drop)]
pub struct MemPost {
    alloc: Global,
    sent: Vec<Sent>,
    shows: bool,
    lose_in: u64,
}

impl MemPost {
    /// A post to which nothing was given, and which loses nothing.
    pub fn new(alloc: Global) -> MemPost
        ensures nothing { posted_by result ≡ Some [] }
        ensures loses { loses_in result ≡ 0 }
    {
        MemPost {
            alloc,
            sent: Vec::new(alloc),
            shows: true,
            lose_in: 0,
        }
    }

    /// Lets the k-th output from now be lost; with `k = 0` none is.
    pub fn lose(&mut self, k: u64)
        ensures same { posted_by self.new ≡ posted_by self.old }
        ensures loses { loses_in self.new ≡ k }
    {
        self.lose_in = k;
    }

    /// All that went out so far, in order, unless there was no memory for something.
    pub fn sent(&self) -> &[Sent]
        ensures { IfSome (posted_by self.now) (λ all. map posted_view result.now ≡ all) }
    {
        &self.sent
    }

    // Keeps what went out, if there is memory for it.
    fn keep(&mut self, output: Output, bytes: &[u8], lost: bool) -> Result<(), AllocError>
        ensures kept { OnOk result (map posted_view self.new.sent.items
            ≡ map posted_view self.old.sent.items ++ posted_as output bytes.now lost ∷ []) }
        ensures shows { self.new.shows ≡ self.old.shows }
    {
        let bytes = Vec::from_slice(self.alloc, bytes)?;
        self.sent.push(Sent {
            output,
            bytes,
            lost,
        })?;
        Ok(())
    }
}

impl Post for MemPost {
    ghost left = { posted_by };

    // What there is no memory for is lost.
    fn post(&mut self, output: Output, bytes: &[u8]) -> Result<(), PostFault> {
        let lost = self.lose_in == 1;
        self.lose_in = self.lose_in.saturating_sub(1);
        if self.keep(output, bytes, lost).is_err() {
            self.shows = false;
            return Err(PostFault);
        }
        if lost { Err(PostFault) } else { Ok(()) }
    }
}
