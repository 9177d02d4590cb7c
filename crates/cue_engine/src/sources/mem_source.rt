//! A source in memory: it gives the answers of a list, and then ends.
ghost use Rattle.std.specs.Prelude.{◌≡◌, ◌≤◌, Some, length, take};
ghost use Rattle.cue_engine.specs.Sources.{gave, cut, IsWithin};
ghost use Rattle.cue_engine.specs.MemSources.{answer_view, left_by, answers_view};

use crate::sources::source::{Source, SourceFault, Turn, Waiting};

/// What a source in memory is to answer: one call each.
#[derive(Debug, Drop)]
pub enum MemAnswer {
    /// A tick, at a time in milliseconds since 1970.
    Tick { now: u64 },
    /// A datagram from this port, at a time in milliseconds since 1970.
    Datagram { now: u64, from: u16, bytes: Vec<u8> },
    /// That nothing comes any more.
    End,
    /// A fault.
    Fault,
}

// Puts what fits of the bytes into the buffer, and answers how many that are.
fn put(bytes: &[u8], buffer: &mut [u8]) -> usize
    ensures within { result ≤ length buffer.old }
    ensures put { take result buffer.new ≡ take (length buffer.old) bytes.now }
{
    let n = bytes.len().min(buffer.len());
    buffer[..n].copy_from_slice(&bytes[..n]);
    n
}

impl MemAnswer {
    // Gives the answer.
    fn give(&self, buffer: &mut [u8]) -> Result<Turn, SourceFault>
        ensures within { IsWithin result (length buffer.old) }
        ensures gave { gave result buffer.new ≡ cut (length buffer.old) (answer_view self.now) }
    {
        match self {
            MemAnswer::Tick { now } => Ok(Turn::Tick { now: *now }),
            MemAnswer::Datagram { now, from, bytes } => {
                let n = put(bytes, buffer);
                Ok(Turn::Datagram {
                    now: *now,
                    from: *from,
                    n,
                })
            }
            MemAnswer::End => Ok(Turn::End),
            MemAnswer::Fault => Err(SourceFault),
        }
    }
}

/// A source that gives the answers of a list in turn, and then ends. It says which answers are left.
#[derive(Drop)]
pub struct MemSource {
    answers: Vec<MemAnswer>,
    given: usize,
}

impl MemSource {
    /// A source that is to give these answers.
    pub fn new(answers: Vec<MemAnswer>) -> MemSource
        ensures { left_by result ≡ Some (answers_view answers.items) }
    {
        MemSource { answers, given: 0 }
    }
}

impl Source for MemSource {
    ghost left = { left_by };

    fn next(&mut self, buffer: &mut [u8]) -> Result<Turn, SourceFault> {
        match self.answers.get(self.given) {
            Some(answer) => {
                let turn = answer.give(buffer);
                self.given += 1;
                turn
            }
            None => Ok(Turn::End),
        }
    }

    fn waiting(&mut self, buffer: &mut [u8]) -> Result<Option<Waiting>, SourceFault> {
        match self.answers.get(self.given) {
            Some(MemAnswer::Datagram { now, from, bytes }) => {
                let waiting = Waiting {
                    now: *now,
                    from: *from,
                    n: put(bytes, buffer),
                };
                self.given += 1;
                Ok(Some(waiting))
            }
            _ => Ok(None),
        }
    }
}
