//! The outputs of one turn, in a buffer that is used again for the next.
ghost use Rattle.std.specs.Prelude.{◌≡◌, ◌<◌, ◌++◌, [], ◌∷◌, Some, IfOk, OnOk, length, slice_get};
ghost use Rattle.cue_machine.specs.Posting.{given_as};

use crate::post::Output;
use std::alloc::{AllocError, Global};
use std::marker::Model;

// An output, and where its bytes stand.
#[derive(Clone, Copy, Debug)]
struct Entry {
    output: Output,
    start: usize,
    end: usize,
}

/// Outputs, in order, each with its bytes.
#[derive(Drop)]
pub struct Outputs {
    entries: Vec<Entry>,
    bytes: Vec<u8>,
}

impl Model for Outputs {
    ghost use Rattle.std.specs.Prelude.{List};
    ghost use Rattle.cue_machine.specs.Posting.{Given};

    ghost Value = { List Given };

    ghost use Rattle.std.specs.Prelude.{length};
    ghost use Rattle.cue_machine.specs.Buffers.{AllWithin, given_all};

    ghost view = { λ o. given_all o.bytes.items o.entries.items };

    ghost invariant = { λ o. AllWithin (length o.bytes.items) o.entries.items };
}

impl Outputs {
    /// None, with room for so many of them, and for so many bytes.
    pub fn with_room(alloc: Global, outputs: usize, bytes: usize) -> Result<Outputs, AllocError>
        ensures { IfOk result (λ out. out ≡ []) }
    {
        let entries = Vec::with_capacity(alloc, outputs)?;
        let bytes = Vec::with_capacity(alloc, bytes)?;
        Ok(Outputs { entries, bytes })
    }

    /// How many there are.
    pub fn len(&self) -> usize
        ensures { result ≡ length self.now }
    {
        self.entries.len()
    }

    /// The one of this place, with its bytes.
    pub fn at(&self, place: usize) -> (Output, &[u8])
        requires { place < length self.now }
        ensures { slice_get self.now place ≡ Some (given_as result.0 result.1.now) }
    {
        let entry = self.entries[place];
        (entry.output, &self.bytes[entry.start..entry.end])
    }

    /// None are left. The room stays.
    pub fn clear(&mut self)
        ensures { self.new ≡ [] }
    {
        self.entries.clear();
        self.bytes.clear();
    }

    /// One more, the last. If there is no room it takes memory.
    pub fn push(&mut self, output: Output, bytes: &[u8]) -> Result<(), AllocError>
        ensures { OnOk result (self.new ≡ self.old ++ given_as output bytes.now ∷ []) }
    {
        let start = self.bytes.len();
        self.bytes.extend_from_slice(bytes)?;
        let end = self.bytes.len();
        self.entries.push(Entry { output, start, end })?;
        Ok(())
    }
}
