// Records that are appended together: they are kept as an area stores them, so that writing them takes no memory.
ghost use Rattle.std.specs.Prelude.{◌≡◌, ◌+◌, [], ◌∷◌, ◌++◌, length, IfOk, OnOk, OnErr};
ghost use Rattle.cue_log.specs.Area.{room_of};
ghost use Rattle.cue_log.specs.Reading.{payloads_in};
ghost use Rattle.cue_log.specs.Record.{AreFramed};

use crate::area::{CLOSED, OPEN};
use crate::record::Record;
use std::alloc::{AllocError, Global};
use std::marker::Model;

/// How many bytes a group has room for at first: most have one record, of a command.
const ROOM: usize = 128;

/// Records that are appended together, by `Log::append_all`: a stop leaves none of them or all. Contracts see the list
/// of their payloads.
#[derive(Debug, Drop)]
pub struct RecordGroup {
    // each record after an open gate, and a closed gate after the last
    bytes: Vec<u8>,
    count: u64,
}

impl Model for RecordGroup {
    ghost use Rattle.std.specs.Prelude.{List, ℕ};
    ghost use Rattle.cue_log.specs.Reading.{payloads_in};
    ghost use Rattle.cue_log.specs.Record.{IsGroup};

    ghost Value = { List (List ℕ) };

    ghost view = { λ group. payloads_in group.bytes.items };

    ghost invariant = { λ group. IsGroup group.bytes.items group.count };
}

impl RecordGroup {
    /// A group without a record.
    pub fn new(alloc: Global) -> Result<RecordGroup, AllocError>
        ensures { IfOk result (λ group. group ≡ []) }
    {
        let mut bytes = Vec::with_capacity(alloc, ROOM)?;
        bytes.push_reserved(CLOSED);
        Ok(RecordGroup { bytes, count: 0 })
    }

    /// Adds a record after the others. It takes memory, so that appending the group takes none. If there is none,
    /// the group stays as it was.
    pub fn push(&mut self, added: &Record) -> Result<(), AllocError>
        ensures ok { OnOk result (self.new ≡ self.old ++ added.now ∷ []) }
        ensures err { OnErr result (self.new ≡ self.old) }
    {
        let last = self.bytes.len() - 1;
        self.bytes.extend_from_slice(&added.text()[1..])?;
        self.bytes[last] = OPEN;
        self.count += 1;
        Ok(())
    }

    /// How many records there are.
    pub fn count(&self) -> u64
        ensures { result ≡ length self.now }
    {
        self.count
    }

    /// What an area stores of them, from the first gate on.
    pub(crate) fn text(&self) -> &[u8]
        ensures framed { AreFramed result.now }
        ensures payloads { payloads_in result.now ≡ self.now }
        ensures len { length result.now ≡ room_of self.now + 1 }
    {
        &self.bytes
    }
}
