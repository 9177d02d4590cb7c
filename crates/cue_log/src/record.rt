// A record: a payload that is kept as an area stores it, so that writing it takes no memory.
ghost use Rattle.std.specs.Prelude.{◌≡◌, ◌<◌, ◌≤◌, ◌+◌, ◌↔◌, ◌∷◌, [], length, IfOk};
ghost use Rattle.std.specs.Prelude.{IsErrOf};
ghost use Rattle.cue_log.specs.Reading.{payloads_in};
ghost use Rattle.cue_log.specs.Record.{IsFramed, AreFramed, payload_in};

use crate::area::{CLOSED, FRAME_LEN, MAX_PAYLOAD, OPEN};
use std::alloc::{AllocError, AllocFailed, Global};
use std::marker::Model;
use thiserror::Error;

/// Why a payload is not made into a record.
#[derive(Clone, Copy, Debug, PartialEq, Eq, Error)]
pub enum RecordFault {
    /// The payload is longer than `MAX_PAYLOAD`.
    #[error("the payload is too long for a record")]
    TooLong,
    /// Out of memory.
    #[error("out of memory")]
    Memory,
}

impl From<AllocError> for RecordFault {
    ghost use Rattle.cue_log.specs.declared.record.RecordFault.TheVariants.{Memory};
    ghost use Rattle.std.specs.Prelude.{◌≡◌};

    ghost from_gives = { λ _ fault. fault ≡ Memory };

    fn from(_: AllocError) -> RecordFault {
        RecordFault::Memory
    }
}

/// A payload of at most `MAX_PAYLOAD` bytes, ready to be appended. Contracts see it as the list of its bytes.
#[derive(Debug, Drop)]
pub struct Record {
    // open gate, length, payload, closed gate
    bytes: Vec<u8>,
}

impl Model for Record {
    ghost use Rattle.std.specs.Prelude.{List, ℕ};
    ghost use Rattle.cue_log.specs.Record.{IsFramed, payload_in};

    ghost Value = { List ℕ };

    ghost view = { λ record_. payload_in record_.bytes.items };

    ghost invariant = { λ record_. IsFramed record_.bytes.items };
}

impl Record {
    /// Frames a payload, which takes memory once, so that appending it takes none.
    pub fn of(alloc: Global, payload: &[u8]) -> Result<Record, RecordFault>
        ensures ok { IfOk result (λ framed. framed ≡ payload.now) }
        ensures too_long { IsErrOf result RecordFault.TooLong ↔ (MAX_PAYLOAD < length payload.now) }
    {
        if payload.len() > MAX_PAYLOAD {
            return Err(RecordFault::TooLong);
        }
        Ok(Record::of_short(alloc, payload)?)
    }

    /// The same for a payload that is known not to be too long.
    pub(crate) fn of_short(alloc: Global, payload: &[u8]) -> Result<Record, AllocError>
        requires { length payload.now ≤ MAX_PAYLOAD }
        ensures { IfOk result (λ framed. framed ≡ payload.now) }
    {
        let bytes = frame(alloc, payload)?;
        Ok(Record { bytes })
    }

    /// The bytes that it was made of.
    pub fn payload(&self) -> &[u8]
        ensures payload { result.now ≡ self.now }
        ensures short { length result.now ≤ MAX_PAYLOAD }
    {
        &self.bytes[FRAME_LEN..self.bytes.len() - 1]
    }

    /// What an area stores of it, from its gate on.
    pub(crate) fn text(&self) -> &[u8]
        ensures framed { AreFramed result.now }
        ensures payload { payloads_in result.now ≡ self.now ∷ [] }
        ensures len { length result.now ≡ FRAME_LEN + 1 + length self.now }
    {
        &self.bytes
    }
}

// The bytes that an area stores of a payload: an open gate, its length, itself, and a closed gate.
#[tactic(auto, unfolding(crate::specs::Area::four_bytes))]
fn frame(alloc: Global, payload: &[u8]) -> Result<Vec<u8>, AllocError>
    requires { length payload.now ≤ MAX_PAYLOAD }
    ensures framed { IfOk result (λ bytes. IsFramed bytes.items) }
    ensures payload { IfOk result (λ bytes. payload_in bytes.items ≡ payload.now) }
{
    let mut bytes = Vec::with_capacity(alloc, FRAME_LEN + 1 + payload.len())?;
    bytes.push(OPEN)?;
    bytes.extend_from_slice(&(payload.len() as u32).to_be_bytes())?;
    bytes.extend_from_slice(payload)?;
    bytes.push(CLOSED)?;
    Ok(bytes)
}
