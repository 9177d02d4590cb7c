//! Batches of events as bytes.
ghost use Rattle.std.specs.Prelude.{◌≡◌, ◌^◌, ◌-◌, length, min, Some, IsTrue, IfOk, IsErrOf};
ghost use Rattle.cue_records.specs.Batch.{batch_text, is_batch, IsNoBatch};
ghost use Rattle.cue_records.specs.BatchReading.{batch_of};
ghost use Rattle.cue_records.specs.Reading.{Gives};

mod kind;
mod length;
mod reading;
mod writing;

use crate::fault::ReadFault;
use cue_core::Event;
use cue_show::Bytes;
use std::alloc::{AllocError, Global};
use std::marker::Model;

/// The events of a batch, in order. `read_batch` alone makes one, since `write_batch` takes a slice of events. It gives
/// no `Vec` back: whoever has read a batch goes over its events if they lie.
#[derive(Drop)]
pub struct Batch {
    events: Vec<Event>,
}

impl Model for Batch {
    ghost use Rattle.std.specs.Prelude.{List};
    ghost use Rattle.cue_core.specs.declared.event.Event.{Event};

    ghost Value = { List Event };

    ghost view = { λ b. b.events.items };
}

impl Batch {
    /// The events, kept in the memory that they have.
    pub(crate) fn from_vec(events: Vec<Event>) -> Batch
        ensures { result ≡ events.items }
    {
        Batch { events }
    }

    /// The events.
    pub fn as_slice(&self) -> &[Event]
        ensures { result.now ≡ self.now }
    {
        self.events.as_slice()
    }
}

/// How many bytes the encoding of the events has, or the most that 64 bits hold if it has more.
pub fn batch_len(events: &[Event]) -> u64
    ensures { result ≡ min (length (batch_text events.now)) (2 ^ 64 - 1) }
{
    length::events_len(events).saturating_add(2)
}

/// The encoding of a batch: 1 to 4,096 events, each within its ranges. Events that may happen to a state one after the
/// other, as those of `judge` may, are within them. It takes memory once, as much as the encoding has bytes.
pub fn write_batch(alloc: Global, events: &[Event]) -> Result<Bytes, AllocError>
    requires { IsTrue (is_batch events.now) }
    ensures { IfOk result (λ bytes. bytes ≡ batch_text events.now) }
{
    let mut out = Vec::with_capacity(alloc, batch_len(events) as usize)?;
    out.extend_from_slice(&(events.len() as u16).to_be_bytes())?;
    writing::put_events(&mut out, events)?;
    Ok(Bytes::from_vec(out))
}

/// The batch whose encoding the bytes are, all of the bytes.
pub fn read_batch(alloc: Global, bytes: &[u8]) -> Result<Batch, ReadFault>
    // What is read is a batch, and the bytes are its encoding.
    ensures found { IfOk result (λ batch. IsTrue (is_batch batch) × (bytes.now ≡ batch_text batch)) }
    // The encoding of a batch is never refused as malformed.
    ensures only { IsErrOf result ReadFault.Malformed → IsNoBatch bytes.now }
    // What is read is what reading from front to back finds.
    ensures exact { Gives (λ batch. batch) result (batch_of bytes.now) }
{
    reading::batch_of(alloc, bytes)
}
