//! The encodings that a store keeps of a show: the bytes of states and of batches of events, and how they are read
//! again.
//!
//! Spelling functions over the values of `cue_core` say which bytes stand for a value (`batch_text`, `state_text`);
//! docs/FORMAT.md says the same in tables. A batch has one encoding, and a state at most one in each version of the
//! format. Laws tie reading to spelling. Nothing here knows a disk.
//!
//! Why it is so:
//! - Any fault of an encoding is Malformed, whichever comes first: nobody acts on where an encoding is bad. Another
//!   version is a fault of its own, seen by the first byte alone, so a newer store is never called damaged.
//! - Devices of an attempt are not stored: they are those of its cue's parts, which cannot change while it is live. Any
//!   deadline of 64 bits is good.
//! - `write_batch` asks for events within the ranges and tests nothing; the law `acceptable_events_fit` gives it to
//!   whoever has events that may happen.
//! - A cue without an optional part keeps its old encoding, kind `03`: every batch of an older store means what it
//!   meant, and each cue has one encoding.
//! - Version 1 of a state is read and never written; the next turn-over writes version 2. Nothing is written again at
//!   opening, since recovery writes at most its one batch. It keeps its limit of 256 cues: no program ever wrote more.
//! - The payload of a record stays at 32,768 bytes although a datagram may ask for more: what does not fit is refused
//!   whole with code 33. So 256 records and the largest snapshot have room in an area.
//! - An encoding takes memory once. `write_state` reserves `MAX_STATE_BYTES`, since a state would otherwise be gone
//!   through twice. That number is computed from the limits of shows and attempts; one law states today's value.
#![tactic(auto)]

mod batch;
mod fault;
mod fields;
pub mod laws;
mod limits;
mod parts_form;
mod state;

pub use batch::{Batch, batch_len, read_batch, write_batch};
pub use fault::{ReadFault, StateFault};
pub use limits::{MAX_EVENTS, MAX_STATE_BYTES, OLD_MAX_CUES};
pub use state::{OLD_VERSION, VERSION, read_state, write_state};
