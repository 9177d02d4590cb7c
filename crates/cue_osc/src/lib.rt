//! OSC 1.0 packets: what a datagram says, and the one spelling of what is to be said.
//!
//! `view` says what a packet says, as a value without places (`Content` in `specs/Content.antt`). The grammar spells
//! such values as bytes. `read` answers Ok exactly for what is spelled so, and else the first fault from front to back;
//! `write` gives the one spelling, which is read as the same packet. Nothing is copied: the addresses, texts and blobs
//! of a packet are slices of the datagram.
//!
//! Why it is so:
//! - The items of a bundle are a plain `Vec<Packet>`: a type of the crate's own would contain itself through `Packet`,
//!   and its model would need a code by hand. Contracts see a packet through the fold `view`.
//! - The time tags of an enclosing and an enclosed bundle are not compared (OSC 1.0 asks that the inner one be not
//!   earlier). A bundle that is later is refused whole at any depth, and times in the past are carried out at once, so
//!   what the comparison would refuse does no harm.
//! - OSC 1.0 allows a receiver to reject a message with unknown tags; here it is discarded and kept apart from a fault,
//!   so that the sender gets an answer for that message alone.
//! - `write` measures before it writes: TooLong is known before anything is allocated, so it comes exactly when it
//!   should.
#![tactic(auto)]

mod fault;
pub mod laws;
mod limits;
mod packet;
mod plain;
mod reading;
mod walking;
mod writing;

pub use fault::{Fault, WriteFault};
pub use limits::{BUNDLE_HEAD, MAX_DEPTH, MAX_LEN};
pub use packet::{Arg, Args, Message, Packet};
pub use reading::read;
pub use writing::{write, write_message};
