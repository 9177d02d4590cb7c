//! What a cue controller sends: replies, the status, and the orders that the devices are still to answer.
//!
//! Each datagram is an OSC message with the port of this machine that it goes to. Nothing here opens a socket. What is
//! sent is data first, `Send` in `specs/Sending.antt`; bytes arise in one place, `datagram`, from the grammar of
//! `cue_osc`. Laws say that what is sent is read as what was meant.
//!
//! Why it is so:
//! - The numbers of a reply are 16-bit, since a datagram has at most 2,048 commands and codes end at 33; on the wire
//!   each is an int32.
//! - `reply` asks that the address holds no null, instead of cutting it there: a cut would send an address that nobody
//!   asked for. The check sees it of every caller.
//! - The numbers that a batch asks for are determined by membership and order: a strictly rising list is determined by
//!   its members, so `numbers_asked` is exact without a definition that sorts.
#![tactic(auto)]

mod asked;
pub mod laws;
mod message;
mod orders;
mod out;
mod queue;
mod replies;
mod status_reply;

pub use asked::numbers_asked;
pub use orders::{pending, pending_of};
pub use out::Out;
pub use queue::Queue;
pub use replies::reply;
pub use status_reply::status;
