//! Machines over values, and the one loop that runs them. A machine decides, and touches no socket, file or clock; the
//! loop (`live`) touches all of them through `Ears` and `Post`, and decides nothing.
//!
//! Why it is so:
//! - A test of a machine is a list of values, and its law a contract over all lists of what may come.
//! - What came and what goes out have bytes beside them, and no bytes within: so both are small values that are copied,
//!   and a datagram is lent to the machine where it lies.
//! - A machine puts its outputs into a buffer that the loop lends it again for each turn: no datagram takes memory once
//!   the buffer has grown. A sink that posts at once would spare a copy of some 30 bytes, and would let a machine post
//!   before it has decided; here the loop alone posts, and it is proved once.
//! - Of what could not be posted the machine is told at once. So when it wants to be woken can rest on that; and since
//!   the ears are asked with that moment, no loop that hears before it has posted meets the contract.
#![tactic(auto)]

mod address;
mod ears;
mod living;
mod machine;
mod mem;
mod outputs;
mod post;

pub use address::Address;
pub use ears::{Ears, EarsFault, Input, Turn};
pub use living::{Ended, Room, Why, live};
pub use machine::Machine;
pub use mem::{MemAnswer, MemEars, MemPost, Sent};
pub use outputs::Outputs;
pub use post::{Output, Post, PostFault};
