//! What the command `relay` plans and says, apart from what its machine does. Nothing here prints or opens a socket.
//!
//!     let plan = plan_of(alloc, said, &file)?;
//!
//! `plan_of` says by a show file which devices are relayed, at which addresses, and what a file lacks for it
//! (`specs/Planning.antt`). What is said stands byte for byte in `specs/Words.antt`. That each device of the stage's
//! network is relayed to its own address, and at a port of its own, is in `laws`.
//!
//! Why it is so:
//! - Two devices with an address may not share a port: one socket cannot stand for both, since a datagram that comes
//!   there does not say for which of them it is. A file that a controller serves may have such devices, so the relay is
//!   what refuses it.
//! - A device without an address is on this machine: it has no route, and the controller reaches it as it is.
#![tactic(auto)]

pub mod laws;
mod planning;
mod words;

pub use planning::{Lack, Plan, PlanFault, plan_of};
pub use words::{Begun, DiskWords, LackWords, ended_words};
