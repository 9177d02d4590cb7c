//! The relay as a machine over values: what it hands on, what it says of its devices, and its status.
//!
//! It hears datagrams, each at the socket of a *place*, and is woken each tenth of a second (*tick*). Which datagrams
//! go on, and how, is what `cue_relay` says; one that goes on leaves by the socket across, with its own bytes. A GO is
//! sent again 7 and 14 milliseconds later (a *copy*), as long as no other order to its device comes
//! (`specs/Copies.antt`). What a step gives, and what the relay knows after it, stands in `specs/Steps.antt`, and each
//! line, byte for byte, in `specs/Texts.antt`; the text of the status is that of `cue_relay`. What a device tells of itself
//! (a *claim*) is kept beside what is known of it, and shown in the status: nothing is decided by it. `run` says what a
//! whole life sends, and `laws` what no life does, and what each does.
//!
//! Why it is so:
//! - A step first gives all that needs memory, and only then asks the meter of the device, which notes that something
//!   went on: so a step for which there is no memory has noted nothing.
//! - That the status could not be written is said a tick later, before the next one: a machine is told what was lost,
//!   and gives nothing for that.
//! - What is known of each device is made anew at each tick, and takes the place of what was known once all is given.
//! - The counts stay at the highest number that there is room for. No relay comes to that.
//! - Places and not openings: the loop knows nothing of routes.
//! - At a wake nothing is sent but copies of a GO, and a copy is sent at no other time. So what was lost of what was
//!   sent at a wake is no datagram that the counts know.
//! - A copy that is late is never sent: after 20 milliseconds, or if the clock was put back, the controller's own next
//!   GO does what it would have done.
//! - A GO that waits is kept in place (`ShortBytes`): no datagram takes memory for it.
//!
//! Only tested: the date of a line.
#![tactic(auto)]

mod books;
mod copies;
mod known;
pub mod laws;
mod lines;
mod living;
mod machine;
mod places;
mod status;

pub use books::Books;
pub use copies::{Said, Waiting};
pub use known::Known;
pub use living::run;
pub use machine::RelayMachine;
pub use places::addresses;
