//! The log of the evening: lines on standard error that say what a show was asked, what it sent, and how each attempt
//! went.
//!
//! The log looks on while the show runs: after each input it reads the input's account (`cue_engine`), its events and
//! the state, and on a *logged wire* which of its datagrams left. It can change neither the show nor what is sent. The
//! attempts are followed in a table (`course`), eight at most.
//!
//! Why it is so:
//! - The run and its contract know nothing of the log. One that wrote as it sends would not know the cue of an order,
//!   nor why an attempt ended.
//! - The run shows the state after a whole group. The log lets the events of each input happen to a state of its own,
//!   so its lines are those of inputs that come one by one. It is a copy, since nobody else needs the states between:
//!   the kept state is already ahead, and the draft is behind it until the engine rests.
//! - What keeps a command from being made is looked up only if no later command of the datagram changed the state.
//! - Anybody on this machine can have a reply refused as often as he likes. So refusals that are alike are counted, and
//!   so is what is beyond twenty a second: the count has a line before the next other one. Alike are those with the
//!   same line, so what is left out of the first twenty was said a moment before. No other line is ever left out.
//! - There is a tick four times a second. If the log did not look for more than one, it says so.
//! - If there is no memory for a line it is lost, and the show goes on. If there was none for a bit of the wire, the
//!   lines of its input are lost that say what was sent.
//!
//! What is written at a look is a total function of the state, of the events since the last look and of what was sent:
//! `looks_at` of `specs/Looks.antt`, on any paper that reports what is written on it, unless memory runs out
//! (`teller`). Only tested: that a page of standard error is written so, with its dates, and whole evenings.
#![tactic(auto)]

mod alone;
mod busy;
pub mod counts;
mod course;
pub mod holding;
pub mod laws;
mod log;
mod made;
pub mod names;
pub mod orders;
mod page;
mod paper;
pub mod reasons;
pub mod refusals;
pub mod replies;
mod sent;
mod states;
mod teller;
mod time;
mod wire;

pub use log::{EveningLog, say_ready};
pub use wire::LoggedWire;
