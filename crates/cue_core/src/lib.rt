//! The core of a cue controller: the state of a show, the events that change it, and the judging of commands.
//!
//! A state is four values: the show, the live attempts, the last number drawn, and the attempt that ended last
//! (`specs/State.antt`). A command is judged on a state by a table: the first line that holds gives a verdict (made,
//! known, or refused with a code) and at most two events (`judgement_of` in `specs/Judge.antt`). An event has one line
//! that says when it may happen and what it makes of the state (`specs/Steps.antt`). The laws (`src/laws.rt`) speak of
//! every list of events. Nothing here reads a clock, a port or a file: the time and the sender's port come with the
//! command.
//!
//! Why it is so:
//! - The tables of answers and of release get the device's whole answer record, and write out each situation that a
//!   device of a live attempt can be in, in `specs/` and in code. So a further situation is a line that somebody has to
//!   write, and never falls into another line.
//! - Release and abort of an optional device are one event, Excuse, while its attempt prepares: two events would leave
//!   the same state. In an attempt that is given up, `abort` of an optional device counts it as let go, and of a
//!   required one as failed; the outcome is the same.
//! - One fold of commands, `steps` (`specs/InTurn.antt`): the layers above have none of their own, which would need
//!   laws of its own.
//! - That an attempt has the devices and flags of its cue's parts is a rule of every state. A cue with a live attempt
//!   cannot be removed, so it costs nothing, and an encoding need not have the devices of attempts.
//!
//! Only tested, with expected values by hand: that each line of the tables is the one that was meant.
#![tactic(auto)]

pub mod command;
pub mod event;
pub mod events;
pub mod judging;
pub mod laws;
pub mod limits;
pub mod refusal;
pub mod state;

pub use command::{AnswerKind, Code, Command, Verdict};
pub use event::{Ended, Event};
pub use events::Events;
pub use judging::judge;
pub use refusal::Refusal;
pub use state::{State, apply, undecided};
