//! The run of a load: sockets, files and the output around `cue_load_machine`, which decides what is sent, what a
//! reply means, and when a load is over, and around `cue_load_words`, which decides which lines are said, how the
//! command ends, whether a store that was read is the one that is served, and how the copies are named. There is no text
//! here.
//!
//! A load that is done gives the store that it read last, which is what the file says: `Stored` is made of a status and
//! of a state alone, so no body that leaves the last reading out has one.
//!
//! Why it is so:
//! - Each life of a machine has sockets of its own: so what is replied late to an earlier one is never heard.
//! - Each socket is connected to the controller's port. So the system says at it that nobody listens there.
//! - What the store had is written by the post of the machine, beside the show file: it goes out before any message.
//!
//! No contract names what a file or a socket gave, or what is on standard error. So of the store in a folder it is
//! stated what follows from the show that was read of it, and not that it is the one which the controller serves. That
//! no file is written over is stated of how a copy is opened, and not of what the system does then.
#![tactic(auto)]

mod adding;
mod copying;
mod loading;
mod looking;
mod posting;
mod replacing;
mod running;

pub use cue_load_words::Loaded;
pub use loading::{Done, load, loaded};
