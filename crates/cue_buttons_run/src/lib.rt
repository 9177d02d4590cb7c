//! A real desk at work: the device that gives MIDI bytes, and presses at a desk without a browser. A round waits a
//! moment at most.
//!
//! Why it is so:
//! - The kit opens a file without the flag that keeps it from waiting, so that is set once it is open. To open a FIFO
//!   for reading alone waits for who writes it: so a FIFO is opened for both, and outlives those who write it. A sound
//!   device that another program holds is waited for; the line before says that it is being opened.
//! - A device is read in each round, and wakes the desk when something comes (epoll). A plain file cannot wake it, and
//!   is read all the same.
//! - A device that is taken out ends the reading with an error. Of a path that names something else by now nobody
//!   tells, so it is looked at each second.
//!
//! What is decided is decided by the machines of `cue_panel`, over values: what a byte presses and what is said of it,
//! when a device is opened, how a press by a word goes on. Here stands what feeds them, each byte once and in order,
//! and does what they give, each once. What a device gives comes through a jack, which tells of it (`Jack`): so the law
//! says that what was read is heard, and nothing else.
//!
//! Only tested: what the system gives of a device, and how long it is waited for.
#![tactic(auto)]

mod console;
mod device;
mod hand;
mod hearing;
mod jack;
mod mem;
mod pressing;

pub use console::Console;
pub use device::PathJack;
pub use hand::Hand;
pub use hearing::{Ear, hear_all, hear_on};
pub use jack::{Came, Jack};
pub use mem::{MemCame, MemJack};
