//! The run of the desk: the sockets, the files and the clocks around the machine of `cue_station`. Nothing here waits,
//! but for one call that is made between two rounds.
//!
//! No contract can say what a socket, a file or a clock gives. So what is decided is decided in `cue_station`, over
//! values, and here stands what brings them: what was read is given with a moment that was taken before the reading
//! began, and a step is made with a moment that was taken after it.
//!
//!     let mut desk = Desk::new(rt, &sources)?;
//!     for _ in 0..u64::MAX {
//!         // presses first: desk.press(number, button)
//!         desk.round()?;                  // hears answers, looks at the store and at the relay, lets time pass
//!         draw(desk.view());
//!         desk.wait(20)?;                 // until something comes, and at most so many milliseconds
//!     }
//!
//! Why it is so:
//! - One loop in one thread: a thread for the files would need a lock, and a press would still have to wait for whoever
//!   holds it.
//! - Each ask has a socket of its own, connected to the port of `serve`: a reply belongs to its ask by the port at
//!   which it comes, a datagram of another program is dropped by the system, and the system says at once that nobody
//!   listens. At most three are open: the newest question for the status and two presses.
//! - All letters leave by one way out (`Outlet`), which counts them and keeps the newest. No contract can say what a socket
//!   does; so this says what was handed to it, and a letter that leaves twice, or another one, is refused.
//! - A press may carry a name: its socket sends `/as/NAME` first, once, and then the message. The controller refuses
//!   the name, which puts it into the log; that reply has another address than the press, and so is none to it. A
//!   question for the status carries none: it would put a line into the log ten times a second.
//! - A copy of the store is read whole, and taken apart only if its bytes are not those of the last copy. The store is
//!   read again only if its files may have changed (`stamps` of `cue_desk`). The board does not ask for the lock, so it
//!   is never in the way of a `serve`. It does not look at the generations of the areas instead: a record that is added
//!   changes none of them.
//! - What a relay wrote more than five seconds ago by the clock of the wall counts as not read: a desk that has just
//!   begun would take the last words of a relay that stopped an hour ago for new ones. Later the desk goes by its own
//!   clock, since when the stamp has not changed.
//! - A command that is typed is no desk: it is a machine of its own (`cue_ask_machine`), which makes the same letters and
//!   reads what comes in the same way.
//!
//! Only tested: the sockets, the files, the times.
#![tactic(auto)]

mod addresses;
mod alarms;
mod ask;
mod asks;
mod clocks;
mod desk;
mod devices;
mod failing;
pub mod laws;
mod letters;
mod looks;
mod outlet;
mod plain;
mod reading;
mod relay;
mod shelf;
mod sources;
mod stamps;

pub use addresses::local;
pub use alarms::AlarmsFile;
pub use clocks::{Beat, wall_time};
pub use desk::Desk;
pub use plain::{open_plain, text_within};
pub use relay::read_status;
pub use sources::Sources;
