//! A rehearsal as a machine over values: what each rehearsed device answers, and what is said of it.
//!
//! Each device of `cue_rehearsal` has a *seat*: the place of its socket, with who ordered it last. The rehearsal hears
//! datagrams, each at the socket of a place, and is woken when the machine of a device comes to an end, or when an
//! abort is to be sent again. What happens in a turn is a *deed* (`specs/Deeds.antt`); what is given for it, and what
//! is left after it, stands in `specs/Steps.antt`. `laws` says what every rehearsal comes to.
//!
//! Why it is so:
//! - At a wake one device has its turn. If something is due of another the machine is woken again at once: so a turn is
//!   small, and one for which there is no memory has changed nothing.
//! - A device is never copied. What it would answer is asked first, and it hears the datagram once there was room for
//!   that: so a turn for which there is no memory has changed nothing.
//! - Draws are a value that is copied: those of a turn for which there is no memory are not used up.
//! - An answer that nobody asked for goes to who sent the order that the machine began with last, and not to who sent
//!   any datagram last: a stranger gets no answer but to orders of his own.
//! - A line that could not be printed ends the rehearsal: nobody would see what the devices do.
//!
//! Only tested: the text of a line.
#![tactic(auto)]

pub mod laws;
mod lines;
mod living;
mod machine;
mod seat;

pub use living::run;
pub use machine::RehearsalMachine;
pub use seat::{Role, Seat};
