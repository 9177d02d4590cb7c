//! Scripts: lines of text that stand for datagrams, ticks and power losses, and what is sent for them. A script is run
//! on two new disks in memory, and prints each datagram that is sent, a line `> PORT HEX`.
//!
//! | Line | What happens |
//! |---|---|
//! | `d NOW FROM HEX` | the datagram HEX comes from port FROM at the time NOW, in milliseconds |
//! | `t NOW` | a tick at the time NOW |
//! | `x` | the power is lost, and the show is recovered |
//!
//! What a script writes is a stated function of its text (`specs/Script.antt`), over the engine's own definition of a
//! run: so each law of the engine holds of what a script prints. How it ends, and with which last line and status,
//! stands in `specs/Endings.antt`: a line of no form ends it with `! BadLine`, a text of more than 1,048,576 bytes
//! prints `! BadInput` alone.
//!
//! Why it is so:
//! - The calls of the reader and the writer are counted (`Streams`): the contracts of the standard library do not say
//!   when such a call fails. So by the public contract a script may end with `! Io` or `! Memory` at any time; that a
//!   call failed then is proved inside the crate. Of such an ending nothing is said of what was written.
//! - A line's text is made whole before any of it is written: if memory runs out, nothing of it is printed.
//! - A line turns over at most once, and a text has fewer lines than there are generations: no `! Exhausted` comes.
//! - An engine is passed by value from line to line: a power loss takes its two disks out, crashes them and recovers.
#![tactic(auto)]

mod ending;
mod entry;
pub mod laws;
mod line;
mod play;
mod print;
mod stream;

pub use ending::{Ending, Failure, StreamFailure};
pub use entry::{MAX_SCRIPT, script};
