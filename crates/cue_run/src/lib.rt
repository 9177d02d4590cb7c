//! The run of a show: the loop between where datagrams and ticks come from and where datagrams go.
//!
//! What a run makes is a function of the inputs that it took: they are the first ones that the source gave, and state
//! and wire are what the engine's own definition of a run makes of them. Nothing is handed over
//! for an input that was not taken. `UdpSource` and `UdpWire` report nothing; what holds of them is what is proved of
//! the same loop over every source and wire.
//!
//! Why it is so:
//! - A run may be watched; a watch cannot change the show, nor what is sent over a wire that reports. It is shown the
//!   state after the whole group, and its batches, so the log lets the events happen to a state of its own.
//! - Each turn of a run by groups is an offer and a commit, also a tick and a datagram that comes alone: a round has
//!   one way through it. A tick is a group of its own. Nothing that waits keeps a tick back, since after each group the
//!   source looks at its clock. A group is handed out input by input: the log takes the notes of each apart.
//! - A fault ends a group and not its inputs: what was offered before is committed and handed out, and then the fault
//!   is reported.
//! - The fault that ends a run is explained by the keeper's own word, of the keeper that met the last input.
#![tactic(auto)]

mod groups;
pub mod laws;
mod turns;
mod watch;

pub use cue_engine::{
    MemAnswer, MemSource, Receive, Source, SourceFault, Tries, Turn, UdpReceiver, UdpSource,
    UdpWire, Waiting, first_turn, local, udp_limits,
};
pub use groups::{MAX_TOGETHER, run, run_grouped, run_watched};
pub use turns::{Ended, RunFault};
pub use watch::{Unwatched, Watch};
