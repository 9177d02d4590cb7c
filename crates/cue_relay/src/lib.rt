//! The relay between the controller, which listens on 127.0.0.1 alone, and devices on the stage's network: which
//! datagrams it hands on, and what it knows of each device. `cue_relay_machine` hands them on.
//!
//! A *route* is a device's number, its local port and its own address. It has two sockets, its *openings*: one on the
//! controller's side, one on the stage's. How a datagram goes on is decided in three steps: from whom (`way_of`,
//! `specs/Relaying.antt`): only from the controller, or only from the device's own address, each by the other socket of
//! the same route; what it says (`message_in`, `specs/Messages.antt`): to the controller one of the four answers of
//! that very device, to the stage a reply or an order to it, byte for byte; how much (`Meter`, `specs/Rates.antt`): of
//! each device at most 100 a second go on to the controller. All else is dropped. `specs/Relayed.antt` says what is
//! handed on of all that comes; what that comes to in a whole life are laws of `cue_relay_machine`. The laws here
//! (`specs/Silences.antt`) say who may be silent, and who may still move.
//!
//! Why it is so:
//! - Two sockets for each device: one at 0.0.0.0 would be open on each network of the machine. One port for each
//!   device: through a relay each route is one device's.
//! - Answers and orders, and nothing else: by address and port alone the box of any device could give a cue, or remove
//!   the show. A comparison with the four answers takes no memory. A number below 1 is no attempt's: such an answer is
//!   dropped, and not refused with code 5.
//! - A hundred a second is far above what a device has to answer, and far below what the controller can judge and sync.
//!   The hundredth before decides, so there is no window at whose edge two hundred could pass, and no credit that is
//!   saved up. Times that are still to come count as past: a clock that is put back lets a hundred more through at
//!   once, and blocks nobody. What would have gone on counts also if it could not be sent.
//! - A device is silent if its answer is due: after a standby or a cancel, five seconds without any, half of the time
//!   to stand by. After a GO the answer comes at the end of the motion, and nobody can know when that is; so a GO ends
//!   a silence. An answer for another number is a sign of life and settles nothing.
//! - No queue: a datagram that cannot be sent at once is lost, as on any network, and the controller repeats. A queue
//!   would deliver orders late.
//! - What a device tells of itself stays here (*claims*, `specs/Claims.antt`): it is shown as told by the device, and
//!   nothing is decided by it. So it is kept apart from what the relay knows, and it takes nothing of the hundred.
//! - The status is a file that is replaced whole, ten times a second: whoever only looks needs no permission to speak
//!   to the relay, and a relay that has stopped shows by the age of its file.
//! - Only IPv4, as four numbers: a name would be looked up by a service that may be slow or wrong in the middle of an
//!   evening.
//!
//! A status is written and read here (`specs/Status.antt`): a text is read exactly if it is that of a status, byte for
//! byte.
#![tactic(auto)]

mod address;
mod claims;
mod fields;
mod going;
mod hearing;
pub mod laws;
mod messages;
mod motion;
mod pieces;
mod rate;
mod relaying;
mod route;
pub mod status;
mod telling;

pub use claims::{Claim, Claims, MAX_UNIT, MAX_WORDS, Position, Reason, Unit, Words, claim_in};
pub use going::{Going, way_and_message};
pub use hearing::{Contact, News, Pending, SILENCE, hearing_limits};
pub use messages::{Message, message_in};
pub use motion::Motion;
pub use rate::{Meter, RATE, SECOND, admit, meters};
pub use relaying::{Counts, Relay};
pub use route::{Address, Opening, Route, Side, Way, way_of};
pub use telling::claim_from;
