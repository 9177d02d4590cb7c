//! The page, served to the browsers of this machine: connections that keep nobody waiting, and what each is answered.
//!
//! A request is read by `cue_request`; a press is one step of the desk (`cue_desk_run`), and its answer is the view
//! that follows. A round never waits: `Connections::admit` takes the connections that wait, at most 64, and
//! `Connections::serve` hears and answers each. If memory runs out while an answer is made, that connection is closed,
//! and the others go on.
//!
//! Why it is so:
//! - Many connections side by side, each for a second: a browser opens connections before it needs them and says
//!   nothing on them. At most 128 stay open, each with at most 9 kB. If there is no room for one more, the one that has
//!   waited longest is closed; each is heard before that, so hundreds that say nothing keep nobody waiting.
//! - What the lock counts of wrong words goes from each connection to the next: nobody tries more words by opening more
//!   of them.
//! - Who closes only its own way of speaking, as `nc` does, is answered, if its request came whole.
//! - After an answer the rest of the request is read and dropped, for a second at most: a socket that is closed with
//!   bytes unread resets the connection, and the answer may be lost.
//! - A head that grows byte by byte is read when its end has come, and no more often; the page is one text, which each
//!   connection is lent: who asks slowly, or reads nothing, costs little.
//! - The text of the newest view is kept until the next view: ten who ask for it cost one drawing.
//!
//! Only tested: how long a connection has, and what it reads and sends.
#![tactic(auto)]

mod connections;
mod pages;
mod wire;

pub use connections::Connections;
pub use cue_connection::CurtainMove;
pub use pages::{Beside, Pages};
