//! OSC 1.0 address patterns: which addresses a pattern matches.
//!
//! Contracts see a `Pattern` as a list of parts, each a list of pieces: one byte (`?`), any text (`*`), one of the
//! listed bytes, one of the unlisted bytes, one of some texts, or a byte itself. `specs/Grammar.antt` says which bytes
//! spell such a list, `specs/Meaning.antt` which addresses it denotes. A pattern is cut at each slash first, so nothing
//! in it matches across one.
//!
//! Why it is so:
//! - A pattern is gone over twice. The first pass counts its parts and pieces and takes no memory, so a bad pattern is
//!   distinguished from a refused allocation in every case.
//! - A part is matched from its end to its front: a mark for each position of the text says whether the remaining
//!   pieces match from there on. Each step is one clause about suffixes. The time is bounded by the pieces of a part
//!   times the bytes of the text.
//! - Many names are matched side by side, 64 in a word (`Part::matches_each`). For each position there is a word with a
//!   bit for each name, and the same steps move all of them with one `&` or `|`. So one datagram with a pattern of
//!   thousands of pieces does not hold a controller up that has a thousand names. Each name has a lane of its own: what
//!   is proved of a step is what is proved of it over one text. A table says where each letter stands; it has only `.`
//!   to `9`, and rows for 16 bytes, so that it is made anew for each pattern at the cost of a step. Other names, and a
//!   few names, are matched one by one.
#![tactic(auto)]

mod cut;
mod each;
mod fault;
mod lane_steps;
mod lanes;
pub mod laws;
mod limits;
mod literal;
mod pattern;
mod piece;
mod positions;
mod ranges;
mod texts;
mod token;

pub use cut::cut_first;
pub use fault::Fault;
pub use limits::MAX_SHORT;
pub use literal::is_literal;
pub use pattern::Pattern;
pub use piece::{Part, Piece};
pub use ranges::{Range, Ranges};
pub use texts::{Text, Texts};
