//! What is told of a typed command: what the controller replied, in words, or that nobody knows; and the way back from a
//! move. Nothing here prints.
//!
//! `Told::of` is the whole decision, and a table (`specs/Told.antt`). The words are stated byte for byte
//! (`specs/Words.antt`, `specs/WayBack.antt`). What a person may rely on that reads them is in `laws`.
//!
//! Why it is so:
//! - Once a message has left, nobody's silence says that nothing was carried out: it is told as not known.
//! - Several cues that are stood by together are one command; if only some of them stand by, that is told as such.
//! - A move can be undone: so the place before it is told, as the command that goes back.
//! - What is told is written without memory: a refusal is told even if memory has run out.
#![tactic(auto)]

pub mod laws;
mod told;
mod way_back;
mod words;

pub use told::Told;
pub use way_back::{WayBack, WordsBack, is_move};
pub use words::Answer;
