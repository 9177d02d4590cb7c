//! What a desk keeps of what went wrong, as the text of a small file.
//!
//! The page of a stage manager keeps each failure until somebody presses Seen. The desk writes what it keeps into a
//! file; the same desk, once it is started again, and a page that only shows read it. So an alarm outlives the program,
//! and one that was seen is seen on each screen.
//!
//! `write` gives the text of a `Kept` and `read` what a text says: `specs/Text.antt` has the lines, and
//! `specs/Reading.antt` what is read of them. `laws` join the two: what was written is read back, whole, and a text
//! that was cut off anywhere is not read as something else.
//!
//! Why it is so:
//! - Each value has a line of its own, which a line feed ends, and a list begins with how many there are of it. So a
//!   text that ends early lacks a line, and says nothing.
//! - Numbers are read only in the digits that are written of them, and the words are those of the log.
//! - The first line has a version: a desk of another one keeps what it does not know as no text of its own.
#![tactic(auto)]

pub mod laws;
mod lines;
mod reading;
mod writing;

pub use reading::read;
pub use writing::write;

/// The version of the text.
pub const VERSION: u32 = 1;

/// How many of a kind a text may have: more than a desk keeps.
pub const MOST: u32 = 128;
