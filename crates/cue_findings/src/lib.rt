//! What is made of the text of a show file by the commands of the desk: whether it is taken, what is said of it, and how
//! the command ends. Nothing here opens a file, or prints.
//!
//! `judge` takes a text that has no mistake, and gives each mistake of another one (`specs/Judging.antt`). `found_in` is
//! all that the command `check` finds (`specs/Checking.antt`). A finding is a value of `cue_show_file`; how its line
//! begins is stated byte for byte, and so is each other line (`specs/Words.antt`). What a person may rely on is in
//! `laws`.
//!
//! Why it is so:
//! - `check` says more than is refused by the others: what a controller takes, and an evening may not, is a mistake
//!   there alone. So a board begins with a file that `check` would refuse; without one nobody would see a cue.
//! - Of a file of which nothing could be read it is not said that it is empty.
//!
//! Only tested: the words of a mistake, and what the system says of a file that cannot be read.
#![tactic(auto)]

mod checking;
mod judging;
pub mod laws;
mod lines;
mod unread;

pub use checking::{Found, found_in, sound_line};
pub use judging::{Judged, Looked, Sound, judge};
pub use lines::{FindingWords, Kind};
pub use unread::{unread_words, words};
