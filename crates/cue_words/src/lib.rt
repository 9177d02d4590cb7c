//! Codes, stages and answers in words, the same ones in the log of an evening and at the desk; a state as text; and
//! what of a text a screen may get.
//!
//! The words are tables. A code comes as its number: `number_words` in `specs/CodeWords.antt` says the words of a code,
//! 1 to 20, or of the refusal of a datagram, 30 to 33, and `refused` for any other number. `specs/Answered.antt` has a
//! word for each answer, reason and outcome; the text of a state is a stated function of it (`specs/ShowText.antt`).
//!
//! A text of a file reaches no screen as it is: a control can write over what a terminal shows, a mark of direction
//! turns the rest of a line round, and a mark without width is not seen at all. Each becomes a question mark
//! (`specs/Signs.antt`). That takes from a name the joiners of a few scripts and of some pictures; a mark that belongs
//! to the letter before it, as an accent, stays.
#![tactic(auto)]

mod codes;
mod exchange;
pub mod laws;
mod signs;
mod state;

pub use codes::code_words;
pub use exchange::{answer_words, outcome_words, reason_words, recovered_words};
pub use signs::{is_shown, shown, shown_text};
pub use state::show_text;
