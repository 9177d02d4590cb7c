//! The devices that do not stand as the stack supposes, for people: as lines of a board, and whether STANDBY asks once
//! more because of one. Nothing here decides which they are: `cue_whereabouts` does.
//!
//! The lines are made of the differences and the names of a show file alone (`specs/Lines.antt`). That they name each
//! of these devices, or say how many are left, is a law (`src/laws.rt`); when STANDBY asks, is `specs/Asking.antt`.
//!
//! Why it is so:
//! - What is a fact comes first on a line, and its name and the bytes of its part after that: what has no room is cut
//!   off at the end of the line.
//! - A device of which nothing was heard is neither right nor elsewhere. On a desk that was started late there may be
//!   many: they are counted, in one line, and STANDBY does not ask because of them. Who is asked in vain each time no
//!   longer reads the question.
//! - STANDBY asks because of devices of the cues that it stands by, and of no others.
#![tactic(auto)]

mod asking;
pub mod laws;
mod lines;
mod words;

pub use asking::asks;
pub use lines::elsewhere_lines;
pub use words::part_words;
