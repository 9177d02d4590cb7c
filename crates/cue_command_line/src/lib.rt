//! The command line of `cuectl`, read over `clap`: which command its words name, or why they name none.
//!
//! `specs/Lines.antt` has the commands as clap knows them, and says which one the words name. Port 0 is refused here,
//! and so is a line without a command, which clap takes. Each command is built in a function of its own: `clap` does
//! not export the field `has_globals`, so a clause says what follows from it: wherever the command is put, it is the
//! same there (`FitsAnywhere`).
#![tactic(auto)]

mod reading;
mod words;

pub use reading::line;
pub use words::{Line, LineFault};
