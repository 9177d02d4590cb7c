//! What is told of a load: each line that it says or prints, which of them and in what order, how the command ends, and
//! the names of the copies that it keeps. Nothing here opens a file or a socket; `Progress` alone
//! prints, to a writer that it is given.
//!
//! A line is a value, `Said` or `Printed`; its text is stated byte for byte (`specs/Words.antt`, `specs/Counted.antt`,
//! `specs/LiveCues.antt`). Which lines are said of what became of a load is `specs/Telling.antt`, how the command ends
//! `specs/Endings.antt`, what a copy has `specs/Copied.antt`, and how it is named `specs/Copies.antt`; whether a store
//! that was read is the one which the controller serves `specs/Looking.antt`, and how far a load has come
//! `specs/Progress.antt`. What a person may rely on is in `laws`.
//!
//! Why it is so:
//! - Status 0 says that nothing was refused and, if the folder of the store is known, that the store is what the file
//!   says. So the end of the machine alone never decides it.
//! - A name of a copy is made of the name of the show file, and of nothing else: so the copy stands beside it. A copy
//!   that is loaded itself has its copies beside the same show file.
//! - What was refused or not acknowledged is named with the entry that it was asked for, by the reply of that entry.
//!
//! What the system says of a file or a socket that failed has no stated text: the edge puts it after the line.
#![tactic(auto)]

mod adding;
mod copied;
mod copies;
mod ending;
pub mod laws;
mod live;
mod looking;
mod planning;
mod printed;
mod progress;
mod said;
mod subject;
mod telling;

pub use adding::{Added, answers_of};
pub use copied::copied_of;
pub use copies::{Attempt, Keeping, Kept, MAX_KEPT, kept_name, next_of, stem_of, went_out};
pub use ending::{done_by, ended_by, ending_of, ending_of_machine, some_refused};
pub use live::LiveCues;
pub use looking::{Look, Stored, look_of};
pub use planning::planned_from;
pub use printed::{KeptWords, Kind, Printed, PrintedWords};
pub use progress::Progress;
pub use said::{About, Loaded, Said, SaidWords};
pub use telling::{
    Comparison, PlanLines, added_line, compare, lines_of_plan, lines_of_refusals, replaced_line,
};
