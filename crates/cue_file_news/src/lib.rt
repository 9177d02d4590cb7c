//! What is new of a show file while a desk shows it: when it is read again, whether what was read is shown, and what is
//! told of it. Nothing here opens a file, or reads a clock.
//!
//! A desk looks at its show file once a second: at what the system says of it, not at its bytes. `FileWatch` hears what
//! each look found, and asks for a reading (`specs/Looks.antt`). It hears what each reading gave, and says what became
//! of it: a `ShowFile` that is to be shown, or mistakes (`specs/Judging.antt`). It hears since when the new file is
//! shown, and says what is told now (`specs/Told.antt`). All that happened are turns (`specs/Turns.antt`); the law
//! (`specs/Laws.antt`) speaks of these alone, never of what the machine keeps.
//!
//! Why it is so:
//! - A file is read once two looks in a row found the same: an editor may still be writing what looked otherwise a
//!   second ago. A file that is gone for one look is an editor that puts another one in its place.
//! - What was read counts only if a look after it finds the same once more: an editor may begin to write while the file
//!   is read.
//! - While an attempt is live nothing is read: the largest show file takes a while, and GO and CANCEL wait for
//!   nothing.
//! - What was read within four seconds of a change is read again at each look until then: file systems count time in
//!   steps, and within one a file may change twice (`stamps` of `cue_desk`).
//! - That a file was read is told from the moment at which it was first shown: to read a large one takes a while.
//! - What stands open at the start stays: the port of the controller and the devices of a relay. What a new file has
//!   otherwise is told, and counts from the next start.
//! - If memory runs out, a reading counts for nothing: the file is read again after the next look.
//!
//! Only tested: the line of the first mistake.
#![tactic(auto)]

mod judging;
mod keeping;
pub mod laws;
mod looking;
mod telling;
mod watching;

pub use keeping::{Kept, Later, later_of};
pub use looking::{Look, Reading};
pub use watching::{Became, FileReading, FileWatch};
