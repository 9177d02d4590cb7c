//! The file of the marks of a page: which marks are shown, what a press puts into the file, and when it is read again.
//! Nothing here opens a file.
//!
//!     let text = text_after(alloc, last, line)?;      // what is put after a file with this last byte
//!     let shown = shown(alloc, &marks.list, now)?;    // what the page shows of it
//!
//! What a mark is as a line, and read again, is `cue_report`. That a mark that was pressed is in the file after it,
//! once, and that all others stay, is the law `presses_are_kept`.
//!
//! Why it is so:
//! - The file is a stage manager's: others write into it by hand. So a line is never put into the middle of another
//!   one, also if the last one has no end, and nothing that stands there is taken away.
//! - A file may have the marks of many evenings. A page shows those of half a day, and none that are still to come: a
//!   clock that was put back would show them as the last ones.
//! - It is read when the system says otherwise of it. Each mark makes it longer, so none is missed.
//!
//! Only tested: the date of a mark.
#![tactic(auto)]

pub mod laws;
mod lines;
mod showing;
mod watching;

pub use lines::text_after;
pub use showing::{EVENING, curtain_of, marks_in, shown};
pub use watching::MarksWatch;
