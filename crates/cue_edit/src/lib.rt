//! What somebody changes in a show file, as a new text of it. Nothing here opens a file.
//!
//!     match apply(alloc, text, &file, &edit)? {
//!         Ok(edited) => keep(edited.text.as_str()),     // `edited.file` is what it says
//!         Err(fault) => say(fault),                     // the text stays as it is
//!     }
//!
//! An `Edit` names a cue and one change of it: its name, note, colour or flag, its place, or a copy of it under another
//! number. What a change makes of the cues is `specs/Editing.antt`; how the text is rewritten,
//! `specs/Rewriting.antt`.
//!
//! Why it is so:
//! - One piece of the text is written anew, or carried to another place, and all others stay: so comments, blank lines
//!   and the order of the keys are those of the person who wrote the file.
//! - A new text is read and checked like any file before it is given out, and compared with what was asked for. So what
//!   is found in the text need not be trusted: a file that is written in another way than this crate knows is refused,
//!   and stays as it is.
//! - A comment right above a cue belongs to it, and goes with it.
//!
//! Only tested: that a change is made if the file is written as `written` writes it, or as the examples are.
#![tactic(auto)]

mod comparing;
mod edit;
mod editing;
mod finding;
pub mod laws;
mod rewriting;
mod words;

pub use edit::{Change, Edit, EditFault, Sign};
pub use editing::{Edited, apply};
pub use rewriting::Rewrite;
pub use words::{done_words, refused_words};
