//! Show files and stores, as the commands of the desk read them. What is said of a text, and how a command ends, is
//! decided by `cue_findings`; here a file is opened, and each line is said or printed.
//!
//! No contract names what a file has, or what is on standard error. So a function that reads a file hands its text to
//! one that speaks of texts.
#![tactic(auto)]

mod shows;
mod stores;

pub use cue_findings::{Sound, words};
pub use shows::{check_file, read_file, read_sound};
pub use stores::{export, open_store};
