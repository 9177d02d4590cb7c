//! What the commands of the desk say on standard error, and how they print.
#![tactic(auto)]

mod saying;
mod shown;

pub use saying::{failed, print, say, say_fault};
pub use shown::Shown;
