//! The run of a rehearsal: every device of a show file at its own port. What they answer is decided by
//! `cue_rehearsal_machine`, who is played and what is told by `cue_rehearsal_plan`; here are the sockets, the clock, and
//! the sign that it runs.
#![tactic(auto)]

mod planning;
mod playing;
mod sign;

pub use cue_rehearsal_plan::sign_path;
pub use planning::{fits, plan_of, say_fault, say_unknown};
pub use playing::play;
pub use sign::{Sign, is_raised, raise_sign};
