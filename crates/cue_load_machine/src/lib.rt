//! A load as a machine over values: what it sends, which replies are its own, when it is over, and what it came to.
//!
//! `add_entries` adds what a show file has; `plan_load` puts it in the place of what a store has. What a step gives, and
//! what comes after it, stands in `specs/Steps.antt`; `laws` says what each life comes to.
//!
//! Why it is so:
//! - A message that asks one thing is sent again by another socket: so a late reply is hardly taken for that to another
//!   one. There are 32 sockets; after the last the first is used again.
//! - The time for the replies to a bundle begins anew with each that comes: a load that goes on does not end for it.
//! - That nobody listens is heard, and ends the load at once. Whoever starts the controller then loads again.
//! - What is told is counted only from replies: `answers_in` gives nothing unless each has its own.
#![tactic(auto)]

mod adding;
mod agreeing;
mod answering;
mod asks;
mod becoming;
mod deciding;
mod differing;
pub mod laws;
mod letters;
mod living;
mod machine;
mod order;
mod planned;
mod stage;

pub use adding::{Entry, add_entries};
pub use agreeing::{agrees, live_cues, show_in};
pub use answering::{answers_in, status_in};
pub use asks::{Ask, Form, Refusal};
pub use becoming::{Became, Counts, became_of, count_answers, count_cues, count_devices};
pub use differing::{changes_stored, is_left, is_refused};
pub use living::advance;
pub use machine::LoadMachine;
pub use order::comes_late;
pub use planned::{Copied, Planned, is_exact, plan_load, removes, rests};
pub use stage::{LoadEnd, SOCKETS, Stage, Try, Waits};
