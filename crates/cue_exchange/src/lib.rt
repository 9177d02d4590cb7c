//! The two-phase exchange with the devices of a cue: the attempts that are live, and what each of their devices has
//! answered. It knows no table of devices, no clock and no network: numbers, deadlines and parts are handed in.
//!
//! Contracts see a `Live` as the list of its attempts by rising number (`specs/Live.antt`, `specs/Answers.antt`,
//! `specs/Steps.antt`). No device is in two attempts, and no decision is taken back.
//!
//! Why it is so:
//! - A list by rising number and not a map: a start is an append, an answer a `map`, an end a `filter`, what is due
//!   comes in order, and a test on a number speaks of one attempt.
//! - The rules of an attempt hold no more than the attempt can know. Rules of a whole state are in `cue_core`.
//!   `can_start` names the ranges of number and deadline, so an event that may be applied has a stored form.
//! - Excused is an answer, beside the flag, and one rule ties the two: only an optional device is excused. So go, the
//!   outcome and the pending list look at answers alone.
//! - An optional device may be excused also when it is ready: an operator may see that it should not move.
//! - An excused device stays in its attempt until that ends: it was ordered to prepare and does not know that it is
//!   excused, so no other cue may have it. It never comes back either: what the operator has seen at go is what is
//!   carried out. A cancel counts it as let go, in the same event, and nothing is sent to it.
//! - An optional device of a decided attempt counts fully: what it fails at is a failure of the cue.
//! - The index by device holds the number of the attempt and not its place, since places move when an attempt ends; 0
//!   means none.
#![tactic(auto)]

pub mod answers;
pub mod attempt;
mod holders;
pub mod laws;
pub mod limits;
pub mod live;
pub mod situation;
mod steps;

pub use answers::Answers;
pub use attempt::{Answer, Attempt, DeviceAnswer, Outcome, Reason, Stage};
pub use live::Live;
pub use situation::Situation;
