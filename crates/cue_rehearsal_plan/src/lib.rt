//! Who is rehearsed and how, what of a plan does not fit its show file, and what is told of a rehearsal. Nothing here
//! opens a file or a socket, or prints.
//!
//! A plan is `Plan` of `cue_rehearsal`. `roles_of` gives each device of a show file its manner and its address
//! (`specs/Roles.antt`), `unknown_devices` the devices that a plan names and the file does not have
//! (`specs/Unknown.antt`); each line is stated byte for byte (`specs/Words.antt`). What a person may rely on is in
//! `laws`.
//!
//! Why it is so:
//! - A plan that names a device which the file does not have is a slip: played as it is, the device that was meant would
//!   play along. So each is named at once, and nothing is played.
//! - A rehearsed device is at its port of this machine, whatever address the file gives it: the relay does not go to it.
#![tactic(auto)]

pub mod laws;
mod naming;
mod roles;
mod saying;
mod sign;

pub use naming::unknown_devices;
pub use roles::{addresses_of, roles_of};
pub use saying::{PlanPlace, UnknownWords, ending_of, fault_text, plays_line, why_words};
pub use sign::{is_up, sign_path};
