//! One question to the controller as a machine over values: what is sent for the words that were typed, which reply is
//! its own, and when it is over.
//!
//! A *letter* is the one message of a command, and what its reply is known by. The desk sends its letters from sockets
//! of its own (`cue_desk_run`) by `send_letter`, and reads what comes by the same `Letter::answer_in`.
//!
//! A command that is typed is a life of `AskMachine`: it says who asks, if there is a name and
//! more than the status is asked, sends the message, and waits a second for its reply. What a step gives, and what comes after it, stands in `specs/Steps.antt`; `ask` says what a
//! whole life sends and tells, and `laws` what no life does.
//!
//! Why it is so:
//! - The name and the message go out in turns of their own: so the machine knows which of the two was lost. A system may
//!   say of the message that it did not leave, since nobody heard the name: then it is sent again, once.
//! - What a machine hears before its message has left is no reply to it, and is passed over.
//! - The second begins when the message leaves. No reply of this machine takes as long, and stray datagrams neither
//!   lengthen nor shorten it.
//! - A datagram for which there is no memory ends the life: what it says is not known then.
#![tactic(auto)]

mod answers;
pub mod laws;
mod letters;
mod living;
mod machine;
mod naming;
mod question;
mod sending;
mod stage;

pub use letters::{Letter, is_status, letter_with};
pub use living::{ask, run};
pub use machine::{AskMachine, home};
pub use naming::name_datagram;
pub use question::Question;
pub use sending::send_letter;
pub use stage::{AskEnd, Stage};
