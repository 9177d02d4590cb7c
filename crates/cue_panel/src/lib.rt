//! A panel of buttons as a machine over values: bytes of MIDI, moments and views go in; presses and lines come out.
//! Nothing here opens a device, reads a clock, or sends anything.
//!
//! `Panel::hear` takes a byte with the view that is shown: what the byte finishes is a message, and a message presses
//! once at most (`specs/Taking.antt`). What came of a press it is told (`Panel::came`), and it looks at each view for
//! what became of the last two (`Panel::look`). Each line is a value, `Line`, whose text is stated (`specs/Lines.antt`).
//! `Wish` is a press by a word: it is tried until it is sent, and then waited for (`specs/Wishing.antt`). `Listening`
//! says when a device is opened and looked at, and what is told of it (`specs/Listening.antt`).
//!
//! The laws, over all lists of what happens (`laws`): each press comes of one message that was heard, by the hand that
//! all before has made, and of the view that was shown then; no message presses twice; what waited in the device
//! presses nothing; a wish is sent once at most, is of the view of its turn, and ends in time.
//!
//! Why it is so:
//! - What decides needs no memory: who plays, what was dropped and what is pending are values of fixed size. Memory is
//!   for lines alone. If it runs out at a message, that one presses nothing, or its press is sent and not told of.
//! - A press that is pending is kept as its source and its button, and put into words when it is told.
//! - Of two presses the end is told, since a CANCEL may follow a GO of which nobody knows yet what became.
//!
//! Only tested: what is counted of messages that nobody takes, why an intent presses nothing, in words, and what a
//! command of show control is that intends nothing, in words.
#![tactic(auto)]

mod dropped;
pub mod laws;
mod line;
mod lines;
mod listening;
mod lit;
mod outcome;
mod panel;
mod pending;
mod player;
mod taking;
mod telling;
mod wish;

pub use dropped::Dropped;
pub use line::Line;
pub use lines::Lines;
pub use listening::{Listening, Notice, Pace, Silence, notice_of, notice_text, pieces};
pub use outcome::{Outcome, outcome_of};
pub use panel::Panel;
pub use pending::{Pending, Pendings, What};
pub use player::{Player, Setting};
pub use taking::{Source, Strike, Taken, strike_of};
pub use wish::{Act, End, Hindrance, PATIENCE, Stage, Wish};
