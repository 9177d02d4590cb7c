//! What a word or a key of a real desk means: which buttons of a view it presses, or why none. Nothing here opens a
//! device, reads a clock or sends anything.
//!
//! Words and keys ask for STANDBY, GO or CANCEL. STANDBY is of the cue that is next. GO and CANCEL are of the attempt
//! that is chosen; if none is chosen, of the only one that stands by. An intent that names a cue is of that cue, and of
//! no other (`specs/Meaning.antt`: `meaning`). What is pressed is pressed at a desk (`cue_desk_run`),
//! under the law of `cue_station`: a button that is not lit sends nothing.
//!
//! Why it is so:
//! - While a STANDBY of this desk awaits its attempt, a GO that names no cue means nothing: else it would be for a cue
//!   that somebody else stands by.
//! - Of several cues that stand by, none of them chosen, a GO that names none gives none, however many of them are
//!   ready: else the devices' haste would choose (`laws`).
//! - After a GO, of this desk or of another one, none of what stood by then is given by a GO that names none: the next
//!   STANDBY is awaited. A command that presses once and ends sees the GO of others in the events of the store alone.
//! - A GO that names no cue, and comes less than a second after one that was pressed, is the second tap of one finger:
//!   it is dropped, and never gives the next cue.
//! - A controller is a press when it rises to 64 or more, and was heard below 64 before, since the device was opened.
//!   Whoever holds a pedal presses once, and one that is held when the device comes presses nothing (`laws`).
//! - Nobody can say how long a byte has waited in a device. So what is there after it was opened, or after a second in
//!   which no read found it empty, is heard and not pressed, until a read has found nothing, a tenth of a second later
//!   at least (`laws`).
//!
//! Only tested: what is counted.
#![tactic(auto)]

pub mod address;
pub mod hand;
pub mod intent;
pub mod keys;
pub mod laws;
pub mod pressing;
pub mod settling;
pub mod tally;
pub mod taps;

pub use address::{Address, Spoken, spoken_to};
pub use hand::{FINGERS, Hand, Struck};
pub use intent::Intent;
pub use keys::{Key, Keys, Pedal, Pedals, intent_of, is_first_of_keys, is_of_keys, pedals_after};
pub use pressing::{Press, Why, is_hopeless, is_lit, meaning, newest_of};
pub use settling::Settling;
pub use tally::{Passed, Tally};
pub use taps::is_second_tap;
