//! What is said of intents and of presses, and how a command ends that pressed a button. Nothing here opens a device,
//! reads a clock or sends anything.
//!
//! What became of a press, and what is wrong, is said in the words of the board (`cue_board`).
//!
//! Only tested: the words for why nothing is pressed, and for commands of show control.
#![tactic(auto)]

mod ending;
mod words;

pub use ending::ending_by;
pub use words::{
    button_words, intent_words, key_words, spoken_words, trouble_of, trouble_words, why_words,
};
