//! MIDI as bytes: which messages a stream of bytes spells, one byte at a time. Nothing here opens a device or reads a
//! clock, and nothing needs memory.
//!
//! The law: an event is heard only at the last byte of a message that spells it. What a byte finishes is a definition
//! over the bytes before it (`specs/Stream.antt`: `heard_at`): the newest status byte, and the data bytes since.
//! `Parser::hear` says exactly that. So a status byte counts for all data bytes after it until the next one (running
//! status), and a byte of real time, as a clock, may stand anywhere and changes nothing (`laws`).
//!
//! Two commands of MIDI Show Control 1.1 are read, GO and LOAD, each with the number of a cue (`specs/Show.antt`).
//! LOAD is the one that places a cue into a standby position.
//!
//! Why it is so:
//! - A note with velocity 0 is a note off, as MIDI has it: it is never a press.
//! - The two-phase commands of show control have numbers and sums of their own, which nobody here would answer: they
//!   are not read.
//! - An exclusive message of more than 256 data bytes is none of show control, which has 128 at most.
//! - STOP and ALL_OFF are not taken for a CANCEL: nothing that is given can be stopped, and a desk that sends STOP must
//!   not be told that something has.
#![tactic(auto)]

pub mod heard;
pub mod laws;
pub mod parser;
pub mod show;

pub use heard::{Heard, Kind};
pub use parser::Parser;
pub use show::{Named, Said, Show, read_show};
