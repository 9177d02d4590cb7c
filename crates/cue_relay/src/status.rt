//! What a relay says of itself, as a small text: the desk reads it to show when each device was heard.
//!
//! `write` gives the text of a status (`specs/Status.antt`), and `read` the status of a text: of one that is written
//! so, byte for byte, and of no other. It reads what the text may say (`specs/Reading.antt`), writes that again and
//! compares: so no text is read as something else, and each piece is read only once.

mod claimed;
mod line;
mod reading;
mod writing;

use crate::claims::Claims;
use crate::motion::Motion;
use crate::relaying::Counts;
use crate::route::Address;
use cue_show::DeviceNo;
pub use reading::read;
pub use writing::write;

/// How old a status may be before the relay that wrote it counts as stopped, in milliseconds.
pub const STALE: u64 = 5_000;

/// What the controller orders a device.
#[derive(Clone, Copy, Debug, PartialEq, Eq)]
pub enum Ordered {
    /// To prepare: it is preparing until it answers.
    Standby,
    /// To carry the cue out: it is moving until it answers.
    Go,
    /// To give the preparation up: it is letting go until it answers.
    Cancel,
}

/// What a relay says of one device.
#[derive(Clone, Copy, Debug, PartialEq, Eq)]
pub struct Seen {
    pub device: DeviceNo,
    pub address: Address,
    /// When its last answer came, in milliseconds since 1970.
    pub heard: Option<u64>,
    /// The order that it was sent and has not answered.
    pub ordered: Option<Ordered>,
    pub motion: Motion,
    /// Whether it has answered nothing for five seconds, although a standby or a cancel is pending.
    pub silent: bool,
    /// What it told of itself.
    pub claims: Claims,
}

/// What a relay says of itself.
#[derive(Debug, Drop)]
pub struct Status {
    /// When it was written, in milliseconds since 1970.
    pub now: u64,
    pub counts: Counts,
    pub devices: Vec<Seen>,
}
