//! What the desk hears.
use cue_core::{Event, State};
use cue_desk::orders::DeskCommand;
use cue_desk::replying::Replied;
use cue_relay::status::Status;
use cue_view::button::Button;
use cue_view::view::{Kept, Trouble};

/// A copy of the store: what both files stood for at one moment, not before `begun`, and the events that their records
/// tell, up to that moment, the oldest first. Those of before are forgotten.
#[derive(Drop)]
pub struct Copied {
    pub begun: u64,
    pub state: State,
    pub events: Vec<Event>,
}

/// What the desk hears.
#[derive(Drop)]
pub enum Heard {
    Copied(Copied),
    /// The files were found as they were when the last copy was read: so it stands for the moment at which that was
    /// begun, too.
    Same(u64),
    Unread(Trouble),
    /// A reply or a status came to the socket of this ask, from the controller's port.
    Replied(u64, Replied),
    /// The system says that nobody listens where this ask was sent.
    Nobody(u64),
    /// A button of the view with this number was pressed.
    Pressed(u64, Button),
    /// What the relay has written; none if that cannot be read.
    Relay(Option<Status>),
    /// What another desk kept of what went wrong, or this one before it was started again.
    Kept(Kept),
    Tick,
}

/// What was heard, and when: by the clock that never goes back, and by that of the wall.
#[derive(Drop)]
pub struct Input {
    pub at: u64,
    pub wall: u64,
    pub heard: Heard,
}

/// A message that is sent, from a socket of its own.
#[derive(Clone, Copy)]
pub struct Send {
    pub ask: u64,
    pub order: DeskCommand,
}
