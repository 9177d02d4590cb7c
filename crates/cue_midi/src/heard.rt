//! What is heard of a stream of MIDI bytes.
use crate::show::Show;

/// A message that nobody takes, by its kind.
#[derive(Clone, Copy, PartialEq, Eq, Debug)]
pub enum Kind {
    /// A note off, or a note on with velocity 0.
    NoteOff,
    /// The pressure of one key.
    KeyPressure,
    Program,
    /// The pressure of all keys of a channel.
    ChannelPressure,
    PitchBend,
    /// Time code, song position, song select, tune request, and what MIDI leaves undefined.
    Common,
    /// Clock, start, stop, active sensing, reset.
    RealTime,
    /// An exclusive message that is none of show control.
    Exclusive,
    /// An exclusive message of more than 256 data bytes.
    Long,
    /// A message that the next one cut off.
    Cut,
}

/// What a byte finishes.
#[derive(Clone, Copy, PartialEq, Eq, Debug)]
pub enum Heard {
    /// A key is struck: channel 0 to 15, note 0 to 127, velocity 1 to 127.
    NoteOn { channel: u8, note: u8, velocity: u8 },
    /// A controller has a new value: channel 0 to 15, number and value 0 to 127.
    Controller { channel: u8, number: u8, value: u8 },
    /// A command of show control.
    Show(Show),
    /// Something else.
    Ignored(Kind),
}
