//! The parser: what each byte of a stream finishes.
ghost use Rattle.std.specs.Prelude.{◌≡◌, [], None, Some, false};
ghost use Rattle.cue_midi.specs.Stream as stream;

use crate::heard::{Heard, Kind};
use crate::show::read_show;
use arrayvec::ArrayVec;

/// The most data bytes of an exclusive message that is read.
pub const MAX_EXCLUSIVE: usize = 256;

/// A parser of MIDI bytes. It keeps the newest status byte, and the data bytes since, up to 256.
#[derive(Drop)]
pub struct Parser {
    status: Option<u8>,
    // The data byte that awaits a second one.
    half: Option<u8>,
    body: ArrayVec<u8, MAX_EXCLUSIVE>,
    // Whether there are more data bytes than that.
    is_long: bool,
}

// The data byte that awaits a second one, after one more.
fn joined(byte: u8, half: Option<u8>) -> Option<u8>
    ensures { result ≡ stream.joined byte half }
{
    match half {
        Some(_) => None,
        None => Some(byte),
    }
}

// What a channel message is whose status byte and data bytes are these.
fn of_two(status: u8, first: u8, last: u8) -> Heard
    ensures { result ≡ stream.of_two status first last }
{
    if status < 0x90 {
        Heard::Ignored(Kind::NoteOff)
    } else if status < 0xa0 {
        note_on(status - 0x90, first, last)
    } else if status < 0xb0 {
        Heard::Ignored(Kind::KeyPressure)
    } else if status < 0xc0 {
        Heard::Controller {
            channel: status - 0xb0,
            number: first,
            value: last,
        }
    } else {
        Heard::Ignored(Kind::PitchBend)
    }
}

// A key with a velocity.
fn note_on(channel: u8, note: u8, velocity: u8) -> Heard
    ensures { result ≡ stream.note_on channel note velocity }
{
    if velocity == 0 {
        return Heard::Ignored(Kind::NoteOff);
    }
    Heard::NoteOn {
        channel,
        note,
        velocity,
    }
}

// What the second of two data bytes finishes, if there is a first one.
fn by_second(status: u8, half: Option<u8>, byte: u8) -> Option<Heard>
    ensures { result ≡ stream.by_second status half byte }
{
    match half {
        Some(first) => Some(of_two(status, first, byte)),
        None => None,
    }
}

// What a data byte finishes after this status byte, and perhaps one data byte.
fn by_data(status: u8, half: Option<u8>, byte: u8) -> Option<Heard>
    ensures { result ≡ stream.by_data status half byte }
{
    if status >= 0xf0 {
        None
    } else if status < 0xc0 {
        by_second(status, half, byte)
    } else if status < 0xd0 {
        Some(Heard::Ignored(Kind::Program))
    } else if status < 0xe0 {
        Some(Heard::Ignored(Kind::ChannelPressure))
    } else {
        by_second(status, half, byte)
    }
}

// The same, if there may be no status byte.
fn by_data_at(status: Option<u8>, half: Option<u8>, byte: u8) -> Option<Heard>
    ensures { result ≡ stream.by_data_at status half byte }
{
    match status {
        Some(status) => by_data(status, half, byte),
        None => None,
    }
}

// Whether a message is under way after this status byte, and perhaps one data byte.
fn is_open(status: u8, half: Option<u8>) -> bool
    ensures { result ≡ stream.is_open status half }
{
    if status == 0xf0 {
        true
    } else if status > 0xf0 {
        false
    } else if status >= 0xc0 && status < 0xe0 {
        false
    } else {
        half.is_some()
    }
}

// What an exclusive message is that has ended.
fn exclusive(body: &[u8]) -> Heard
    ensures { result ≡ stream.exclusive body.now }
{
    match read_show(body) {
        Some(show) => Heard::Show(show),
        None => Heard::Ignored(Kind::Exclusive),
    }
}

// What a status byte finishes that does not end an exclusive message.
fn by_status(is_open: bool, byte: u8) -> Option<Heard>
    ensures { result ≡ stream.by_status is_open byte }
{
    if is_open {
        Some(Heard::Ignored(Kind::Cut))
    } else if byte > 0xf0 {
        Some(Heard::Ignored(Kind::Common))
    } else {
        None
    }
}

impl Parser {
    /// A parser that has heard nothing.
    pub fn new() -> Parser
        ensures { stream.IsAfter [] result }
    {
        Parser {
            status: None,
            half: None,
            body: ArrayVec::new(),
            is_long: false,
        }
    }

    // Begins a message with this status byte.
    fn begin(&mut self, byte: u8)
        ensures status { self.new.status ≡ Some byte }
        ensures half { self.new.half ≡ None }
        ensures body { self.new.body.items ≡ [] }
        ensures long { self.new.is_long ≡ false }
    {
        self.status = Some(byte);
        self.half = None;
        self.body.clear();
        self.is_long = false;
    }

    // Adds a data byte.
    fn add(&mut self, byte: u8)
        ensures status { self.new.status ≡ self.old.status }
        ensures half { self.new.half ≡ stream.joined byte self.old.half }
        ensures long { self.new.is_long ≡ stream.is_more self.old.is_long self.old.body.items }
        ensures body { self.new.body.items ≡ stream.more byte self.old.body.items }
    {
        self.half = joined(byte, self.half);
        if self.body.len() < MAX_EXCLUSIVE {
            self.body.push(byte);
        } else {
            self.is_long = true;
        }
    }

    // What the end of an exclusive message finishes.
    fn by_end(&self) -> Option<Heard>
        ensures { result ≡ Some (stream.ended_by self.now.is_long self.now.body.items) }
    {
        if self.is_long {
            Some(Heard::Ignored(Kind::Long))
        } else {
            Some(exclusive(self.body.as_slice()))
        }
    }

    // What a status byte finishes.
    fn ended_by(&self, byte: u8) -> Option<Heard>
        ensures { result ≡ stream.by_status_in self.now byte }
    {
        match self.status {
            Some(status) => {
                if status == 0xf0 && byte == 0xf7 {
                    self.by_end()
                } else {
                    by_status(is_open(status, self.half), byte)
                }
            }
            None => by_status(false, byte),
        }
    }

    /// Hears a byte, and answers what it finishes; none if a message goes on.
    pub fn hear(&mut self, byte: u8) -> Option<Heard>
        ensures heard { stream.HearsAt self.old byte result }
        ensures keeps { stream.KeepsAt self.old byte self.new }
    {
        if byte >= 0xf8 {
            Some(Heard::Ignored(Kind::RealTime))
        } else if byte < 0x80 {
            let heard = by_data_at(self.status, self.half, byte);
            self.add(byte);
            heard
        } else {
            let heard = self.ended_by(byte);
            self.begin(byte);
            heard
        }
    }
}
