//! The keys of a real desk: notes and controllers.
ghost use Rattle.std.specs.Prelude.{◌≡◌};
ghost use Rattle.cue_presses.specs.Keys as rule;

use crate::intent::Intent;
use cue_midi::Heard;

/// A key of a MIDI device, on any channel.
#[derive(Clone, Copy, PartialEq, Eq, Debug)]
pub enum Key {
    /// A note, 0 to 127: it is pressed when it is struck.
    Note(u8),
    /// A controller, 0 to 127: it is pressed when it rises to 64 or more, and was heard below that before.
    Controller(u8),
}

/// Which key is which.
#[derive(Clone, Copy, Debug)]
pub struct Keys {
    pub standby: Key,
    pub go: Key,
    pub cancel: Key,
}

/// What was last heard of a controller since the device was opened.
#[derive(Clone, Copy, PartialEq, Eq, Debug)]
pub enum Pedal {
    /// Nothing: nobody knows whether it is held.
    Unheard,
    /// A value below 64: it was let go.
    Up,
    /// 64 or more: it is held.
    Down,
}

/// What was last heard of each key, as far as it is a controller.
#[derive(Clone, Copy, PartialEq, Eq, Debug)]
pub struct Pedals {
    pub standby: Pedal,
    pub go: Pedal,
    pub cancel: Pedal,
}

/// The value of a controller from which on it is pressed.
pub const PRESSED: u8 = 64;

// Whether the note is struck.
fn is_note(wanted: u8, heard: &Heard) -> bool
    ensures { result ≡ rule.is_note wanted heard.now }
{
    match heard {
        Heard::NoteOn { note, .. } => *note == wanted,
        Heard::Controller { .. } | Heard::Show(_) | Heard::Ignored(_) => false,
    }
}

impl Pedals {
    /// A device was opened: nothing was heard yet.
    pub fn unheard() -> Pedals
        ensures { result ≡ rule.unheard }
    {
        Pedals {
            standby: Pedal::Unheard,
            go: Pedal::Unheard,
            cancel: Pedal::Unheard,
        }
    }
}

// Whether the pedal was let go.
fn is_up(pedal: Pedal) -> bool
    ensures { result ≡ rule.is_up pedal }
{
    match pedal {
        Pedal::Up => true,
        Pedal::Unheard | Pedal::Down => false,
    }
}

// Whether the controller rises.
fn rises(wanted: u8, pedal: Pedal, heard: &Heard) -> bool
    ensures { result ≡ rule.rises wanted pedal heard.now }
{
    match heard {
        Heard::Controller { number, value, .. } => {
            *number == wanted && *value >= PRESSED && is_up(pedal)
        }
        Heard::NoteOn { .. } | Heard::Show(_) | Heard::Ignored(_) => false,
    }
}

// Whether the key is pressed.
fn is_pressed(key: Key, pedal: Pedal, heard: &Heard) -> bool
    ensures { result ≡ rule.is_pressed key pedal heard.now }
{
    match key {
        Key::Note(wanted) => is_note(wanted, heard),
        Key::Controller(wanted) => rises(wanted, pedal, heard),
    }
}

// What a value makes of a pedal.
fn pedal_at(value: u8) -> Pedal
    ensures { result ≡ rule.pedal_at value }
{
    if value >= PRESSED {
        Pedal::Down
    } else {
        Pedal::Up
    }
}

// How the controller stands after what is heard.
fn moved(wanted: u8, pedal: Pedal, heard: &Heard) -> Pedal
    ensures { result ≡ rule.moved wanted pedal heard.now }
{
    match heard {
        Heard::Controller { number, value, .. } => {
            if *number == wanted {
                pedal_at(*value)
            } else {
                pedal
            }
        }
        Heard::NoteOn { .. } | Heard::Show(_) | Heard::Ignored(_) => pedal,
    }
}

// How the key stands after what is heard.
fn pedal_after(key: Key, pedal: Pedal, heard: &Heard) -> Pedal
    ensures { result ≡ rule.pedal_after key pedal heard.now }
{
    match key {
        Key::Note(_) => pedal,
        Key::Controller(wanted) => moved(wanted, pedal, heard),
    }
}

/// What is wished by what is heard; none if no key is pressed.
pub fn intent_of(keys: &Keys, pedals: &Pedals, heard: &Heard) -> Option<Intent>
    ensures { result ≡ rule.intent_of keys.now pedals.now heard.now }
{
    if is_pressed(keys.standby, pedals.standby, heard) {
        Some(Intent::Standby(None))
    } else if is_pressed(keys.go, pedals.go, heard) {
        Some(Intent::Go(None))
    } else if is_pressed(keys.cancel, pedals.cancel, heard) {
        Some(Intent::Cancel)
    } else {
        None
    }
}

/// How the keys stand after what is heard.
pub fn pedals_after(keys: &Keys, pedals: &Pedals, heard: &Heard) -> Pedals
    ensures { result ≡ rule.pedals_after keys.now pedals.now heard.now }
{
    Pedals {
        standby: pedal_after(keys.standby, pedals.standby, heard),
        go: pedal_after(keys.go, pedals.go, heard),
        cancel: pedal_after(keys.cancel, pedals.cancel, heard),
    }
}

// Whether it is of the controller.
fn is_controller(wanted: u8, heard: &Heard) -> bool
    ensures { result ≡ rule.is_controller wanted heard.now }
{
    match heard {
        Heard::Controller { number, .. } => *number == wanted,
        Heard::NoteOn { .. } | Heard::Show(_) | Heard::Ignored(_) => false,
    }
}

// Whether it is of the key.
fn is_of(key: Key, heard: &Heard) -> bool
    ensures { result ≡ rule.is_of key heard.now }
{
    match key {
        Key::Note(wanted) => is_note(wanted, heard),
        Key::Controller(wanted) => is_controller(wanted, heard),
    }
}

/// Whether what is heard is of one of the keys, be it pressed or not.
pub fn is_of_keys(keys: &Keys, heard: &Heard) -> bool
    ensures { result ≡ rule.is_of_keys keys.now heard.now }
{
    is_of(keys.standby, heard) || is_of(keys.go, heard) || is_of(keys.cancel, heard)
}

// Whether it is the first that is heard of the controller, at 64 or more.
fn begins_down(wanted: u8, pedal: Pedal, heard: &Heard) -> bool
    ensures { result ≡ rule.begins_down wanted pedal heard.now }
{
    match (heard, pedal) {
        (Heard::Controller { number, value, .. }, Pedal::Unheard) => {
            *number == wanted && *value >= PRESSED
        }
        _ => false,
    }
}

// Whether it is the first that is heard of the key, and would press if it had been let go.
fn is_first(key: Key, pedal: Pedal, heard: &Heard) -> bool
    ensures { result ≡ rule.is_first key pedal heard.now }
{
    match key {
        Key::Note(_) => false,
        Key::Controller(wanted) => begins_down(wanted, pedal, heard),
    }
}

/// Whether what is heard would press a key, if that had been heard to be let go before.
pub fn is_first_of_keys(keys: &Keys, pedals: &Pedals, heard: &Heard) -> bool
    ensures { result ≡ rule.is_first_of_keys keys.now pedals.now heard.now }
{
    is_first(keys.standby, pedals.standby, heard)
        || is_first(keys.go, pedals.go, heard)
        || is_first(keys.cancel, pedals.cancel, heard)
}
