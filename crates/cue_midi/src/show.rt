//! A command of MIDI Show Control, read from the data bytes of an exclusive message.
ghost use Rattle.std.specs.Prelude.{◌≡◌};
ghost use Rattle.cue_midi.specs.Show as show;

use cue_show::CueNo;

/// The cue that a command names.
#[derive(Clone, Copy, PartialEq, Eq, Debug)]
pub enum Named {
    /// It names none.
    Nothing,
    Cue(CueNo),
    /// The cue, of this list.
    OfList(CueNo, CueNo),
    /// What stands there is no cue number of 1 to 16 digits and points, or a path follows.
    Unfit,
}

/// What a command says.
#[derive(Clone, Copy, PartialEq, Eq, Debug)]
pub enum Said {
    Go(Named),
    /// Place the cue into a standby position.
    Load(Named),
    /// Another command, by its number.
    Other(u8),
}

/// A command of show control: for which device, 127 for all, in which format, 127 for all, and what it says.
#[derive(Clone, Copy, PartialEq, Eq, Debug)]
pub struct Show {
    pub id: u8,
    pub format: u8,
    pub said: Said,
}

/// The byte that says an exclusive message is for everybody, in real time.
const REAL_TIME: u8 = 0x7f;

/// What says that it is of show control.
const SHOW_CONTROL: u8 = 0x02;

const GO: u8 = 0x01;

const LOAD: u8 = 0x05;

// Where the first zero is, if there is one.
fn zero_in(bytes: &[u8]) -> Option<usize>
    ensures { result ≡ show.zero_in bytes.now }
{
    bytes.iter().position(|byte| *byte == 0)
}

// The cue whose number this text is.
fn cue_named(text: &[u8]) -> Named
    ensures { result ≡ show.cue_named text.now }
{
    match CueNo::read(text) {
        Some(cue) => Named::Cue(cue),
        None => Named::Unfit,
    }
}

// The cue of a list.
fn of_list(text: &[u8], list: &[u8]) -> Named
    ensures { result ≡ show.of_list text.now list.now }
{
    match CueNo::read(text) {
        Some(cue) => match CueNo::read(list) {
            Some(list) => Named::OfList(cue, list),
            None => Named::Unfit,
        },
        None => Named::Unfit,
    }
}

// The cue that stands there, perhaps with its list after a zero.
fn named_by(bytes: &[u8]) -> Named
    ensures { result ≡ show.named_by bytes.now }
{
    match zero_in(bytes) {
        Some(at) => of_list(&bytes[..at], &bytes[at + 1..]),
        None => cue_named(bytes),
    }
}

// The cue that stands after a command.
fn named_in(bytes: &[u8]) -> Named
    ensures { result ≡ show.named_in bytes.now }
{
    match bytes {
        [] => Named::Nothing,
        [_, ..] => named_by(bytes),
    }
}

// What the command with this number says.
fn said_by(command: u8, bytes: &[u8]) -> Said
    ensures { result ≡ show.said_by command bytes.now }
{
    match command {
        GO => Said::Go(named_in(bytes)),
        LOAD => Said::Load(named_in(bytes)),
        _ => Said::Other(command),
    }
}

/// The command of show control that the data bytes of an exclusive message are; none if they are something else.
/// `Parser::hear` calls it at the end of each exclusive message.
pub fn read_show(body: &[u8]) -> Option<Show>
    ensures { result ≡ show.show_in body.now }
{
    match body {
        [real_time, id, kind, format, command, rest @ ..] => {
            if *real_time == REAL_TIME && *kind == SHOW_CONTROL {
                Some(Show {
                    id: *id,
                    format: *format,
                    said: said_by(*command, rest),
                })
            } else {
                None
            }
        }
        _ => None,
    }
}
