//! The command `buttons`, and what stands after it.
use super::arguments::{ASKER, Argument, Bits, DIR, Declared, NAMES, PORT_OR_FILE};
use super::reporting::asker_in;
use super::words::Line;
use super::{option_in, or_unfit, port_in, text_in};
use clap::ArgMatches;
use cue_asker::AskerName;
use cue_desk::line::{LineFault, unfit};
use cue_presses::{Address, Key, Keys};
use cue_show::CueNo;
use std::alloc::Global;

/// A real desk: the device that is heard, and what its keys and commands mean.
#[derive(Drop)]
pub struct Buttons {
    /// The folder of the store.
    pub dir: String,
    /// The show file, for the port.
    pub file: Option<String>,
    /// The device that gives MIDI bytes.
    pub midi: String,
    pub keys: Keys,
    pub address: Address,
    /// The port of the controller, if the command line or the environment says it.
    pub port: Option<u16>,
    /// Who asks, if the command line or the environment says it.
    pub name: Option<AskerName>,
}

/// The keys, if nothing else is said.
const STANDBY: Key = Key::Note(60);

const GO: Key = Key::Note(62);

const CANCEL: Key = Key::Note(64);

/// The highest number of a note or of a controller.
const MAX_KEY: u8 = 127;

/// The format of machinery.
const MACHINERY: u8 = 0x20;

/// The highest number of a device, and of a format: 127 is all of them.
const MAX_ID: u8 = 126;

/// The command `buttons`.
pub(super) const BUTTONS_COMMAND: Declared = Declared {
    name: "buttons",
    about: "Hear a GO button over MIDI:  cuedesk buttons show evening.toml --midi /dev/snd/midiC1D0",
    arguments: &[
        DIR,
        NAMES,
        Argument::RequiredOption(
            "midi",
            "The device that gives MIDI bytes, as /dev/snd/midiC1D0, or a FIFO",
        ),
        Argument::Option(
            "standby",
            "The key of STANDBY: a note, 0 to 127, or a controller, as cc:64; else it is 60",
        ),
        Argument::Option("go", "The key of GO; else it is 62"),
        Argument::Option("cancel", "The key of CANCEL; else it is 64"),
        Argument::Number(
            Bits::Of16,
            "id",
            "Its device to MIDI Show Control, 0 to 126; 0 where nothing is said",
        ),
        Argument::Option(
            "format",
            "Its format to MIDI Show Control, as two hexadecimal digits: 01 is lights; else it is 20, machinery",
        ),
        Argument::Option(
            "list",
            "The list of cues that a command may name; else one that names a list is refused",
        ),
        PORT_OR_FILE,
        ASKER,
    ],
};

// The number of a note or of a controller that a word is.
fn key_number(text: &str) -> Option<u8> {
    match text.parse::<u8>() {
        Ok(number) if number <= MAX_KEY => Some(number),
        _ => None,
    }
}

// The key that a word is.
fn key_of(text: &str) -> Option<Key> {
    match text.strip_prefix("cc:") {
        Some(number) => key_number(number).map(Key::Controller),
        None => key_number(text).map(Key::Note),
    }
}

// The key that stands after an option, else this one.
fn key_in(
    alloc: Global,
    found: &ArgMatches<'_>,
    name: &str,
    else_it_is: Key,
) -> Result<Key, LineFault> {
    let Some(text) = found.get_str(name) else {
        return Ok(else_it_is);
    };
    let wanted = "is no key: write the number of a note, 0 to 127, or a controller, as cc:64";
    or_unfit(alloc, key_of(text), text, wanted)
}

// The keys. No two may be the same.
fn keys_in(alloc: Global, found: &ArgMatches<'_>) -> Result<Keys, LineFault> {
    let keys = Keys {
        standby: key_in(alloc, found, "standby", STANDBY)?,
        go: key_in(alloc, found, "go", GO)?,
        cancel: key_in(alloc, found, "cancel", CANCEL)?,
    };
    if keys.standby == keys.go || keys.go == keys.cancel || keys.cancel == keys.standby {
        return Err(unfit(
            alloc,
            "buttons",
            "wants three keys: STANDBY, GO and CANCEL are each a key of its own",
        ));
    }
    Ok(keys)
}

// The device of show control.
fn id_in(alloc: Global, found: &ArgMatches<'_>) -> Result<u8, LineFault> {
    match u8::try_from(found.get_one::<u16>("id").unwrap_or(0)) {
        Ok(id) if id <= MAX_ID => Ok(id),
        _ => Err(unfit(alloc, "--id", "is one of 0 to 126")),
    }
}

// The format that a word is.
fn format_of(text: &str) -> Option<u8> {
    match u8::from_str_radix(text, 16) {
        Ok(format) if text.len() == 2 && format <= MAX_ID => Some(format),
        _ => None,
    }
}

// The format of show control.
fn format_in(alloc: Global, found: &ArgMatches<'_>) -> Result<u8, LineFault> {
    let Some(text) = found.get_str("format") else {
        return Ok(MACHINERY);
    };
    let wanted = "is no format: write two hexadecimal digits, 00 to 7e, as 01 for lights";
    or_unfit(alloc, format_of(text), text, wanted)
}

// The list of cues.
fn list_in(alloc: Global, found: &ArgMatches<'_>) -> Result<Option<CueNo>, LineFault> {
    let Some(text) = found.get_str("list") else {
        return Ok(None);
    };
    let wanted = "is no list: write digits with single points, as 1";
    let list = or_unfit(alloc, CueNo::read(text.as_bytes()), text, wanted)?;
    Ok(Some(list))
}

// What the desk is to show control.
fn address_in(alloc: Global, found: &ArgMatches<'_>) -> Result<Address, LineFault> {
    Ok(Address {
        id: id_in(alloc, found)?,
        format: format_in(alloc, found)?,
        list: list_in(alloc, found)?,
    })
}

/// The command `buttons`, with what stands after it.
pub fn buttons_in(alloc: Global, found: &ArgMatches<'_>) -> Result<Line, LineFault> {
    Ok(Line::Buttons(Buttons {
        keys: keys_in(alloc, found)?,
        address: address_in(alloc, found)?,
        port: port_in(alloc, found)?,
        name: asker_in(alloc, found)?,
        dir: text_in(alloc, found, "DIR")?,
        file: option_in(alloc, found, "FILE")?,
        midi: text_in(alloc, found, "midi")?,
    }))
}
