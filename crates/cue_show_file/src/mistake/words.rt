//! The words of each mistake, with what to do about it.
use super::{Mistake, Section, Slip};
use crate::text::cue_text;
use crate::together::MAX_COMPANIONS;
use cue_show::DeviceNo;
use cue_show::limits::{MAX_CUE_BYTES, MAX_CUES, MAX_DEVICE_NUMBER, MAX_PART_BYTES, MAX_PARTS};
use std::fmt;

// Writes that a part has both.
fn write_two_bytes<W: fmt::Write>(
    f: &mut fmt::Formatter<W>,
    device: Option<DeviceNo>,
) -> fmt::Result {
    f.write_str("the part ")?;
    if let Some(device) = device {
        write!(f, "for device {} ", device.number())?;
    }
    f.write_str("has hex and text: take one of them out")
}

// Writes a mistake that names a device.
fn write_of_device<W: fmt::Write>(
    f: &mut fmt::Formatter<W>,
    mistake: &Mistake,
    device: DeviceNo,
) -> fmt::Result {
    let device = device.number();
    match mistake {
        Mistake::PartTwice(_) => {
            write!(f, "two parts are for device {device}: take one of them out")
        }
        Mistake::TooLong(_) => write!(
            f,
            "the part for device {device} is longer than {MAX_PART_BYTES} bytes: shorten it"
        ),
        _ => Ok(()),
    }
}

// Writes that a text is no TOML, and what to do.
fn write_no_toml<W: fmt::Write>(f: &mut fmt::Formatter<W>, slip: Slip, why: &str) -> fmt::Result {
    f.write_str(why)?;
    f.write_str(match slip {
        Slip::Quotes => ": this line has typographic quotes: write straight ones, as \"Winch 3\"",
        Slip::Brackets => ": write [[device]] and [[cue]], with two brackets",
        Slip::Unclosed => ": a text on this line has no quote at its end",
        Slip::Other => "",
    })
}

// The keys of a table.
fn keys_of(section: Section) -> &'static str {
    match section {
        Section::File => "of a show file: it has port, listen, [[device]], [[cue]] and [rehearse]",
        Section::Device => "of a device: it has number, port, address and name",
        Section::Cue => "of a cue: it has number, name, note, color, flag, with and parts",
        Section::Part => "of a part: it has device, hex or text, and optional",
    }
}

// Keys by which other controllers go on by themselves, in small letters and without signs between their words.
const GOING_ON: [&str; 21] = [
    "follow",
    "followon",
    "autofollow",
    "continue",
    "autocontinue",
    "wait",
    "prewait",
    "postwait",
    "hang",
    "delay",
    "time",
    "timecode",
    "trigger",
    "duration",
    "fade",
    "fadein",
    "fadeout",
    "fadetime",
    "crossfade",
    "loop",
    "repeat",
];

// Whether a key is one of them, as `pre_wait` and `preWait` are `prewait`.
fn goes_on(key: &str) -> bool {
    GOING_ON.iter().any(|name| {
        key.chars()
            .filter(|c| !matches!(*c, '_' | '-'))
            .map(|c| c.to_ascii_lowercase())
            .eq(name.chars())
    })
}

// Writes that a table has no such key, and which it has.
fn write_unknown_key<W: fmt::Write>(
    f: &mut fmt::Formatter<W>,
    section: Section,
    key: &str,
) -> fmt::Result {
    if goes_on(key) {
        return write!(
            f,
            "`{key}`: nothing moves without a press, so a show file has no such key"
        );
    }
    let keys = keys_of(section);
    write!(f, "`{key}` is no key {keys}")
}

// Writes a mistake by which a mark of a cue is none.
fn write_of_mark<W: fmt::Write>(f: &mut fmt::Formatter<W>, mistake: &Mistake) -> fmt::Result {
    match mistake {
        Mistake::BadColor => f.write_str(
            "that is no colour: take red, orange, yellow, green, blue, purple or white",
        ),
        Mistake::BadFlag => f.write_str("that is no flag: take danger, fly or trap"),
        _ => Ok(()),
    }
}

// Writes what the controller would take, and the evening would not.
fn write_of_evening<W: fmt::Write>(f: &mut fmt::Formatter<W>, mistake: &Mistake) -> fmt::Result {
    match mistake {
        Mistake::Empty => {
            f.write_str("it has no device and no cue: add a [[device]] and a [[cue]]")
        }
        Mistake::OwnPort => f.write_str(
            "it has the port of the controller: give the device another one, or the controller",
        ),
        Mistake::UsualPort => f.write_str(
            "it has port 9100, at which the controller listens unless somebody says another port",
        ),
        Mistake::NoListen => f.write_str(
            "it has an address, and a line as `listen = \"10.0.7.1\"` is missing at the top: \
             this machine's own address there",
        ),
        Mistake::SharedPort(device) => write!(
            f,
            "device {} has the same port: a show may have that, but `rehearse` and a relay want one for each",
            device.number()
        ),
        _ => Ok(()),
    }
}

// Writes why cues cannot stand by together.
fn write_of_companions<W: fmt::Write>(f: &mut fmt::Formatter<W>, mistake: &Mistake) -> fmt::Result {
    match mistake {
        Mistake::TooManyWith => write!(
            f,
            "eight cues at most can be live: let {MAX_COMPANIONS} at most stand by with it"
        ),
        Mistake::UnknownWith(cue) => write!(
            f,
            "it stands by with cue {}, which the file does not have: take that out of `with`",
            cue_text(cue)
        ),
        Mistake::TwiceWith(cue) => write!(
            f,
            "of those that stand by together cue {} is named twice: take it out of `with` once",
            cue_text(cue)
        ),
        Mistake::SharedWith(cue, other) => write!(
            f,
            "cue {} and cue {} have a device in common, so they cannot stand by together",
            cue_text(cue),
            cue_text(other)
        ),
        _ => Ok(()),
    }
}

// Writes of how many other cues the same is to be said.
fn write_others<W: fmt::Write>(f: &mut fmt::Formatter<W>, others: usize) -> fmt::Result {
    match others {
        0 => Ok(()),
        1 => f.write_str(", and so is one of another cue"),
        _ => write!(f, ", and so are parts of {others} other cues"),
    }
}

// Writes that parts are for a device that the file does not have.
fn write_unknown_device<W: fmt::Write>(
    f: &mut fmt::Formatter<W>,
    device: DeviceNo,
    others: usize,
) -> fmt::Result {
    let device = device.number();
    write!(
        f,
        "a part is for device {device}, which the file does not have"
    )?;
    write_others(f, others)?;
    f.write_str(": add a [[device]] with that number")
}

// Writes the same where that may be a device whose number cannot be read.
fn write_unknown_yet<W: fmt::Write>(
    f: &mut fmt::Formatter<W>,
    device: DeviceNo,
    others: usize,
) -> fmt::Result {
    let device = device.number();
    write!(
        f,
        "a part is for device {device}, which the file does not have so far"
    )?;
    write_others(f, others)?;
    f.write_str(": mend the number of a device, or add a [[device]] with that number")
}

// Writes a mistake by which a number is none, or something is missing.
fn write_of_key<W: fmt::Write>(f: &mut fmt::Formatter<W>, mistake: &Mistake) -> fmt::Result {
    match mistake {
        Mistake::Missing(key) => write!(f, "a line as `{key}` is missing"),
        Mistake::OtherKind(key) => { write!(f, "a value is of another kind: write it as `{key}`") }
        Mistake::BadDevice => write!(
            f,
            "no device has that number: take one of 0 to {MAX_DEVICE_NUMBER}"
        ),
        Mistake::BadCue => write!(
            f,
            "that is no cue number: write digits with single points, as \"12.5\", {MAX_CUE_BYTES} characters at most"
        ),
        Mistake::BadPort => f.write_str("that is no port: take one of 1 to 65535"),
        Mistake::BadAddress => {
            f.write_str("that is no address of a device: write it as \"10.0.7.31:9001\"")
        }
        Mistake::BadListen => f.write_str(
            "that is no address at which to listen: write this machine's own on the stage's network, as \"10.0.7.1\"",
        ),
        Mistake::BadHex => f.write_str(
            "hex is no pairs of hexadecimal digits: write them as \"0a0b\"",
        ),
        Mistake::NoTables => {
            f.write_str(
                "devices and cues are written as [[device]] and [[cue]], with two brackets, one for each",
            )
        }
        Mistake::UnknownKey(section, key) => write_unknown_key(f, *section, key.as_str()),
        Mistake::NotToml(slip, why) => write_no_toml(f, *slip, why.as_str()),
        _ => Ok(()),
    }
}

impl fmt::Display for Mistake {
    fn fmt<W: fmt::Write>(&self, f: &mut fmt::Formatter<W>) -> fmt::Result {
        match self {
            Mistake::TwoBytes(device) => write_two_bytes(f, *device),
            Mistake::PartTwice(device) | Mistake::TooLong(device) => {
                write_of_device(f, self, *device)
            }
            Mistake::UnknownDevice(device) => write_unknown_device(f, *device, 0),
            Mistake::UnknownInCues(device, others) => write_unknown_device(f, *device, *others),
            Mistake::UnknownYet(device, others) => write_unknown_yet(f, *device, *others),
            Mistake::Empty
            | Mistake::OwnPort
            | Mistake::UsualPort
            | Mistake::NoListen
            | Mistake::SharedPort(_) => write_of_evening(f, self),
            Mistake::BadColor | Mistake::BadFlag => write_of_mark(f, self),
            Mistake::TooManyWith
            | Mistake::UnknownWith(_)
            | Mistake::TwiceWith(_)
            | Mistake::SharedWith(_, _) => write_of_companions(f, self),
            Mistake::DeviceTwice => {
                f.write_str(
                    "the file has this device twice: take one of them out, or give it another number",
                )
            }
            Mistake::CueTwice => {
                f.write_str(
                    "the file has this cue twice: take one of them out, or give it another number",
                )
            }
            Mistake::TooManyCues => {
                write!(f, "a show has {MAX_CUES} cues at most: take this one out")
            }
            Mistake::NoPart => f.write_str("it has no part: give it one at least"),
            Mistake::Refused => f.write_str("a show would refuse it: write it again"),
            Mistake::NoRequiredPart => {
                f.write_str("all its parts are optional: one at least has to be required")
            }
            Mistake::TooManyParts => {
                write!(
                    f,
                    "a cue has {MAX_PARTS} parts at most: make two cues of it"
                )
            }
            _ => write_of_key(f, self),
        }
    }
}
