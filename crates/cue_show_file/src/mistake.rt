//! What may be wrong with a show file.
mod words;

use cue_show::{CueNo, DeviceNo};
use std::alloc::{AllocError, Global};
use std::fmt;

/// What a finding is about.
#[derive(Clone, Copy, Debug, PartialEq, Eq)]
pub enum Subject {
    /// The file as a whole.
    File,
    /// The device with this number.
    Device(DeviceNo),
    /// The cue with this number.
    Cue(CueNo),
    /// The device at this place of the file, from 1, which has no number that it could have.
    DeviceAt(usize),
    /// The cue at this place of the file, from 1, which has no number that it could have.
    CueAt(usize),
}

impl fmt::Display for Subject {
    fn fmt<W: fmt::Write>(&self, f: &mut fmt::Formatter<W>) -> fmt::Result {
        match self {
            Subject::File => f.write_str("the file"),
            Subject::Device(device) => write!(f, "device {}", device.number()),
            Subject::Cue(cue) => write!(f, "cue {}", cue.text().escape_ascii()),
            Subject::DeviceAt(place) => write!(f, "device entry {place}"),
            Subject::CueAt(place) => write!(f, "cue entry {place}"),
        }
    }
}

/// A key of a show file, named with a line that has it.
#[derive(Clone, Copy, Debug, PartialEq, Eq)]
pub enum Key {
    Port,
    Address,
    Listen,
    Number,
    CueNumber,
    Name,
    Note,
    Color,
    Flag,
    With,
    Parts,
    Device,
    Hex,
    Text,
    Optional,
}

impl fmt::Display for Key {
    fn fmt<W: fmt::Write>(&self, f: &mut fmt::Formatter<W>) -> fmt::Result {
        f.write_str(match self {
            Key::Port => "port = 9001",
            Key::Address => "address = \"10.0.7.31:9001\"",
            Key::Listen => "listen = \"10.0.7.1\"",
            Key::Number => "number = 3",
            Key::CueNumber => "number = \"12.5\"",
            Key::Name => "name = \"Winch 3\"",
            Key::Note => "note = \"wait for the lamp\"",
            Key::Color => "color = \"red\"",
            Key::Flag => "flag = \"danger\"",
            Key::With => "with = [\"13\", \"14\"]",
            Key::Parts => "parts = [{ device = 3, hex = \"0a0b\" }]",
            Key::Device => "device = 3",
            Key::Hex => "hex = \"0a0b\"",
            Key::Text => "text = \"speed=30\"",
            Key::Optional => "optional = true",
        })
    }
}

/// A table of a show file.
#[derive(Clone, Copy, Debug, PartialEq, Eq)]
pub enum Section {
    File,
    Device,
    Cue,
    Part,
}

/// What a text that is no TOML looks like, for what to do about it.
#[derive(Clone, Copy, Debug, PartialEq, Eq)]
pub enum Slip {
    /// Its line has typographic quotes.
    Quotes,
    /// Its line has `[device]` or `[cue]`.
    Brackets,
    /// Its line has a quote that is not closed.
    Unclosed,
    Other,
}

/// What is wrong with a show file, or may be. Each is said with what to do. A terminal may get each text in it.
#[derive(Debug, Drop, PartialEq, Eq)]
pub enum Mistake {
    /// The text is no TOML: why not.
    NotToml(Slip, String),
    /// `device` or `cue` of the file is no list of tables.
    NoTables,
    /// The key is none that such a table has.
    UnknownKey(Section, String),
    /// A key that has to be there is not.
    Missing(Key),
    /// The value of a key is of another kind.
    OtherKind(Key),
    /// A port is 1 to 65,535.
    BadPort,
    /// The address of a device is four numbers of 0 to 255 and a port, neither all of them 0.
    BadAddress,
    /// The address of this machine is four numbers of 0 to 255, neither 0.0.0.0 nor 127.0.0.1.
    BadListen,
    /// A device number is 0 to 111.
    BadDevice,
    /// A cue number is digits with single points between them, 16 characters at most.
    BadCue,
    /// A colour is one of those that have a word.
    BadColor,
    /// A flag is one of those that have a word.
    BadFlag,
    /// The bytes of a part are no hexadecimal digits in pairs.
    BadHex,
    /// The part for this device has both `hex` and `text`; the device is none if it cannot be read.
    TwoBytes(Option<DeviceNo>),
    /// An earlier device of the file has the number.
    DeviceTwice,
    /// An earlier cue of the file has the number.
    CueTwice,
    /// The stack has no room.
    TooManyCues,
    /// The cue has no part.
    NoPart,
    /// All parts are optional.
    NoRequiredPart,
    /// The cue has more parts than a cue can have.
    TooManyParts,
    /// Two parts are for this device.
    PartTwice(DeviceNo),
    /// The part for this device has more bytes than a part can have.
    TooLong(DeviceNo),
    /// A part is for this device, and the file has none with the number.
    UnknownDevice(DeviceNo),
    /// The same of this cue and of so many others.
    UnknownInCues(DeviceNo, usize),
    /// The same, and the device may be one whose number cannot be read.
    UnknownYet(DeviceNo, usize),
    /// A show would refuse the cue, and none of the others says why. No file is known that has it.
    Refused,
    /// The file has neither a device nor a cue.
    Empty,
    /// The device has the port of the controller.
    OwnPort,
    /// The device has the port of a controller to which nobody says another one.
    UsualPort,
    /// The device has an address, and the file does not say where this machine is on that network.
    NoListen,
    /// The device has the port of this other one.
    SharedPort(DeviceNo),
    /// The cue stands by together with more cues than can be live beside it.
    TooManyWith,
    /// It stands by together with this cue, and the file has none with the number.
    UnknownWith(CueNo),
    /// Of those that stand by together this cue is named twice, or is the cue itself.
    TwiceWith(CueNo),
    /// These two would stand by together, and have a device in common.
    SharedWith(CueNo, CueNo),
}

/// A mistake, with what it is about and where that stands.
#[derive(Debug, Drop, PartialEq, Eq)]
pub struct Finding {
    /// The line, from 1; none if the file does not say.
    pub line: Option<usize>,
    pub subject: Subject,
    pub mistake: Mistake,
}

impl fmt::Display for Finding {
    fn fmt<W: fmt::Write>(&self, f: &mut fmt::Formatter<W>) -> fmt::Result {
        if let Some(line) = self.line {
            write!(f, "{line}: ")?;
        }
        write!(f, "{}: {}", self.subject, self.mistake)
    }
}

/// The findings so far, and where the next one stands.
#[derive(Drop)]
pub(crate) struct Findings {
    found: Vec<Finding>,
    line: Option<usize>,
    subject: Subject,
    // The cues of the file so far that no show was given, for what is wrong with them.
    refused: Vec<CueNo>,
}

impl Findings {
    ghost use Rattle.std.specs.Prelude.{◌≡◌, IfOk, IsTrue, false, length, true};
    ghost use Rattle.cue_show_file.specs.Reading.{is_clean};

    /// None yet; the file as a whole is looked at.
    pub(crate) fn new(alloc: Global) -> Findings
        ensures { is_clean result ≡ true }
    {
        Findings {
            found: Vec::new(alloc),
            line: None,
            subject: Subject::File,
            refused: Vec::new(alloc),
        }
    }

    /// How many there are.
    pub(crate) fn len(&self) -> usize
        ensures { result ≡ length self.now.found.items }
    {
        self.found.len()
    }

    /// From now on this is looked at.
    pub(crate) fn look_at(&mut self, line: Option<usize>, subject: Subject)
        ensures { self.new.found ≡ self.old.found }
    {
        self.line = line;
        self.subject = subject;
    }

    /// No show is given this cue.
    pub(crate) fn refuse(&mut self, cue: CueNo) -> Result<(), AllocError>
        ensures { IfOk result (λ _. self.new.found ≡ self.old.found) }
    {
        self.refused.push(cue)?;
        Ok(())
    }

    /// Whether something was found, and no show was given this cue.
    pub(crate) fn has_refused(&self, cue: CueNo) -> bool
        ensures { IsTrue result → is_clean self.now ≡ false }
    {
        !self.found.is_empty() && self.refused.iter().any(|refused| *refused == cue)
    }

    /// One more.
    pub(crate) fn note(&mut self, mistake: Mistake) -> Result<(), AllocError>
        ensures { IfOk result (λ _. is_clean self.new ≡ false) }
    {
        self.found.push(Finding {
            line: self.line,
            subject: self.subject,
            mistake,
        })?;
        Ok(())
    }

    /// All of them, in the order in which they were found.
    pub(crate) fn into_vec(self) -> Vec<Finding>
        ensures { result ≡ self.found }
    {
        let Findings { found, .. } = self;
        found
    }
}
