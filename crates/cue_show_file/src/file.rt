//! A show file: its devices and its cues, with their names.
ghost use Rattle.std.specs.Prelude.{◌≡◌};

use crate::marks::{Color, Flag};
use cue_relay::Address;
use cue_show::{CueNo, DeviceNo, Parts};
use std::marker::Model;

/// A device of a show file.
#[derive(Drop)]
pub struct DeviceEntry {
    /// The line of its header, from 1; none if the file does not say.
    pub line: Option<usize>,
    pub number: DeviceNo,
    /// The port of 127.0.0.1 at which it listens, 1 to 65,535.
    pub port: u16,
    /// Where it is on the stage's network; none if it is on this machine.
    pub address: Option<Address>,
    /// What people call it; the controller never sees it.
    pub name: Option<String>,
}

/// The cues that are stood by together with one, in the order in which the file names them.
#[derive(Drop)]
pub struct Companions {
    cues: Vec<CueNo>,
}

impl Model for Companions {
    ghost use Rattle.std.specs.Prelude.{ℕ, List};

    ghost Value = { List (List ℕ) };

    ghost view = { λ c. c.cues.items };
}

impl Companions {
    /// These cues.
    pub fn of(cues: Vec<CueNo>) -> Companions
        ensures { result ≡ cues.items }
    {
        Companions { cues }
    }

    /// The cues.
    pub fn as_slice(&self) -> &[CueNo]
        ensures { result.now ≡ self.now }
    {
        &self.cues
    }
}

/// How a show file has the bytes of a part.
#[derive(Clone, Copy, Debug, PartialEq, Eq, Drop)]
pub enum Form {
    /// As a text.
    Text,
    /// By hexadecimal digits, or not at all.
    Digits,
}

/// The forms of the parts of a cue, in the order of the parts.
#[derive(Drop)]
pub struct Forms {
    forms: Vec<Form>,
}

impl Model for Forms {
    ghost use Rattle.std.specs.Prelude.{List};
    ghost use Rattle.cue_show_file.specs.declared.file.Form.{Form};

    ghost Value = { List Form };

    ghost view = { λ f. f.forms.items };
}

impl Forms {
    /// These forms.
    pub fn of(forms: Vec<Form>) -> Forms
        ensures { result ≡ forms.items }
    {
        Forms { forms }
    }

    /// The forms.
    pub fn as_slice(&self) -> &[Form]
        ensures { result.now ≡ self.now }
    {
        &self.forms
    }
}

/// A cue of a show file.
#[derive(Drop)]
pub struct CueEntry {
    /// The line of its header, from 1; none if the file does not say.
    pub line: Option<usize>,
    pub number: CueNo,
    /// What people call it; the controller never sees it.
    pub name: Option<String>,
    /// What the operator is to think of; the controller never sees it.
    pub note: Option<String>,
    /// The colour in which people find it; the controller never sees it.
    pub color: Option<Color>,
    /// Why it is one to take care of; the controller never sees it.
    pub flag: Option<Flag>,
    /// What the file names at `with`; the controller never sees it.
    pub companions: Companions,
    pub parts: Parts,
    /// How the file has the bytes of each part; none of what came out of a store, which does not say.
    pub forms: Forms,
}

impl CueEntry {
    ghost use Rattle.std.specs.Prelude.{◌≡◌, get_or};
    ghost use Rattle.cue_show_file.specs.declared.file.Form.TheVariants as form;

    /// How the file has the bytes of the part with this index.
    pub fn form(&self, index: usize) -> Form
        ensures { result ≡ get_or self.now.forms index form.Digits }
    {
        match self.forms.as_slice().get(index) {
            Some(form) => *form,
            None => Form::Digits,
        }
    }
}

/// A show file: what it says, in the order in which it says it.
#[derive(Drop)]
pub struct ShowFile {
    /// The port at which the controller listens, if the file says so.
    pub port: Option<u16>,
    /// Where this machine is on the stage's network, if the file says so: the octets as one number.
    pub listen: Option<u32>,
    pub devices: Vec<DeviceEntry>,
    pub cues: Vec<CueEntry>,
}

impl ShowFile {
    ghost use Rattle.std.specs.Prelude.{◌≡◌, option_copied};
    ghost use Rattle.cue_show_file.specs.Seen.{device_of, entry_of, name_of};

    // The entry of the device.
    fn device(&self, device: DeviceNo) -> Option<&DeviceEntry>
        ensures { option_copied result ≡ device_of self.now device }
    {
        self.devices.iter().find(|entry| entry.number == device)
    }

    /// What the file calls the device.
    pub fn device_name(&self, device: DeviceNo) -> Option<&str>
        ensures { option_copied result ≡ name_of self.now device }
    {
        match self.device(device) {
            Some(entry) => entry.name.as_deref(),
            None => None,
        }
    }

    /// The entry of the cue.
    pub fn cue(&self, cue: CueNo) -> Option<&CueEntry>
        ensures { option_copied result ≡ entry_of self.now cue }
    {
        self.cues.iter().find(|entry| entry.number == cue)
    }
}
