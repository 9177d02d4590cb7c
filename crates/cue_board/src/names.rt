//! What people call the numbers of a view, and where its controller is.
ghost use Rattle.std.specs.Prelude.{◌≡◌};
ghost use Rattle.std.specs.Option.{option_copied};
ghost use Rattle.cue_board.specs.Names as spec;

use cue_show::{CueNo, DeviceNo};
use cue_show_file::{CueEntry, DeviceEntry, Group, ShowFile};

/// What is drawn beside a view.
#[derive(Clone, Copy)]
pub struct Names<'a> {
    /// The show file, for names and notes.
    pub file: Option<&'a ShowFile>,
    /// The cues that are stood by together, as the desk does it.
    pub together: &'a [Group],
    /// The port of 127.0.0.1 at which the controller is asked.
    pub port: u16,
}

// The text; empty if there is none.
fn text_of(text: &Option<String>) -> &str
    ensures { result.now ≡ spec.text_of text.now }
{
    match text {
        Some(text) => text.as_str(),
        None => "",
    }
}

// The first entry of the cue.
fn cue_in(cues: &[CueEntry], cue: CueNo) -> Option<&CueEntry>
    ensures { option_copied result ≡ spec.cue_in cue cues.now }
{
    cues.iter().find(|entry| entry.number == cue)
}

// The first entry of the device.
fn device_in(devices: &[DeviceEntry], device: DeviceNo) -> Option<&DeviceEntry>
    ensures { option_copied result ≡ spec.device_in device devices.now }
{
    devices.iter().find(|entry| entry.number == device)
}

impl<'a> Names<'a> {
    // What the file has of the cue.
    fn cue(&self, cue: CueNo) -> Option<&'a CueEntry>
        ensures { option_copied result ≡ spec.cue_entry self.now cue }
    {
        match self.file {
            Some(file) => cue_in(&file.cues, cue),
            None => None,
        }
    }

    // What the file has of the device.
    fn device(&self, device: DeviceNo) -> Option<&'a DeviceEntry>
        ensures { option_copied result ≡ spec.device_entry self.now device }
    {
        match self.file {
            Some(file) => device_in(&file.devices, device),
            None => None,
        }
    }

    /// What the file calls the cue; empty if it does not.
    pub fn cue_name(&self, cue: CueNo) -> &'a str
        ensures { result.now ≡ spec.cue_name self.now cue }
    {
        match self.cue(cue) {
            Some(entry) => text_of(&entry.name),
            None => "",
        }
    }

    /// What the file notes at the cue; empty if it does not.
    pub fn cue_note(&self, cue: CueNo) -> &'a str
        ensures { result.now ≡ spec.cue_note self.now cue }
    {
        match self.cue(cue) {
            Some(entry) => text_of(&entry.note),
            None => "",
        }
    }

    /// What the file calls the device; empty if it does not.
    pub fn device_name(&self, device: DeviceNo) -> &'a str
        ensures { result.now ≡ spec.device_name self.now device }
    {
        match self.device(device) {
            Some(entry) => text_of(&entry.name),
            None => "",
        }
    }
}
