//! What a show file calls devices and cues, found without a scan.
ghost use Rattle.std.specs.Prelude.{◌≡◌, ℕ, List, [], IfOk, OnOk, false, nat_eq, option_copied, string_bytes};
ghost use Rattle.cue_show.specs.Number.{same_text};
ghost use Rattle.cue_report.specs.Names as spec;

use cue_show::{CueNo, DeviceNo};
use indexmap::IndexMap;
use std::alloc::{AllocError, Global};

/// The names of a show file, and which cues it has.
#[derive(Drop)]
pub struct Names {
    /// What the show is called; empty if that is not said.
    pub title: String,
    // In the order of the file.
    cues: IndexMap<CueNo, String>,
    devices: IndexMap<DeviceNo, String>,
}

// A name that may be there; empty if it is not.
fn text_of(name: Option<&String>) -> &str
    ensures { result.now ≡ spec.text_of (option_copied name.entry) }
{
    match name {
        Some(name) => name.as_str(),
        None => "",
    }
}

impl Names {
    /// A file without cues and devices, of a show that is called so.
    pub fn new(alloc: Global, title: &str) -> Result<Names, AllocError>
        ensures title { IfOk result (λ names. string_bytes names.title ≡ title.now) }
        ensures cues { IfOk result (λ names. names.cues.entries ≡ []) }
        ensures devices { IfOk result (λ names. names.devices.entries ≡ []) }
    {
        Ok(Names {
            title: String::from_str(alloc, title)?,
            cues: IndexMap::new(alloc),
            devices: IndexMap::new(alloc),
        })
    }

    /// The file has this cue next, and calls it so; empty if it has no name.
    pub fn add_cue(&mut self, alloc: Global, cue: &CueNo, name: &str) -> Result<(), AllocError>
        ensures named { OnOk result (spec.cue_name self.new cue.now ≡ name.now) }
        ensures others { OnOk result ((q : List ℕ) → same_text cue.now q ≡ false →
            spec.cue_name self.new q ≡ spec.cue_name self.old q) }
    {
        let _ = self.cues.insert(*cue, String::from_str(alloc, name)?)?;
        Ok(())
    }

    /// The file has this device, and calls it so; empty if it has no name.
    pub fn add_device(
        &mut self,
        alloc: Global,
        device: &DeviceNo,
        name: &str,
    ) -> Result<(), AllocError>
        ensures named { OnOk result (spec.device_name self.new device.now ≡ name.now) }
        ensures others { OnOk result ((q : ℕ) → nat_eq device.now q ≡ false →
            spec.device_name self.new q ≡ spec.device_name self.old q) }
    {
        let _ = self
            .devices
            .insert(*device, String::from_str(alloc, name)?)?;
        Ok(())
    }

    /// What the file calls the cue; empty if it has no name or is not there.
    pub fn cue_name(&self, cue: &CueNo) -> &str
        ensures { result.now ≡ spec.cue_name self.now cue.now }
    {
        text_of(self.cues.get(cue))
    }

    /// What the file calls the device; empty if it has no name or is not there.
    pub fn device_name(&self, device: &DeviceNo) -> &str
        ensures { result.now ≡ spec.device_name self.now device.now }
    {
        text_of(self.devices.get(device))
    }

    /// The place of a cue in the file; none if the file does not have it.
    pub fn place_of(&self, cue: &CueNo) -> Option<usize>
        ensures { result ≡ spec.place_of self.now cue.now }
    {
        self.cues.get_index_of(cue)
    }

    /// How many cues the file has.
    pub fn count(&self) -> usize
        ensures { result ≡ spec.count self.now }
    {
        self.cues.len()
    }

    /// The cue at a place of the file.
    pub fn cue_at(&self, place: usize) -> Option<CueNo>
        ensures { result ≡ spec.cue_at self.now place }
    {
        match self.cues.get_index(place) {
            Some((cue, _)) => Some(*cue),
            None => None,
        }
    }
}
