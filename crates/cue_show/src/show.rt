//! The show: the table of devices, the stack of cues, and the place of the operator.
ghost use Rattle.std.specs.Prelude.{◌≡◌, ◌≤◌, ℕ, List, IsTrue, IfSome, IfOk, OnOk, OnErr, length};
ghost use Rattle.std.specs.Map.Iter.{ShowsInOrder, ShowsValuesInOrder, deref_pair};
ghost use Rattle.std.specs.Option.{option_copied};
ghost use Rattle.cue_show.specs.Show.{empty_show, port_of, parts_of, has_device, has_cue, is_used, is_full, are_known};
ghost use Rattle.cue_show.specs.Show.{following, is_place_of, is_entry, is_cue_of, is_show, can_add_device};
ghost use Rattle.cue_show.specs.Show.{can_remove_device, can_add_cue, with_device, without_device, with_cue};
ghost use Rattle.cue_show.specs.Show.{without_cue, with_place};
ghost use Rattle.cue_show.specs.declared.part.Part.{Part};

use crate::device::DeviceNo;
use crate::limits::{MAX_CUES, MAX_DEVICES};
use crate::number::CueNo;
use crate::part::Parts;
use indexmap::IndexMap;
use indexmap::map::Iter;
use std::alloc::{AllocError, Global};
use std::marker::Model;

/// A table of devices with their ports and a stack of cues with their parts, each in order of entry, and the place of
/// the operator.
///
/// Looking a device or a cue up takes the same time however many there are. A show keeps the allocator that it was
/// made with.
#[derive(Debug, Drop)]
pub struct Show {
    devices: IndexMap<DeviceNo, u16>,
    cues: IndexMap<CueNo, Parts>,
    place: Option<CueNo>,
}

impl Model for Show {
    ghost use Rattle.std.specs.Prelude.{IsTrue};
    ghost use Rattle.cue_show.specs.Show.{ShowLists, is_show};

    ghost Value = { ShowLists };

    ghost view = { λ s. record { devices = s.devices.entries; cues = s.cues.entries; place = s.place } };

    ghost invariant = { λ s. IsTrue
        (is_show (record { devices = s.devices.entries; cues = s.cues.entries; place = s.place })) };
}

impl Show {
    /// A show without devices and cues, and with no place.
    pub fn new(alloc: Global) -> Show
        ensures { result ≡ empty_show }
    {
        Show {
            devices: IndexMap::new(alloc),
            cues: IndexMap::new(alloc),
            place: None,
        }
    }

    /// The devices with their ports, in order of entry.
    pub fn devices(&self) -> Iter<'_, DeviceNo, u16>
        ensures list { result ≡ self.now.devices }
        ensures len { length result ≤ MAX_DEVICES }
        ensures runs { ShowsInOrder (deref_pair {K = ℕ} {X = ℕ}) }
        ensures values_run { ShowsValuesInOrder (deref_pair {K = ℕ} {X = ℕ}) }
        ensures rules { IsTrue (is_show self.now) }
    {
        self.devices.iter()
    }

    /// The cues with their parts, in the order of the stack.
    pub fn cues(&self) -> Iter<'_, CueNo, Parts>
        ensures list { result ≡ self.now.cues }
        ensures len { length result ≤ MAX_CUES }
        ensures runs { ShowsInOrder (deref_pair {K = List ℕ} {X = List Part}) }
        ensures values_run { ShowsValuesInOrder (deref_pair {K = List ℕ} {X = List Part}) }
        ensures rules { IsTrue (is_show self.now) }
    {
        self.cues.iter()
    }

    /// The cue that the operator stands at.
    pub fn place(&self) -> Option<CueNo>
        ensures place { result ≡ self.now.place }
        ensures rules { IsTrue (is_show self.now) }
    {
        self.place // a cue of the stack, or none
    }

    /// The port of a device of the table, 1 to 65,535.
    pub fn port(&self, device: DeviceNo) -> Option<u16>
        ensures port { result ≡ port_of self.now device }
        ensures entry { IfSome result (λ port. IsTrue (is_entry (device, port))) }
    {
        self.devices.get(&device).copied()
    }

    /// The parts of a cue of the stack.
    pub fn parts(&self, cue: CueNo) -> Option<&Parts>
        ensures parts { option_copied result ≡ parts_of self.now cue }
        ensures cue { IfSome result (λ parts. IsTrue (is_cue_of self.now (cue, parts.now))) }
    {
        self.cues.get(&cue)
    }

    /// The cue that follows in the stack; none follows the last one, nor one that is not there.
    pub fn following(&self, cue: CueNo) -> Option<CueNo>
        ensures next { result ≡ following self.now cue }
        ensures is_place { IsTrue (is_place_of self.now result) }
    {
        // Called for its bound, so that the next index fits.
        let _len = self.cues.len();
        let index = self.cues.get_index_of(&cue)?;
        let (next, _) = self.cues.get_index(index + 1)?;
        Some(*next)
    }

    /// Whether the device is in the table.
    pub fn has_device(&self, device: DeviceNo) -> bool
        ensures { result ≡ has_device self.now device }
    {
        self.devices.contains_key(&device)
    }

    /// Whether the cue is in the stack.
    pub fn has_cue(&self, cue: CueNo) -> bool
        ensures { result ≡ has_cue self.now cue }
    {
        self.cues.contains_key(&cue)
    }

    /// Whether a cue of the stack has a part for the device. It looks through the whole stack.
    pub fn is_used(&self, device: DeviceNo) -> bool
        ensures { result ≡ is_used self.now device }
    {
        self.cues.values().any(|parts| parts.uses(device))
    }

    /// Whether the stack has as many cues as it can have.
    pub fn is_full(&self) -> bool
        ensures { result ≡ is_full self.now }
    {
        self.cues.len() >= MAX_CUES
    }

    /// Whether each part is for a device of the table.
    pub fn has_devices_of(&self, parts: &Parts) -> bool
        ensures { result ≡ are_known self.now parts.now }
    {
        parts
            .as_slice()
            .iter()
            .all(|part| self.has_device(part.device))
    }

    /// Whether the device can be put into the table: it is not there yet, and the port is not 0.
    pub fn can_add_device(&self, device: DeviceNo, port: u16) -> bool
        ensures { result ≡ can_add_device self.now device port }
    {
        // Called for its clause that the number is in range.
        let _number = device.number();
        !self.has_device(device) && port >= 1
    }

    /// Whether the device can be taken out of the table: it is there, and no cue has it.
    pub fn can_remove_device(&self, device: DeviceNo) -> bool
        ensures { result ≡ can_remove_device self.now device }
    {
        self.has_device(device) && !self.is_used(device)
    }

    /// Whether the cue can be put on the stack: it is not there yet, there is room, and its parts are 1 to 16 of
    /// distinct devices of the table, each with at most 32 bytes, and one at least is required.
    pub fn can_add_cue(&self, cue: CueNo, parts: &Parts) -> bool
        ensures { result ≡ can_add_cue self.now cue parts.now }
    {
        // Called for its clause that the text is a cue number.
        let _text = cue.text();
        !self.has_cue(cue) && !self.is_full() && parts.is_fit() && self.has_devices_of(parts)
    }

    /// Puts the device last into the table, with a port of 1 to 65,535; a caller tests by `can_add_device` first.
    /// If memory runs out nothing changes.
    pub fn add_device(&mut self, device: DeviceNo, port: u16) -> Result<(), AllocError>
        requires { IsTrue (can_add_device self.old device port) }
        ensures ok { OnOk result (self.new ≡ with_device self.old device port) }
        ensures err { OnErr result (self.new ≡ self.old) }
    {
        self.devices.insert(device, port)?;
        Ok(())
    }

    /// Takes the device out of the table; a caller tests by `can_remove_device` first. The others keep their order.
    pub fn remove_device(&mut self, device: DeviceNo)
        requires { IsTrue (can_remove_device self.old device) }
        ensures { self.new ≡ without_device self.old device }
    {
        let _port = self.devices.shift_remove(&device);
    }

    /// Puts the cue last on the stack; a caller tests by `can_add_cue` first. If memory runs out nothing changes,
    /// and the parts are dropped.
    pub fn add_cue(&mut self, cue: CueNo, parts: Parts) -> Result<(), AllocError>
        requires { IsTrue (can_add_cue self.old cue parts) }
        ensures ok { OnOk result (self.new ≡ with_cue self.old cue parts) }
        ensures err { OnErr result (self.new ≡ self.old) }
    {
        self.cues.insert(cue, parts)?;
        Ok(())
    }

    /// Takes the cue off the stack. The others keep their order; a place at it goes on to the cue that followed, or
    /// to none.
    pub fn remove_cue(&mut self, cue: CueNo)
        requires { IsTrue (has_cue self.old cue) }
        ensures { self.new ≡ without_cue self.old cue }
    {
        let next = self.place_without(cue);
        let _parts = self.cues.shift_remove(&cue);
        self.place = next;
    }

    // The place once the cue is gone.
    fn place_without(&self, cue: CueNo) -> Option<CueNo>
        ensures { result ≡ (without_cue self.now cue).place }
    {
        if self.place == Some(cue) {
            self.following(cue)
        } else {
            self.place
        }
    }

    /// Moves the operator to a cue of the stack, or to none.
    pub fn set_place(&mut self, place: Option<CueNo>)
        requires { IsTrue (is_place_of self.old place) }
        ensures { self.new ≡ with_place self.old place }
    {
        self.place = place;
    }

    /// A show that is equal to this one, on the same allocator.
    pub fn try_clone(&self) -> Result<Show, AllocError>
        ensures { IfOk result (λ s. s ≡ self.now) }
    {
        Ok(Show {
            devices: self.devices.clone()?,
            cues: self.cues.clone()?,
            place: self.place,
        })
    }
}
