//! Which devices stand elsewhere than the stack supposes, or nobody knows where.
ghost use Rattle.std.specs.Prelude.{◌≡◌, ◌++◌, IfOk, OnOk};
ghost use Rattle.std.specs.List.{filter_map};
ghost use Rattle.std.specs.Map.{keys_of};
ghost use Rattle.std.specs.Option.{option_to_list};
ghost use Rattle.cue_whereabouts.specs.Differing as differing;

use crate::last::{LastPart, PartBytes};
use crate::lists::push_last;
use crate::memory::Whereabouts;
use crate::supposing::{Supposed, supposed_at};
use crate::telling::bytes_in;
use cue_core::State;
use cue_exchange::Live;
use cue_show::{CueNo, DeviceNo};
use std::alloc::{AllocError, Global};

/// A device that does not stand as the stack supposes.
#[derive(Drop)]
pub struct Difference {
    pub device: DeviceNo,
    /// The cue that the stack supposes it to have carried out last.
    pub supposed: CueNo,
    /// The last part that has ended of it; none if nothing was heard of it.
    pub last: Option<LastPart>,
    /// Whether the cue that is next has a part for it.
    pub is_next: bool,
}

impl Difference {
    /// Whether it is known to stand elsewhere, or not to be where anybody knows. A device of which nothing was heard is
    /// neither.
    pub fn is_elsewhere(&self) -> bool
        ensures { result ≡ differing.is_elsewhere self.now }
    {
        self.last.is_some()
    }
}

// Whether the bytes are known, and are these.
fn are_bytes(bytes: &PartBytes, kept: &Option<PartBytes>) -> bool
    ensures { result ≡ differing.are_bytes bytes.now kept.now }
{
    match kept {
        Some(kept) => kept.is_same(bytes),
        None => false,
    }
}

// Whether the device stands as these bytes had it go.
fn stands_as(bytes: &PartBytes, last: &Option<LastPart>) -> bool
    ensures { result ≡ differing.stands_as bytes.now last.now }
{
    match last {
        Some(last) => last.end().is_carried_out() && are_bytes(bytes, &last.bytes()),
        None => false,
    }
}

// Whether the cue of the device was given, and the device has not answered.
fn is_on_its_way(device: DeviceNo, live: &Live) -> bool
    ensures { result ≡ differing.is_on_its_way device live.now }
{
    match live.of_device(device) {
        Some(attempt) => attempt.stage.is_decided() && attempt.answers.waits_for(device),
        None => false,
    }
}

// Puts it after the others, if there is one.
fn push_some(found: &mut Vec<Difference>, difference: Option<Difference>) -> Result<(), AllocError>
    ensures { OnOk result (found.new.items ≡ found.old.items ++ option_to_list difference) }
{
    if let Some(difference) = difference {
        push_last(found, difference)?;
    }
    Ok(())
}

impl Whereabouts {
    // How the device differs from what is supposed of it at this cue.
    fn difference_from(
        &self,
        state: &State,
        cue: CueNo,
        device: DeviceNo,
        supposed: &Supposed,
    ) -> Option<Difference>
        ensures { result ≡ differing.difference_from state.now cue self.now device supposed.now }
    {
        let last = self.last_of(device);
        if stands_as(&supposed.bytes, &last) || is_on_its_way(device, state.live()) {
            return None;
        }
        Some(Difference {
            device,
            supposed: supposed.cue,
            last,
            is_next: bytes_in(state.show(), device, cue).is_some(),
        })
    }

    // The same; none if nothing is supposed of it.
    fn difference_of(&self, state: &State, cue: CueNo, device: DeviceNo) -> Option<Difference>
        ensures { result ≡ differing.difference_of state.now cue self.now device }
    {
        match supposed_at(cue, device, state.show()) {
            Some(supposed) => self.difference_from(state, cue, device, &supposed),
            None => None,
        }
    }

    // The devices that differ at this cue.
    fn differences_at(
        &self,
        alloc: Global,
        state: &State,
        cue: CueNo,
    ) -> Result<Vec<Difference>, AllocError>
        ensures { IfOk result (λ found. found.items
            ≡ filter_map (differing.difference_of state.now cue self.now) (keys_of state.now.show.devices)) }
    {
        let mut found = Vec::new(alloc);
        for (device, _) in state.show().devices() {
            let difference = self.difference_of(state, cue, *device);
            push_some(&mut found, difference)?;
        }
        Ok(found)
    }

    /// The devices that do not stand as the stack supposes at the place, in the order of the table: those that stand
    /// elsewhere, those of which nobody knows where, and those of which nothing was heard. Without a place nothing is
    /// supposed.
    pub fn differences(&self, alloc: Global, state: &State) -> Result<Vec<Difference>, AllocError>
        ensures { IfOk result (λ found. found.items ≡ differing.differences state.now self.now) }
    {
        match state.show().place() {
            Some(cue) => self.differences_at(alloc, state, cue),
            None => Ok(Vec::new(alloc)),
        }
    }
}
