//! What differs between a show file and a store.
ghost use Rattle.std.specs.Prelude.{◌≡◌, ◌==◌, IfOk, IsTrue, OnOk, false, length};
ghost use Rattle.cue_loading.specs.Loaded.{is_same};
ghost use Rattle.cue_loading.specs.Differences.{are_so, has_other_parts, has_other_port, is_in_both, is_left_cue};
ghost use Rattle.cue_loading.specs.Differences.{is_left_device, is_so};

use crate::entries::{cues_of, same_cues};
use crate::planning::{has_devices_of, has_no_other};
use cue_show::{CueNo, DeviceNo, Show};
use std::alloc::{AllocError, Global};

/// Something in which a store is not what its show file says.
#[derive(Clone, Copy, Debug, PartialEq, Eq)]
pub enum Difference {
    /// The store has the device, and the file does not.
    LeftDevice(DeviceNo),
    /// The store has the cue, and the file does not.
    LeftCue(CueNo),
    /// The file has the device, and the store does not.
    MissingDevice(DeviceNo),
    /// The file has the cue, and the store does not.
    MissingCue(CueNo),
    /// The device has this port in the store, and another one in the file.
    OtherPort(DeviceNo, u16),
    /// The cue has other parts in the store than in the file.
    OtherParts(CueNo),
    /// The order of the stack is another: the first of these cues stands where the file has the second.
    OtherOrder(CueNo, CueNo),
    /// They differ, and none of the others says how. No two shows are known of which this is so.
    Otherwise,
}

// Whether the store has exactly the devices of the file, and its cues in this order.
fn is_same(alloc: Global, file: &Show, stored: &Show) -> Result<bool, AllocError>
    ensures { IfOk result (λ same. same ≡ is_same file.now stored.now) }
{
    let cues = same_cues(&cues_of(alloc, stored)?, &cues_of(alloc, file)?);
    let devices = has_devices_of(alloc, file, stored)?;
    Ok(cues && devices && has_no_other(file, stored))
}

// Whether the two differ so.
#[tactic(auto, unfolding(crate::specs::Differences::is_so))]
fn is_so(file: &Show, stored: &Show, difference: &Difference) -> bool
    ensures { result ≡ is_so file.now stored.now difference.now }
{
    match difference {
        Difference::LeftDevice(device) => is_left_device(file, stored, *device),
        Difference::LeftCue(cue) => is_left_cue(file, stored, *cue),
        Difference::MissingDevice(device) => is_left_device(stored, file, *device),
        Difference::MissingCue(cue) => is_left_cue(stored, file, *cue),
        Difference::OtherPort(device, port) => has_other_port(file, stored, *device, *port),
        Difference::OtherParts(cue) => has_other_parts(file, stored, *cue),
        Difference::OtherOrder(cue, other) => {
            is_in_both(file, stored, *cue) && is_in_both(file, stored, *other) && *cue != *other
        }
        Difference::Otherwise => true,
    }
}

// Whether the store has a device that the file does not have.
fn is_left_device(file: &Show, stored: &Show, device: DeviceNo) -> bool
    ensures { result ≡ is_left_device file.now stored.now device }
{
    stored.has_device(device) && !file.has_device(device)
}

// Whether the store has a cue that the file does not have.
fn is_left_cue(file: &Show, stored: &Show, cue: CueNo) -> bool
    ensures { result ≡ is_left_cue file.now stored.now cue }
{
    stored.has_cue(cue) && !file.has_cue(cue)
}

// Whether both have the cue.
fn is_in_both(file: &Show, stored: &Show, cue: CueNo) -> bool
    ensures { result ≡ is_in_both file.now stored.now cue }
{
    stored.has_cue(cue) && file.has_cue(cue)
}

// Whether the store has the device at this port, and the file at another one.
fn has_other_port(file: &Show, stored: &Show, device: DeviceNo, port: u16) -> bool
    ensures { result ≡ has_other_port file.now stored.now device port }
{
    match (file.port(device), stored.port(device)) {
        (Some(wanted), Some(there)) => there == port && wanted != port,
        _ => false,
    }
}

// Whether the cue has other parts in the store than in the file.
fn has_other_parts(file: &Show, stored: &Show, cue: CueNo) -> bool
    ensures { result ≡ has_other_parts file.now stored.now cue }
{
    match (file.parts(cue), stored.parts(cue)) {
        (Some(wanted), Some(there)) => *there != *wanted,
        _ => false,
    }
}

// Puts a difference after the others, if the two differ so.
#[tactic(auto, using(crate::proofs::DifferenceLemmas::so_push))]
fn note(
    found: &mut Vec<Difference>,
    file: &Show,
    stored: &Show,
    difference: Difference,
) -> Result<(), AllocError>
    ensures { OnOk result (are_so file.now stored.now found.new.items ≡ are_so file.now stored.now found.old.items) }
{
    if is_so(file, stored, &difference) {
        found.push(difference)?;
    }
    Ok(())
}

// The devices of the file that the store does not have, or has at another port.
fn note_devices(found: &mut Vec<Difference>, file: &Show, stored: &Show) -> Result<(), AllocError>
    ensures { OnOk result (are_so file.now stored.now found.new.items ≡ are_so file.now stored.now found.old.items) }
{
    for (device, _) in file.devices() {
        let difference = match stored.port(*device) {
            None => Difference::MissingDevice(*device),
            Some(other) => Difference::OtherPort(*device, other),
        };
        note(found, file, stored, difference)?;
    }
    Ok(())
}

// The devices that the file does not have.
fn note_left_devices(
    found: &mut Vec<Difference>,
    file: &Show,
    stored: &Show,
) -> Result<(), AllocError>
    ensures { OnOk result (are_so file.now stored.now found.new.items ≡ are_so file.now stored.now found.old.items) }
{
    for (device, _) in stored.devices() {
        note(found, file, stored, Difference::LeftDevice(*device))?;
    }
    Ok(())
}

// The cues of the file that the store does not have, or has with other parts.
fn note_cues(found: &mut Vec<Difference>, file: &Show, stored: &Show) -> Result<(), AllocError>
    ensures { OnOk result (are_so file.now stored.now found.new.items ≡ are_so file.now stored.now found.old.items) }
{
    for (cue, _) in file.cues() {
        let difference = if stored.has_cue(*cue) {
            Difference::OtherParts(*cue)
        } else {
            Difference::MissingCue(*cue)
        };
        note(found, file, stored, difference)?;
    }
    Ok(())
}

// The cues that the file does not have.
fn note_left_cues(found: &mut Vec<Difference>, file: &Show, stored: &Show) -> Result<(), AllocError>
    ensures { OnOk result (are_so file.now stored.now found.new.items ≡ are_so file.now stored.now found.old.items) }
{
    for (cue, _) in stored.cues() {
        note(found, file, stored, Difference::LeftCue(*cue))?;
    }
    Ok(())
}

// The cues of a show that the other one has, too, in order.
fn common_cues(alloc: Global, show: &Show, other: &Show) -> Result<Vec<CueNo>, AllocError> {
    let mut common = Vec::new(alloc);
    for (cue, _) in show.cues() {
        if other.has_cue(*cue) {
            common.push(*cue)?;
        }
    }
    Ok(common)
}

// The first place at which the cues that both have stand in another order.
fn other_order(
    alloc: Global,
    file: &Show,
    stored: &Show,
) -> Result<Option<Difference>, AllocError> {
    let named = common_cues(alloc, file, stored)?;
    let there = common_cues(alloc, stored, file)?;
    for (cue, other) in there.iter().zip(named.iter()) {
        if *cue != *other {
            return Ok(Some(Difference::OtherOrder(*cue, *other)));
        }
    }
    Ok(None)
}

// All that differs.
fn noted(alloc: Global, file: &Show, stored: &Show) -> Result<Vec<Difference>, AllocError>
    ensures { IfOk result (λ found. IsTrue (are_so file.now stored.now found.items)) }
{
    let mut found = Vec::new(alloc);
    note_devices(&mut found, file, stored)?;
    note_cues(&mut found, file, stored)?;
    note_left_devices(&mut found, file, stored)?;
    note_left_cues(&mut found, file, stored)?;
    if let Some(order) = other_order(alloc, file, stored)? {
        note(&mut found, file, stored, order)?;
    }
    Ok(found)
}

// What was found of two that differ: something at least.
#[tactic(auto, using(crate::proofs::DifferenceLemmas::otherwise_push))]
fn at_least_one(found: &mut Vec<Difference>, file: &Show, stored: &Show) -> Result<(), AllocError>
    ensures some { IfOk result (λ _. (length found.new.items == 0) ≡ false) }
    ensures so { OnOk result (are_so file.now stored.now found.new.items ≡ are_so file.now stored.now found.old.items) }
{
    if found.is_empty() {
        found.push(Difference::Otherwise)?;
    }
    Ok(())
}

/// All in which the store is not what the file says: devices, then cues, then the order. There is none exactly if it
/// has the devices of the file with their ports, and no other one, and its stack is that of the file. The two differ in
/// each that is named.
pub fn differences(alloc: Global, file: &Show, stored: &Show) -> Result<Vec<Difference>, AllocError>
    ensures none { IfOk result (λ found. (length found.items == 0) ≡ is_same file.now stored.now) }
    ensures so { IfOk result (λ found. IsTrue (are_so file.now stored.now found.items)) }
{
    if is_same(alloc, file, stored)? {
        return Ok(Vec::new(alloc));
    }
    let mut found = noted(alloc, file, stored)?;
    at_least_one(&mut found, file, stored)?;
    Ok(found)
}
