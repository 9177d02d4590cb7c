//! The plan of a loading.
ghost use Rattle.std.specs.Prelude.{◌≡◌, [], IfOk, IfSome, IsSomeAnd, IsTrue};
ghost use Rattle.std.specs.List.{list_all};
ghost use Rattle.cue_loading.specs.Loaded.{
  has_devices_of,
  has_entry,
  has_no_other,
  has_others,
  is_loaded,
  keeps_devices,
  keeps_place,
  Loads,
};

use crate::entries::{cues_of, same_cues};
use crate::step::Step;
use crate::steps::{Task, steps_for};
use crate::trial::after;
use crate::wanted::wanted_cues;
use cue_show::{CueNo, DeviceNo, Show};
use std::alloc::{AllocError, Global};

/// A device with its port.
type Entry = (DeviceNo, u16);

// The devices of a show, in order.
fn devices_of(alloc: Global, show: &Show) -> Result<Vec<Entry>, AllocError>
    ensures { IfOk result (λ devices. devices.items ≡ show.now.devices) }
{
    let mut devices = Vec::new(alloc);
    for (device, port) in show.devices() {
        devices.push((*device, *port))?;
    }
    Ok(devices)
}

// Whether the table has the device, with its port.
fn has_entry(show: &Show, entry: Entry) -> bool
    ensures { result ≡ has_entry show.now entry }
{
    match show.port(entry.0) {
        Some(port) => port == entry.1,
        None => false,
    }
}

/// Whether the show has each device of the file with its port.
pub(crate) fn has_devices_of(alloc: Global, file: &Show, show: &Show) -> Result<bool, AllocError>
    ensures { IfOk result (λ has. has ≡ has_devices_of file.now show.now) }
{
    let devices = devices_of(alloc, file)?;
    Ok(devices.iter().all(|entry| has_entry(show, *entry)))
}

/// Whether the show has as many devices as the file.
pub(crate) fn has_no_other(file: &Show, show: &Show) -> bool
    ensures { result ≡ has_no_other file.now show.now }
{
    show.devices().len() == file.devices().len()
}

// Whether each device that the file does not have stays.
fn keeps_devices(alloc: Global, file: &Show, stored: &Show, show: &Show) -> Result<bool, AllocError>
    ensures { IfOk result (λ keeps. keeps ≡ keeps_devices file.now stored.now show.now) }
{
    let devices = devices_of(alloc, stored)?;
    Ok(devices.iter().all(|entry| file.has_device(entry.0) || has_entry(show, *entry)))
}

// Whether of the devices that the file does not have there is what is to be there.
fn has_others(
    alloc: Global,
    is_exact: bool,
    file: &Show,
    stored: &Show,
    show: &Show,
) -> Result<bool, AllocError>
    ensures { IfOk result (λ has. has ≡ has_others is_exact file.now stored.now show.now) }
{
    if is_exact {
        Ok(has_no_other(file, show))
    } else {
        keeps_devices(alloc, file, stored, show)
    }
}

// Whether a place at a cue that is still there stays.
fn keeps_place(place: Option<CueNo>, show: &Show) -> bool
    ensures { result ≡ keeps_place place show.now }
{
    match place {
        Some(cue) => !show.has_cue(cue) || show.place() == Some(cue),
        None => true,
    }
}

// Whether the show is what a loading is to make of the store.
fn is_loaded(
    alloc: Global,
    is_exact: bool,
    file: &Show,
    stored: &Show,
    show: &Show,
) -> Result<bool, AllocError>
    ensures { IfOk result (λ loaded. loaded ≡ is_loaded is_exact file.now stored.now show.now) }
{
    let wanted = wanted_cues(alloc, is_exact, file, &cues_of(alloc, stored)?)?;
    let cues = same_cues(&cues_of(alloc, show)?, &wanted);
    let devices = has_devices_of(alloc, file, show)?;
    let others = has_others(alloc, is_exact, file, stored, show)?;
    Ok(cues && devices && others && keeps_place(stored.place(), show))
}

// Steps for a store with this show.
fn steps_to(
    alloc: Global,
    is_exact: bool,
    file: &Show,
    stored: &Show,
) -> Result<Vec<Step>, AllocError> {
    let wanted = wanted_cues(alloc, is_exact, file, &cues_of(alloc, stored)?)?;
    let task = Task {
        is_exact,
        file,
        stored,
        wanted: &wanted,
    };
    steps_for(alloc, task)
}

// The steps, if a trial says that they make of the store what is wanted.
fn tried(
    alloc: Global,
    is_exact: bool,
    file: &Show,
    stored: &Show,
    steps: Vec<Step>,
) -> Result<Option<Vec<Step>>, AllocError>
    ensures { IfOk result (λ plan. IfSome plan (λ steps. Loads is_exact file.now stored.now steps.items)) }
{
    match after(stored, &steps)? {
        Some(show) if is_loaded(alloc, is_exact, file, stored, &show)? => Ok(Some(steps)),
        _ => Ok(None),
    }
}

/// What is to be asked, in order, of a controller whose store has this show, so that the file takes the place of what
/// differs from it and the stack has its order. What the file does not have stays after the cue that it stands after,
/// or at the front; if it is to be exact, it is removed. None if the stack would have more cues than it can have.
///
/// The controller takes each step, as long as nothing of the show is live and nobody else changes it. If the store is
/// what it is to be, nothing is asked.
pub fn plan(
    alloc: Global,
    is_exact: bool,
    file: &Show,
    stored: &Show,
) -> Result<Option<Vec<Step>>, AllocError>
    ensures loads { IfOk result (λ plan. IfSome plan (λ steps. Loads is_exact file.now stored.now steps.items)) }
    ensures loaded { IsTrue (is_loaded is_exact file.now stored.now stored.now)
        → IfOk result (λ plan. IsSomeAnd plan (λ steps. steps.items ≡ [])) }
{
    if is_loaded(alloc, is_exact, file, stored, stored)? {
        return Ok(Some(Vec::new(alloc)));
    }
    let steps = steps_to(alloc, is_exact, file, stored)?;
    tried(alloc, is_exact, file, stored, steps)
}
