//! What a reply's commands made of the show, in words.
ghost use Rattle.std.specs.Prelude.{◌≡◌, ◌++◌, IfOk, None, OnOk, false, true};
ghost use Rattle.std.specs.List.{filter_map};
ghost use Rattle.cue_evening.specs.Replies as spec;

use crate::names::{push_between, push_cues, push_devices, push_list, push_number};
use cue_core::Event;
use cue_show::{CueNo, DeviceNo, Parts};
use std::alloc::{AllocError, Global};

// Parts what follows from what stands there already.
fn push_comma(more: &mut Vec<u8>) -> Result<(), AllocError>
    ensures { OnOk result (more.new.items ≡ spec.parted more.old.items) }
{
    if more.is_empty() {
        return Ok(());
    }
    more.extend_from_slice(b", ")
}

// The devices of the parts that are optional, or of those that are required.
fn devices_of(alloc: Global, parts: &Parts, optional: bool) -> Result<Vec<DeviceNo>, AllocError>
    ensures { IfOk result (λ devices. devices.items ≡ spec.devices_of optional parts.now) }
{
    parts
        .as_slice()
        .iter()
        .filter(|x| if optional { x.optional } else { !x.optional })
        .map(|x| x.device)
        .collect(alloc)
}

// Writes a device and its port.
fn push_device(more: &mut Vec<u8>, device: DeviceNo, port: u16) -> Result<(), AllocError>
    ensures { OnOk result (more.new.items ≡ more.old.items ++ spec.device_text device port) }
{
    push_between(more, b"device ", &device, b" at ")?;
    push_number(more, u64::from(port))
}

// Writes the optional devices, if there are any.
fn push_optional(more: &mut Vec<u8>, optional: &[DeviceNo]) -> Result<(), AllocError>
    ensures { OnOk result (more.new.items ≡ more.old.items ++ spec.optional_text optional.now) }
{
    if optional.is_empty() {
        return Ok(());
    }
    more.extend_from_slice(b", optional ")?;
    push_list(more, optional)
}

// Writes a cue, the devices that it requires and those that are optional.
#[tactic(auto, unfolding(crate::specs::Replies::cue_text))]
fn push_cue_of(
    more: &mut Vec<u8>,
    cue: CueNo,
    required: &[DeviceNo],
    optional: &[DeviceNo],
) -> Result<(), AllocError>
    ensures { OnOk result (more.new.items ≡ more.old.items ++ spec.cue_text cue required.now optional.now) }
{
    push_between(more, b"cue ", &cue, b", ")?;
    push_devices(more, required)?;
    push_optional(more, optional)?;
    Ok(())
}

// Writes a cue and its devices.
fn push_cue(alloc: Global, more: &mut Vec<u8>, cue: CueNo, parts: &Parts) -> Result<(), AllocError>
    ensures { OnOk result (more.new.items ≡ more.old.items ++ spec.cue_text cue (spec.devices_of false parts.now)
        (spec.devices_of true parts.now)) }
{
    let (required, optional) = (
        devices_of(alloc, parts, false)?,
        devices_of(alloc, parts, true)?,
    );
    push_cue_of(more, cue, &required, &optional)
}

// Writes what is new by an event, if something is.
fn push_new(alloc: Global, more: &mut Vec<u8>, event: &Event) -> Result<(), AllocError>
    ensures { OnOk result (more.new.items ≡ spec.with_piece more.old.items (spec.new_text event.now)) }
{
    match event {
        Event::Device(device, port) => {
            push_comma(more)?;
            push_device(more, *device, *port)
        }
        Event::Cue(cue, parts) => {
            push_comma(more)?;
            push_cue(alloc, more, *cue, parts)
        }
        Event::NoDevice(_) | Event::NoCue(_) | Event::Place(_) => Ok(()),
        Event::Start(_, _, _) | Event::Go(_) | Event::Cancel(_, _) => Ok(()),
        Event::Ready(_, _) | Event::Done(_, _) => Ok(()),
        Event::LetGo(_, _) | Event::Failed(_, _) | Event::Excuse(_, _) => Ok(()),
    }
}

// Writes what is new by events.
fn push_all_new(alloc: Global, more: &mut Vec<u8>, events: &[Event]) -> Result<(), AllocError>
    ensures { OnOk result (more.new.items ≡ spec.with_new more.old.items events.now) }
{
    for event in events {
        push_new(alloc, more, event)?;
    }
    Ok(())
}

// The device that is removed by an event.
fn removed_device(event: &Event) -> Option<DeviceNo>
    ensures { result ≡ spec.removed_device event.now }
{
    if let Event::NoDevice(device) = event {
        Some(*device)
    } else {
        None
    }
}

// The cue that is removed by an event.
fn removed_cue(event: &Event) -> Option<CueNo>
    ensures { result ≡ spec.removed_cue event.now }
{
    if let Event::NoCue(cue) = event {
        Some(*cue)
    } else {
        None
    }
}

// The cue that the operator was moved to last.
fn last_place(events: &[Event]) -> Option<CueNo>
    ensures { result ≡ spec.last_place None events.now }
{
    let mut place = None;
    for event in events {
        if let Event::Place(cue) = event {
            place = Some(*cue);
        }
    }
    place
}

// The devices that are removed by events.
fn removed_devices(alloc: Global, events: &[Event]) -> Result<Vec<DeviceNo>, AllocError>
    ensures { IfOk result (λ devices. devices.items ≡ filter_map spec.removed_device events.now) }
{
    events
        .iter()
        .filter_map(|event| removed_device(event))
        .collect(alloc)
}

// The cues that are removed by events.
fn removed_cues(alloc: Global, events: &[Event]) -> Result<Vec<CueNo>, AllocError>
    ensures { IfOk result (λ cues. cues.items ≡ filter_map spec.removed_cue events.now) }
{
    events
        .iter()
        .filter_map(|event| removed_cue(event))
        .collect(alloc)
}

// Writes devices that are removed, if there are any.
fn push_removed_devices(more: &mut Vec<u8>, devices: &[DeviceNo]) -> Result<(), AllocError>
    ensures { OnOk result (more.new.items ≡ spec.with_piece more.old.items (spec.removed_devices devices.now)) }
{
    if devices.is_empty() {
        return Ok(());
    }
    push_comma(more)?;
    push_devices(more, devices)?;
    more.extend_from_slice(b" removed")
}

// Writes cues that are removed, if there are any.
fn push_removed_cues(more: &mut Vec<u8>, cues: &[CueNo]) -> Result<(), AllocError>
    ensures { OnOk result (more.new.items ≡ spec.with_piece more.old.items (spec.removed_cues cues.now)) }
{
    if cues.is_empty() {
        return Ok(());
    }
    push_comma(more)?;
    push_cues(more, cues)?;
    more.extend_from_slice(b" removed")
}

// Writes where the operator was moved to, if he was.
fn push_place(more: &mut Vec<u8>, place: Option<CueNo>) -> Result<(), AllocError>
    ensures { OnOk result (more.new.items ≡ spec.with_piece more.old.items (spec.place_text place)) }
{
    match place {
        Some(cue) => {
            push_comma(more)?;
            more.extend_from_slice(b"the place is cue ")?;
            more.extend_from_slice(cue.text())
        }
        None => Ok(()),
    }
}

/// Writes what was made of the show by events: what is new, and if the address speaks to many the other changes, too.
pub fn push_made(
    alloc: Global,
    more: &mut Vec<u8>,
    is_wide: bool,
    events: &[Event],
) -> Result<(), AllocError>
    ensures { OnOk result (more.new.items ≡ spec.with_made is_wide more.old.items events.now) }
{
    push_all_new(alloc, more, events)?;
    if !is_wide {
        return Ok(());
    }
    push_removed_devices(more, &removed_devices(alloc, events)?)?;
    push_removed_cues(more, &removed_cues(alloc, events)?)?;
    push_place(more, last_place(events))
}
