//! The steps of a plan, before they are tried.
use crate::entries::Cue;
use crate::step::Step;
use crate::trial::after;
use cue_show::{CueNo, DeviceNo, Parts, Show};
use std::alloc::{AllocError, Global};

/// What is to be made of a store.
#[derive(Clone, Copy)]
pub(crate) struct Task<'a> {
    /// Whether what the file does not have is removed.
    pub(crate) is_exact: bool,
    pub(crate) file: &'a Show,
    pub(crate) stored: &'a Show,
    /// The stack that the store is to have.
    pub(crate) wanted: &'a [Cue],
}

// Whether the file has the device with another port than the store.
fn is_changed(task: Task<'_>, device: DeviceNo) -> bool {
    match (task.file.port(device), task.stored.port(device)) {
        (Some(port), Some(other)) => port != other,
        _ => false,
    }
}

// Whether one of the parts is for a device that changes its port.
fn uses_changed(task: Task<'_>, parts: &Parts) -> bool {
    parts
        .as_slice()
        .iter()
        .any(|part| is_changed(task, part.device))
}

// Whether the cue is to be on the stack afterwards.
fn is_wanted(task: Task<'_>, cue: CueNo) -> bool {
    !task.is_exact || task.file.has_cue(cue)
}

// Whether a cue of the store goes before anything is added: for good, or for a device that changes its port.
fn goes_first(task: Task<'_>, cue: CueNo, parts: &Parts) -> bool {
    !is_wanted(task, cue) || uses_changed(task, parts)
}

// Whether a cue that is wanted may stay: it is in the store with these parts, and none of its devices changes.
fn can_stay(task: Task<'_>, cue: &Cue) -> bool {
    match task.stored.parts(cue.0) {
        Some(parts) => *parts == cue.1 && !uses_changed(task, parts),
        None => false,
    }
}

// Whether the cue of the store is the next one that is wanted, and may stay.
fn stays(task: Task<'_>, count: usize, cue: CueNo) -> bool {
    match task.wanted.get(count) {
        Some(next) => next.0 == cue && can_stay(task, next),
        None => false,
    }
}

// How many of the first cues that are wanted stay: they stand in the store in this order.
fn count_of_staying(task: Task<'_>) -> usize {
    let mut count = 0usize;
    for (cue, _) in task.stored.cues() {
        if stays(task, count, *cue) {
            count = count.saturating_add(1);
        }
    }
    count
}

// The devices that the store does not have.
fn add_devices(task: Task<'_>, steps: &mut Vec<Step>) -> Result<(), AllocError> {
    for (device, port) in task.file.devices() {
        if !task.stored.has_device(*device) {
            steps.push(Step::AddDevice(*device, *port))?;
        }
    }
    Ok(())
}

// The cues that go before anything is added.
fn remove_first(task: Task<'_>, steps: &mut Vec<Step>) -> Result<(), AllocError> {
    for (cue, parts) in task.stored.cues() {
        if goes_first(task, *cue, parts) {
            steps.push(Step::RemoveCue(*cue))?;
        }
    }
    Ok(())
}

// The devices that have another port.
fn change_devices(task: Task<'_>, steps: &mut Vec<Step>) -> Result<(), AllocError> {
    for (device, port) in task.file.devices() {
        if is_changed(task, *device) {
            steps.push(Step::RemoveDevice(*device))?;
            steps.push(Step::AddDevice(*device, *port))?;
        }
    }
    Ok(())
}

// A cue goes to the end of the stack. It is taken from where it is only then, so that one at most is missing meanwhile.
fn put_last(task: Task<'_>, cue: &Cue, steps: &mut Vec<Step>) -> Result<(), AllocError> {
    if let Some(parts) = task.stored.parts(cue.0) {
        if !goes_first(task, cue.0, parts) {
            steps.push(Step::RemoveCue(cue.0))?;
        }
    }
    steps.push(Step::AddCue(cue.0, cue.1.clone()?))?;
    Ok(())
}

// The cues that are wanted after those that stay.
fn put_rest(task: Task<'_>, steps: &mut Vec<Step>) -> Result<(), AllocError> {
    let staying = count_of_staying(task);
    for cue in task.wanted.iter().skip(staying) {
        put_last(task, cue, steps)?;
    }
    Ok(())
}

// The devices that the file does not have, if none of these is to stay.
fn remove_devices(task: Task<'_>, steps: &mut Vec<Step>) -> Result<(), AllocError> {
    for (device, _) in task.stored.devices() {
        if task.is_exact && !task.file.has_device(*device) {
            steps.push(Step::RemoveDevice(*device))?;
        }
    }
    Ok(())
}

// Where the place is to be: at the cue where it is, or at the first one after that which is still there.
fn wanted_place(task: Task<'_>) -> Option<CueNo> {
    let mut place = task.stored.place();
    for _ in task.stored.cues() {
        match place {
            Some(cue) if !is_wanted(task, cue) => place = task.stored.following(cue),
            _ => return place,
        }
    }
    place
}

// Moves the place back, if a removal has taken it from there.
fn put_place_back(task: Task<'_>, steps: &mut Vec<Step>) -> Result<(), AllocError> {
    let Some(place) = wanted_place(task) else {
        return Ok(());
    };
    if let Some(show) = after(task.stored, steps)? {
        if show.place() != Some(place) {
            steps.push(Step::MovePlace(place))?;
        }
    }
    Ok(())
}

/// Steps that are to make of the store what is wanted; whether they do is for a trial to say.
pub(crate) fn steps_for(alloc: Global, task: Task<'_>) -> Result<Vec<Step>, AllocError> {
    let mut steps = Vec::new(alloc);
    add_devices(task, &mut steps)?;
    remove_first(task, &mut steps)?;
    change_devices(task, &mut steps)?;
    put_rest(task, &mut steps)?;
    remove_devices(task, &mut steps)?;
    put_place_back(task, &mut steps)?;
    Ok(steps)
}
