//! Commands on the device table, the cue stack and the place.
ghost use Rattle.std.specs.Prelude.{◌≡◌, IfOk};
ghost use Rattle.cue_core.specs.Judge.{on_add_device, on_remove_device, on_add_cue, on_new_cue, on_goto, on_remove_cue};

use crate::command::{Code, Verdict};
use crate::event::Event;
use crate::events::Events;
use crate::judging::verdicts::{known, made, refused};
use crate::state::State;
use cue_show::{CueNo, DeviceNo, Parts};
use std::alloc::{AllocError, Global};

pub(crate) fn on_add_device(state: &State, device: DeviceNo, port: u16) -> (Verdict, Events)
    ensures { result ≡ on_add_device state.now device port }
{
    match state.show().port(device) {
        None => made(Event::Device(device, port)),
        Some(old) => {
            if old == port {
                known()
            } else {
                refused(Code::Duplicate)
            }
        }
    }
}

pub(crate) fn on_remove_device(state: &State, device: DeviceNo) -> (Verdict, Events)
    ensures { result ≡ on_remove_device state.now device }
{
    let show = state.show();
    if !show.has_device(device) {
        return refused(Code::NoMethod);
    }
    if show.is_used(device) {
        return refused(Code::InUse);
    }
    made(Event::NoDevice(device))
}

pub(crate) fn on_add_cue(
    alloc: Global,
    state: &State,
    cue: CueNo,
    parts: &Parts,
) -> Result<(Verdict, Events), AllocError>
    ensures { IfOk result (λ r. r ≡ on_add_cue state.now cue parts.now) }
{
    if !state.show().has_devices_of(parts) {
        return Ok(refused(Code::UnknownDevice));
    }
    on_new_cue(alloc, state, cue, parts)
}

fn on_new_cue(
    alloc: Global,
    state: &State,
    cue: CueNo,
    parts: &Parts,
) -> Result<(Verdict, Events), AllocError>
    ensures { IfOk result (λ r. r ≡ on_new_cue state.now cue parts.now) }
{
    let show = state.show();
    match show.parts(cue) {
        Some(old) => Ok(if *old == *parts {
            known()
        } else {
            refused(Code::Duplicate)
        }),
        None => {
            if show.is_full() {
                return Ok(refused(Code::Full));
            }
            let copy = Parts::from_slice(alloc, parts.as_slice())?;
            Ok(made(Event::Cue(cue, copy)))
        }
    }
}

pub(crate) fn on_goto(state: &State, cue: CueNo) -> (Verdict, Events)
    ensures { result ≡ on_goto state.now cue }
{
    let show = state.show();
    if !show.has_cue(cue) {
        return refused(Code::NoMethod);
    }
    if show.place() == Some(cue) {
        return known();
    }
    made(Event::Place(cue))
}

pub(crate) fn on_remove_cue(state: &State, cue: CueNo) -> (Verdict, Events)
    ensures { result ≡ on_remove_cue state.now cue }
{
    if !state.show().has_cue(cue) {
        return refused(Code::NoMethod);
    }
    if state.live().of_cue(cue).is_some() {
        return refused(Code::Busy);
    }
    made(Event::NoCue(cue))
}
