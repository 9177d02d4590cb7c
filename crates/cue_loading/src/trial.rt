//! A plan is tried on a copy of the store's show before anything is asked.
ghost use Rattle.std.specs.Prelude.{◌≡◌, IfOk};
ghost use Rattle.cue_loading.specs.Steps.{after_step, after_steps, if_taken};

use crate::step::Step;
use cue_show::{CueNo, DeviceNo, Parts, Show};
use std::alloc::AllocError;

fn add_device(show: &mut Show, device: DeviceNo, port: u16) -> Result<bool, AllocError>
    ensures { IfOk result (λ taken. after_step show.old (Step.AddDevice device port) ≡ if_taken taken show.new) }
{
    if show.can_add_device(device, port) {
        show.add_device(device, port)?;
        return Ok(true);
    }
    Ok(false)
}

fn remove_device(show: &mut Show, device: DeviceNo) -> bool
    ensures { after_step show.old (Step.RemoveDevice device) ≡ if_taken result show.new }
{
    if show.can_remove_device(device) {
        show.remove_device(device);
        return true;
    }
    false
}

fn add_cue(show: &mut Show, cue: CueNo, parts: &Parts) -> Result<bool, AllocError>
    ensures { IfOk result (λ taken. after_step show.old (Step.AddCue cue parts.now) ≡ if_taken taken show.new) }
{
    if show.can_add_cue(cue, parts) {
        show.add_cue(cue, parts.clone()?)?;
        return Ok(true);
    }
    Ok(false)
}

fn remove_cue(show: &mut Show, cue: CueNo) -> bool
    ensures { after_step show.old (Step.RemoveCue cue) ≡ if_taken result show.new }
{
    if show.has_cue(cue) {
        show.remove_cue(cue);
        return true;
    }
    false
}

fn move_place(show: &mut Show, cue: CueNo) -> bool
    ensures { after_step show.old (Step.MovePlace cue) ≡ if_taken result show.new }
{
    if show.has_cue(cue) {
        show.set_place(Some(cue));
        return true;
    }
    false
}

// Makes the step; whether a controller with this show takes it.
fn carry_out(show: &mut Show, step: &Step) -> Result<bool, AllocError>
    ensures { IfOk result (λ taken. after_step show.old step.now ≡ if_taken taken show.new) }
{
    match step {
        Step::AddDevice(device, port) => add_device(show, *device, *port),
        Step::RemoveDevice(device) => Ok(remove_device(show, *device)),
        Step::AddCue(cue, parts) => add_cue(show, *cue, parts),
        Step::RemoveCue(cue) => Ok(remove_cue(show, *cue)),
        Step::MovePlace(cue) => Ok(move_place(show, *cue)),
    }
}

// Makes each step in turn; whether each is taken.
fn carry_all_out(show: &mut Show, steps: &[Step]) -> Result<bool, AllocError>
    ensures { IfOk result (λ all. after_steps show.old steps.now ≡ if_taken all show.new) }
{
    let mut all = true;
    for step in steps {
        all &= carry_out(show, step)?;
    }
    Ok(all)
}

/// The show after each of these steps; none if a controller with this show would refuse one of them.
pub fn after(show: &Show, steps: &[Step]) -> Result<Option<Show>, AllocError>
    ensures { IfOk result (λ after. after ≡ after_steps show.now steps.now) }
{
    let mut copy = show.try_clone()?;
    if carry_all_out(&mut copy, steps)? {
        Ok(Some(copy))
    } else {
        Ok(None)
    }
}
