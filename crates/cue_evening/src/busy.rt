//! Who keeps a command from being made: the devices that an attempt waits for, and the device that makes a cue busy.
ghost use Rattle.std.specs.Prelude.{◌≡◌, IfOk};
ghost use Rattle.cue_evening.specs.Busy.{waiting_devices, is_held, held_device};

use cue_exchange::{Attempt, Live};
use cue_show::{DeviceNo, Part};
use std::alloc::{AllocError, Global};

/// The devices of the attempt that are still to answer, in part order.
pub fn waiting_devices(alloc: Global, attempt: &Attempt) -> Result<Vec<DeviceNo>, AllocError>
    ensures { IfOk result (λ devices. devices.items ≡ waiting_devices attempt.now) }
{
    attempt
        .answers
        .as_slice()
        .iter()
        .filter(|x| x.answer.is_waiting())
        .map(|x| x.device)
        .collect(alloc)
}

// Whether the device of the part is in an attempt.
fn is_held(live: &Live, part: &Part) -> bool
    ensures { result ≡ is_held live.now part.now }
{
    live.of_device(part.device).is_some()
}

/// The first device of the parts that is in an attempt.
pub fn held_device(live: &Live, parts: &[Part]) -> Option<DeviceNo>
    ensures { result ≡ held_device live.now parts.now }
{
    let found = parts.iter().find(|part| is_held(live, part))?;
    Some(found.device)
}
