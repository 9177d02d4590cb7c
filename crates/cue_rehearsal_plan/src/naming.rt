//! The devices that a plan names, and a show file does not have.
ghost use Rattle.std.specs.Prelude.{◌≡◌, IfOk, OnOk};
ghost use Rattle.cue_rehearsal_plan.specs.Unknown as unknown;

use cue_rehearsal::{Plan, is_among};
use cue_show::DeviceNo;
use cue_show_file::ShowFile;
use std::alloc::{AllocError, Global};

// Whether the file has the device.
fn has_device(file: &ShowFile, device: DeviceNo) -> bool
    ensures { result ≡ unknown.has_device file.now device }
{
    file.devices.iter().any(|entry| entry.number == device)
}

// Puts a device after the others.
fn push(found: &mut Vec<DeviceNo>, device: DeviceNo) -> Result<(), AllocError>
    ensures { OnOk result (found.new.items ≡ unknown.with_last found.old.items device) }
{
    found.push(device)?;
    Ok(())
}

// Puts a device after the others, if the file does not have it and it is none of them.
fn note(found: &mut Vec<DeviceNo>, file: &ShowFile, device: DeviceNo) -> Result<(), AllocError>
    ensures { OnOk result (found.new.items ≡ unknown.noted file.now found.old.items device) }
{
    if has_device(file, device) || is_among(device, found) {
        return Ok(());
    }
    push(found, device)
}

// The same of each of these, in order.
fn note_all(
    found: &mut Vec<DeviceNo>,
    file: &ShowFile,
    devices: &[DeviceNo],
) -> Result<(), AllocError>
    ensures { OnOk result (found.new.items ≡ unknown.all_noted file.now found.old.items devices.now) }
{
    match devices {
        [] => Ok(()),
        [first, rest @ ..] => {
            note(found, file, *first)?;
            note_all(found, file, rest)
        }
    }
}

/// The devices that the plan names and the file does not have, each once, in the order in which it names them: those
/// that are silent first, then those that refuse, then those that fail. The plan fits the file exactly if there is none.
pub fn unknown_devices(
    alloc: Global,
    file: &ShowFile,
    plan: &Plan,
) -> Result<Vec<DeviceNo>, AllocError>
    ensures { IfOk result (λ found. found.items ≡ unknown.unknown_devices file.now plan.now) }
{
    let mut found = Vec::new(alloc);
    note_all(&mut found, file, &plan.silent)?;
    note_all(&mut found, file, &plan.refuses)?;
    note_all(&mut found, file, &plan.fails)?;
    Ok(found)
}
