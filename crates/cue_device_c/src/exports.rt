//! The calls for C, one for each of the library's. None of them looks for a null pointer: the header does.
ghost use Rattle.std.specs.Prelude.{◌≡◌, ◌≢◌, ◌≤◌, ◌<◌, IsTrue, false};
ghost use Rattle.cue_show.specs.declared.limits.TheConstants.{MAX_DEVICE_NUMBER};
ghost use Rattle.cue_device.specs.declared.hearing.Told.TheVariants.{Prepared, Moved, GaveUp, Cannot};
ghost use Rattle.cue_device.specs.declared.reading.TheConstants.{MAX_NUMBER};
ghost use Rattle.cue_device_c.specs.Calls.{Ends, Hears, IsController, IsMade, IsRestarted, Names, Tells, Ticks};
ghost use Rattle.cue_device_c.specs.State.{is_heard, is_none_place};
ghost use Rattle.cue_device_c.specs.declared.codes.TheConstants.{BAD_CALL, GIVE_UP, MOVE, PREPARE};
ghost use Rattle.cue_device_c.specs.declared.state.TheConstants.{SIZE};

use crate::answer::CueAnswer;
use crate::codes::{BAD_CALL, GIVE_UP, MOVE, PREPARE, order_code};
use crate::state::{CueDevice, CuePlace, SIZE, device_number};
use cue_device::{Device, MAX_ANSWER, MAX_NUMBER, ReportFault, command};
use cue_show::DeviceNo;

/// Makes a device of this number, 0 to 111, for a new store. `size` is that of the caller's struct. Gives 0, or
/// `BAD_CALL` if the number is out of range or the size is not that of this library's.
#[unsafe(no_mangle)]
pub extern "C" fn cue_device_new(device: &mut CueDevice, size: u32, number: u32) -> u32
    ensures made { size ≡ SIZE → number ≤ MAX_DEVICE_NUMBER → IsMade number device.new result }
    ensures other_size { size ≢ SIZE → (device.new ≡ device.old) × (result ≡ BAD_CALL) }
    ensures no_number { MAX_DEVICE_NUMBER < number → (device.new ≡ device.old) × (result ≡ BAD_CALL) }
{
    match device_number(number) {
        Some(number) if size == SIZE => {
            *device = CueDevice::of(&Device::new(number, 0), CuePlace::none(), CuePlace::none());
            0
        }
        Some(_) | None => BAD_CALL,
    }
}

/// Makes a device of this number, 0 to 111, that has restarted: `kept` is its last number, 0 to 2,147,483,647, and
/// `from` is where that came from. Gives 0, or `BAD_CALL` if a number is out of range, the size is not that of this
/// library's struct, or a number above 0 was kept without its place.
#[unsafe(no_mangle)]
pub extern "C" fn cue_device_restarted(
    device: &mut CueDevice,
    size: u32,
    number: u32,
    kept: u32,
    from: &CuePlace,
) -> u32
    ensures made { size ≡ SIZE → number ≤ MAX_DEVICE_NUMBER → kept ≤ MAX_NUMBER → is_none_place from.now ≡ false
        → IsRestarted number kept from.now device.new result }
    ensures first { size ≡ SIZE → number ≤ MAX_DEVICE_NUMBER → kept ≡ 0
        → IsRestarted number kept from.now device.new result }
    ensures other_size { size ≢ SIZE → (device.new ≡ device.old) × (result ≡ BAD_CALL) }
    ensures no_number { MAX_DEVICE_NUMBER < number → (device.new ≡ device.old) × (result ≡ BAD_CALL) }
    ensures not_kept { MAX_NUMBER < kept → (device.new ≡ device.old) × (result ≡ BAD_CALL) }
    ensures no_place { 0 < kept → IsTrue (is_none_place from.now) → (device.new ≡ device.old) × (result ≡ BAD_CALL) }
{
    let is_kept = kept <= MAX_NUMBER && (kept == 0 || !from.is_none());
    match device_number(number) {
        Some(number) if size == SIZE && is_kept => {
            *device = CueDevice::of(&Device::restarted(number, kept), *from, CuePlace::none());
            0
        }
        Some(_) | None => BAD_CALL,
    }
}

/// The device hears datagrams of this sender alone from now on; of any, if it is eight zeros. Gives 0, or `BAD_CALL`
/// if `device` is none.
#[unsafe(no_mangle)]
pub extern "C" fn cue_device_hear_only(device: &mut CueDevice, sender: &CuePlace) -> u32
    ensures { Names sender.now device.old device.new result }
{
    match device.read() {
        Some(state) => {
            *device = CueDevice::of(&state, device.controller, *sender);
            0
        }
        None => BAD_CALL,
    }
}

/// A datagram came from this sender. Gives what the machine is to do, 1 to prepare, 2 to move, 3 to give up and 0 for
/// nothing, or `BAD_CALL` if `device` is none.
#[unsafe(no_mangle)]
pub extern "C" fn cue_device_hear(
    device: &mut CueDevice,
    from: &CuePlace,
    datagram: &[u8],
    answer: &mut CueAnswer,
) -> u32
    ensures { Hears datagram.now from.now device.old device.new answer.new result }
{
    match device.read() {
        Some(mut state) => {
            if !hears(&device.only, from) {
                *answer = CueAnswer::none();
                return 0;
            }
            let to = controller_after(datagram, state.number(), *from, device.controller);
            let mut bytes = [0; MAX_ANSWER];
            let (order, length) = state.hear_datagram(datagram, &mut bytes);
            *answer = CueAnswer {
                length: length as u32,
                to,
                bytes,
            };
            *device = CueDevice::of(&state, to, device.only);
            order_code(order)
        }
        None => {
            *answer = CueAnswer::none();
            BAD_CALL
        }
    }
}

// Whether a datagram from there is heard.
fn hears(only: &CuePlace, from: &CuePlace) -> bool
    ensures { result ≡ is_heard only.now from.now }
{
    only.is_none() || *only == *from
}

// Where the last order came from, once this datagram came from there.
fn controller_after(datagram: &[u8], number: DeviceNo, from: CuePlace, before: CuePlace) -> CuePlace
    ensures { IsController datagram.now number from before result }
{
    match command(datagram, number) {
        Some(_) => from,
        None => before,
    }
}

/// The machine has prepared, as it was ordered. Gives 0, or `BAD_CALL` if `doing` is another order or `device` is none.
#[unsafe(no_mangle)]
pub extern "C" fn cue_device_prepared(device: &mut CueDevice, answer: &mut CueAnswer) -> u32
    ensures { Ends PREPARE Prepared device.old device.new answer.new result }
{
    if device.doing != PREPARE {
        *answer = CueAnswer::none();
        return BAD_CALL; // it does not prepare
    }
    match device.read() {
        Some(mut state) => match state.prepared() {
            Ok(said) => {
                *answer = CueAnswer::of(&state, said, device.controller);
                *device = CueDevice::of(&state, device.controller, device.only);
                0
            }
            Err(ReportFault::NotOrdered) => {
                *answer = CueAnswer::none();
                BAD_CALL
            }
        },
        None => {
            *answer = CueAnswer::none();
            BAD_CALL
        }
    }
}

/// The machine has carried the cue out. Gives 0, or `BAD_CALL` if `doing` is another order or `device` is none.
#[unsafe(no_mangle)]
pub extern "C" fn cue_device_moved(device: &mut CueDevice, answer: &mut CueAnswer) -> u32
    ensures { Ends MOVE Moved device.old device.new answer.new result }
{
    if device.doing != MOVE {
        *answer = CueAnswer::none();
        return BAD_CALL; // it does not move
    }
    match device.read() {
        Some(mut state) => match state.moved() {
            Ok(said) => {
                *answer = CueAnswer::of(&state, said, device.controller);
                *device = CueDevice::of(&state, device.controller, device.only);
                0
            }
            Err(ReportFault::NotOrdered) => {
                *answer = CueAnswer::none();
                BAD_CALL
            }
        },
        None => {
            *answer = CueAnswer::none();
            BAD_CALL
        }
    }
}

/// The machine has given up what it prepared. Gives 0, or `BAD_CALL` if `doing` is another order or `device` is none.
#[unsafe(no_mangle)]
pub extern "C" fn cue_device_gave_up(device: &mut CueDevice, answer: &mut CueAnswer) -> u32
    ensures { Ends GIVE_UP GaveUp device.old device.new answer.new result }
{
    if device.doing != GIVE_UP {
        *answer = CueAnswer::none();
        return BAD_CALL; // it gives nothing up
    }
    match device.read() {
        Some(mut state) => match state.gave_up() {
            Ok(said) => {
                *answer = CueAnswer::of(&state, said, device.controller);
                *device = CueDevice::of(&state, device.controller, device.only);
                0
            }
            Err(ReportFault::NotOrdered) => {
                *answer = CueAnswer::none();
                BAD_CALL
            }
        },
        None => {
            *answer = CueAnswer::none();
            BAD_CALL
        }
    }
}

/// The machine cannot go on, and is at rest. Gives 0, or `BAD_CALL` if there is nothing to abort or `device` is
/// none.
#[unsafe(no_mangle)]
pub extern "C" fn cue_device_cannot(device: &mut CueDevice, answer: &mut CueAnswer) -> u32
    ensures { Tells Cannot device.old device.new answer.new result }
{
    match device.read() {
        Some(mut state) => match state.cannot() {
            Ok(said) => {
                *answer = CueAnswer::of(&state, said, device.controller);
                *device = CueDevice::of(&state, device.controller, device.only);
                0
            }
            Err(ReportFault::NotOrdered) => {
                *answer = CueAnswer::none();
                BAD_CALL
            }
        },
        None => {
            *answer = CueAnswer::none();
            BAD_CALL
        }
    }
}

/// Time has passed: what is sent again. Gives 0, or `BAD_CALL` if `device` is none.
#[unsafe(no_mangle)]
pub extern "C" fn cue_device_tick(device: &CueDevice, answer: &mut CueAnswer) -> u32
    ensures { Ticks device.now answer.new result }
{
    match device.read() {
        Some(state) => {
            *answer = CueAnswer::of(&state, state.tick(), device.controller);
            0
        }
        None => {
            *answer = CueAnswer::none();
            BAD_CALL
        }
    }
}
