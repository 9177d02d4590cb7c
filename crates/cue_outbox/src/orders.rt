//! The orders that the devices are still to answer.
ghost use Rattle.std.specs.Prelude.{◌≡◌, ◌≤◌, ◌++◌, IfOk, OnOk, IsTrue, length};
ghost use Rattle.std.specs.List.{list_all};
ghost use Rattle.std.specs.List.Sorted.{IsStrictlyIncreasing};
ghost use Rattle.std.specs.Option.{option_map};
ghost use Rattle.cue_show.specs.declared.limits.TheConstants.{MAX_PART_BYTES};
ghost use Rattle.cue_show.specs.Devices.{is_among};
ghost use Rattle.cue_show.specs.Parts.{is_part};
ghost use Rattle.cue_exchange.specs.declared.limits.TheConstants.{MAX_NUMBER};
ghost use Rattle.cue_core.specs.State.{cue_parts};
ghost use Rattle.cue_core.specs.Pending.{bytes_for, standby, go_2pc, cancel};
ghost use Rattle.cue_outbox.specs.Sending.{all_pending, datagram, datagrams, order};
ghost use Rattle.cue_outbox.specs.Asked.{pending_of};
ghost use Rattle.cue_outbox.specs.Owed.{datagram_for, datagrams_for, order_in};
ghost use Rattle.cue_outbox.specs.Views.{out_view, outs_view};

use crate::message::{int, write_message};
use crate::out::Out;
use cue_core::State;
use cue_exchange::{Attempt, DeviceAnswer, Stage};
use cue_osc::Arg;
use cue_show::{CueNo, DeviceNo, Part, Show};
use std::alloc::{AllocError, Global};

/// The orders that the devices are still to answer: for each live attempt by rising number, for each device that is
/// still to answer, in part order, the order of the attempt's stage, to the device's port.
pub fn pending(alloc: Global, state: &State) -> Result<Vec<Out>, AllocError>
    ensures { IfOk result (λ outs. outs_view outs.items ≡ datagrams (all_pending state.now)) }
{
    let mut outs = Vec::new(alloc);
    for attempt in state.live().as_slice() {
        push_orders(alloc, &mut outs, state, attempt)?;
    }
    Ok(outs)
}

/// The orders to the devices of the attempts with these numbers, in the order of `pending`; a number that is not
/// live gives nothing. With the numbers that `numbers_asked` gives of a batch, and on the state after it, these are
/// the orders that were not pending before.
pub fn pending_of(alloc: Global, state: &State, numbers: &[u32]) -> Result<Vec<Out>, AllocError>
    requires { IsStrictlyIncreasing numbers.now }
    ensures { IfOk result (λ outs. outs_view outs.items ≡ datagrams (pending_of numbers.now state.now)) }
{
    let mut asked = Vec::new(alloc);
    for attempt in state.live().as_slice() {
        if is_among(numbers, attempt.seq) {
            push_orders(alloc, &mut asked, state, attempt)?;
        }
    }
    Ok(asked)
}

fn is_among(numbers: &[u32], number: u32) -> bool
    requires { IsStrictlyIncreasing numbers.now }
    ensures { result ≡ is_among number numbers.now }
{
    numbers.binary_search(&number).is_ok()
}

// Puts the orders of an attempt after the others.
fn push_orders(
    alloc: Global,
    outs: &mut Vec<Out>,
    state: &State,
    attempt: &Attempt,
) -> Result<(), AllocError>
    requires { attempt.now.seq ≤ MAX_NUMBER }
    ensures { let owed = datagrams_for state.now attempt.now attempt.now.answers in
        OnOk result (outs_view outs.new.items ≡ outs_view outs.old.items ++ owed) }
{
    let parts = parts_of(state.show(), attempt.cue);
    for answer in attempt.answers.as_slice() {
        if let Some(out) = order_for(alloc, state, attempt, parts, *answer)? {
            outs.push(out)?;
        }
    }
    Ok(())
}

// The parts of the cue; none if it is not in the stack.
fn parts_of(show: &Show, cue: CueNo) -> &[Part]
    ensures value { result.now ≡ cue_parts show.now cue }
    ensures each { IsTrue (list_all is_part result.now) }
{
    match show.parts(cue) {
        Some(parts) => parts.as_slice(),
        None => &[],
    }
}

// The order to a device, if it is still to answer. Each device of a live attempt has a port, as the law
// `orders_have_ports` says.
fn order_for(
    alloc: Global,
    state: &State,
    attempt: &Attempt,
    parts: &[Part],
    answer: DeviceAnswer,
) -> Result<Option<Out>, AllocError>
    requires number { attempt.now.seq ≤ MAX_NUMBER }
    requires parts { parts.now ≡ cue_parts state.now.show attempt.now.cue }
    requires each { IsTrue (list_all is_part parts.now) }
    ensures { IfOk result (λ out. option_map out_view out ≡ datagram_for state.now attempt.now answer) }
{
    if !answer.answer.is_waiting() {
        return Ok(None);
    }
    let to = state.show().port(answer.device).unwrap_or(0);
    let out = order_to(alloc, to, attempt, parts, answer.device)?;
    Ok(Some(out))
}

// The order of the attempt's stage.
fn order_to(
    alloc: Global,
    to: u16,
    attempt: &Attempt,
    parts: &[Part],
    device: DeviceNo,
) -> Result<Out, AllocError>
    requires number { attempt.now.seq ≤ MAX_NUMBER }
    requires each { IsTrue (list_all is_part parts.now) }
    ensures { IfOk result (λ out. out_view out ≡ datagram (to, order (order_in attempt.now parts.now device))) }
{
    let (seq, cue) = (attempt.seq, attempt.cue);
    match attempt.stage {
        Stage::Preparing => standby(alloc, to, seq, device, cue, bytes_for(parts, device)),
        Stage::Decided => go_2pc(alloc, to, seq, device),
        Stage::Cancelling(_) => cancel(alloc, to, seq, device),
    }
}

fn bytes_for(parts: &[Part], device: DeviceNo) -> &[u8]
    requires { IsTrue (list_all is_part parts.now) }
    ensures value { result.now ≡ bytes_for device parts.now }
    ensures short { length result.now ≤ MAX_PART_BYTES }
{
    for part in parts {
        if part.device == device {
            return part.bytes.as_slice();
        }
    }
    &[]
}

#[tactic(auto, using(cue_show::proofs::NumberLemmas::number_text, cue_show::proofs::NumberLemmas::number_short))]
fn standby(
    alloc: Global,
    to: u16,
    seq: u32,
    device: DeviceNo,
    cue: CueNo,
    bytes: &[u8],
) -> Result<Out, AllocError>
    requires number { seq ≤ MAX_NUMBER }
    requires short { length bytes.now ≤ MAX_PART_BYTES }
    ensures { IfOk result (λ out. out_view out ≡ datagram (to, order (standby seq device cue bytes.now))) }
{
    let args = [
        int(seq),
        int(u32::from(device.number())),
        Arg::Text(cue.text()),
        Arg::Blob(bytes),
    ];
    write_message(alloc, to, b"/msc/standby", &args)
}

fn go_2pc(alloc: Global, to: u16, seq: u32, device: DeviceNo) -> Result<Out, AllocError>
    requires { seq ≤ MAX_NUMBER }
    ensures { IfOk result (λ out. out_view out ≡ datagram (to, order (go_2pc seq device))) }
{
    let args = [int(seq), int(u32::from(device.number()))];
    write_message(alloc, to, b"/msc/go_2pc", &args)
}

fn cancel(alloc: Global, to: u16, seq: u32, device: DeviceNo) -> Result<Out, AllocError>
    requires { seq ≤ MAX_NUMBER }
    ensures { IfOk result (λ out. out_view out ≡ datagram (to, order (cancel seq device))) }
{
    let args = [int(seq), int(u32::from(device.number()))];
    write_message(alloc, to, b"/msc/cancel", &args)
}
