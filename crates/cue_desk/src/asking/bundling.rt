//! What a show file adds, asked by few datagrams: each is carried out whole or not at all, and each of its messages is
//! replied to by itself.
ghost use Rattle.std.specs.Prelude.{◌≡◌, ◌++◌, ◌∷◌, ◌≤◌, ◌<◌, [], IfOk, IsErrOf, OnOk, Ok, length, map, pos};
ghost use Rattle.cue_osc.specs.Argument.{arg_view, int};
ghost use Rattle.cue_osc.specs.Content.{bundle, contents_of, view};
ghost use Rattle.cue_osc.specs.Reading.{datagram_at};
ghost use Rattle.cue_operator.specs.Methods.{address_of};
ghost use Rattle.cue_operator.specs.declared.method.Method.TheVariants.{AddDevice, AddMixedCue};
ghost use Rattle.cue_desk.specs.Asks.{IsUnwritable};
ghost use Rattle.cue_desk.specs.Loading.{cue_message, device_message};
ghost use Rattle.cue_desk.specs.declared.asking.AskFault.TheVariants.{Unwritable};
ghost use Rattle.cue_desk.specs.declared.asking.bundling.TheConstants.{MAX_TOGETHER};

use super::{AskFault, cue_args, datagram_of};
use cue_osc::{Arg, Args, MAX_LEN, Message, Packet};
use cue_show::Part;
use cue_show_file::{CueEntry, DeviceEntry};
use std::alloc::{AllocError, Global};

/// The most messages of one bundle: no more replies than these wait at the desk's socket at once.
const MAX_TOGETHER: usize = 64;

/// The time tag of a bundle that is carried out at once.
const IMMEDIATELY: u64 = 1;

/// How many bytes of a bundle stand before its messages: its head and its time tag.
const BUNDLE_FRAME_LEN: usize = 16;

// The bytes that an OSC-string takes.
fn text_len(text: &[u8]) -> usize {
    (text.len() / 4).saturating_add(1).saturating_mul(4)
}

// The bytes that a part of a cue takes: its tags, two numbers, and a blob after its length.
fn part_len(part: &Part) -> usize {
    let bytes = part.bytes.as_slice().len().div_ceil(4).saturating_mul(4);
    bytes.saturating_add(15)
}

// The bytes that the parts of a cue take.
fn parts_len(parts: &[Part]) -> usize {
    let mut len = 0usize;
    for part in parts {
        len = len.saturating_add(part_len(part));
    }
    len
}

// About how many bytes of a bundle the message of a cue takes, with its size: up to five more than it does.
fn cue_len(entry: &CueEntry) -> usize {
    text_len(entry.number.text())
        .saturating_add(parts_len(entry.parts.as_slice()))
        .saturating_add(24)
}

/// How many of the first of these devices one bundle adds: those that fit into a datagram, and at least one.
pub fn devices_that_fit(entries: &[DeviceEntry]) -> usize
    ensures at_most { result ≤ length entries.now }
    ensures at_least { 0 < length entries.now → 0 < result }
    ensures most { result < length entries.now → result ≡ MAX_TOGETHER }
{
    entries.len().min(MAX_TOGETHER)
}

/// How many of the first of these cues one bundle adds: those that fit into a datagram, and at least one.
pub fn cues_that_fit(entries: &[CueEntry]) -> usize
    ensures at_most { result ≤ length entries.now }
    ensures at_least { 0 < length entries.now → 0 < result }
{
    let mut room = MAX_LEN - BUNDLE_FRAME_LEN;
    for (index, entry) in entries.iter().enumerate() {
        let len = cue_len(entry);
        if index > 0 && (len > room || index >= MAX_TOGETHER) {
            return index;
        }
        room = room.saturating_sub(len);
    }
    entries.len()
}

// Where a device is added.
fn device_address() -> &'static [u8]
    ensures { result.now ≡ address_of AddDevice }
{
    b"/show/device"
}

// If a cue is added.
fn cue_address() -> &'static [u8]
    ensures { result.now ≡ address_of AddMixedCue }
{
    b"/show/mixed"
}

// The arguments of a device that is added.
fn device_args<'a>(alloc: Global, entry: &DeviceEntry) -> Result<Vec<Arg<'a>>, AllocError>
    ensures { IfOk result (λ args.
        map arg_view args.items ≡ int (pos entry.now.number) ∷ int (pos entry.now.port) ∷ []) }
{
    Ok(vec![in alloc;
        Arg::Int(i32::from(entry.number.number())),
        Arg::Int(i32::from(entry.port)),
    ]?)
}

// The message of each device, after what stands already.
fn push_devices<'a>(
    alloc: Global,
    messages: &mut Vec<Packet<'a>>,
    entries: &'a [DeviceEntry],
) -> Result<(), AllocError>
    ensures { OnOk result (map view messages.new.items
        ≡ map view messages.old.items ++ map device_message entries.now) }
{
    match entries {
        [] => Ok(()),
        [first, rest @ ..] => {
            let args = Args::from_vec(device_args(alloc, first)?);
            messages.push(Packet::Message(Message {
                address: device_address(),
                args,
            }))?;
            push_devices(alloc, messages, rest)
        }
    }
}

// The message of each cue, after what stands already.
fn push_cues<'a>(
    alloc: Global,
    messages: &mut Vec<Packet<'a>>,
    entries: &'a [CueEntry],
) -> Result<(), AllocError>
    ensures { OnOk result (map view messages.new.items ≡ map view messages.old.items ++ map cue_message entries.now) }
{
    match entries {
        [] => Ok(()),
        [first, rest @ ..] => {
            let args = Args::from_vec(cue_args(alloc, &first.number, &first.parts)?);
            messages.push(Packet::Message(Message {
                address: cue_address(),
                args,
            }))?;
            push_cues(alloc, messages, rest)
        }
    }
}

// The datagram of a bundle of these.
fn bundle_of(alloc: Global, items: Vec<Packet<'_>>) -> Result<Vec<u8>, AskFault>
    ensures message { let said = contents_of (map view items.entry.items) in
        IfOk result (λ bytes. datagram_at bytes.items ≡ Ok (bundle 1 said)) }
    ensures unwritable { let said = contents_of (map view items.entry.items) in
        IsErrOf result Unwritable → IsUnwritable (bundle 1 said) }
{
    let packet = Packet::Bundle {
        tag: IMMEDIATELY,
        items,
    };
    datagram_of(alloc, &packet)
}

/// The datagram that asks for these devices to be added, in order, and for nothing else: a bundle of the message of
/// each, to be carried out at once. `Unwritable` if it would be longer than a datagram: `devices_that_fit` says how
/// many are not.
pub fn bundle_of_devices(alloc: Global, entries: &[DeviceEntry]) -> Result<Vec<u8>, AskFault>
    ensures message { let said = contents_of (map device_message entries.now) in
        IfOk result (λ bytes. datagram_at bytes.items ≡ Ok (bundle 1 said)) }
    ensures unwritable { let said = contents_of (map device_message entries.now) in
        IsErrOf result Unwritable → IsUnwritable (bundle 1 said) }
{
    let mut messages = Vec::new(alloc);
    push_devices(alloc, &mut messages, entries)?;
    bundle_of(alloc, messages)
}

/// The datagram that asks for these cues to be added, as `bundle_of_devices` has it for devices.
pub fn bundle_of_cues(alloc: Global, entries: &[CueEntry]) -> Result<Vec<u8>, AskFault>
    ensures message { let said = contents_of (map cue_message entries.now) in
        IfOk result (λ bytes. datagram_at bytes.items ≡ Ok (bundle 1 said)) }
    ensures unwritable { let said = contents_of (map cue_message entries.now) in
        IsErrOf result Unwritable → IsUnwritable (bundle 1 said) }
{
    let mut messages = Vec::new(alloc);
    push_cues(alloc, &mut messages, entries)?;
    bundle_of(alloc, messages)
}
