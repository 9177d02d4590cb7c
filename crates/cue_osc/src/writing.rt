//! Writing a packet: its one spelling, each message with its type tag string.

ghost use Rattle.std.specs.Prelude.{◌≡◌, ◌<◌, ◌≤◌, ◌++◌, ◌↔◌, map, length, IfOk, OnOk, Ok};
ghost use Rattle.cue_osc.specs.Argument.{arg_view};
ghost use Rattle.cue_osc.specs.Content.{view, contents_of, message};
ghost use Rattle.cue_osc.specs.Spelling.{Spells, message_text};
ghost use Rattle.cue_osc.specs.Reading.{datagram_at};
ghost use Rattle.cue_osc.specs.Plain.{IsPlain};
ghost use Rattle.cue_osc.specs.Writing.{text_of, elements_text, IsInRange, AllInRange};
ghost use Rattle.cue_osc.specs.declared.limits.TheConstants.{MAX_LEN};

mod fields;
mod length;

use crate::fault::WriteFault;
use crate::limits::{BUNDLE_HEAD, MAX_LEN};
use crate::packet::{Arg, Packet};
use fields::put_message;
use length::{room_after, room_after_message};
use std::alloc::{AllocError, Global};

/// The bytes of a packet: its one spelling, each message with its type tag string, also an empty
/// one. Call `plain` if the packet is not known to be writable. `TooLong` comes if the
/// spelling has more than 4,096 bytes, before anything is allocated; else one allocation is made.
pub fn write(alloc: Global, packet: &Packet<'_>) -> Result<Vec<u8>, WriteFault>
    requires { IsPlain 8 (view packet.now) }
    ensures written { IfOk result (λ v. v.items ≡ text_of (view packet.now)) }
    // What was written is a datagram of this packet, and is read again as the same.
    ensures spells { IfOk result (λ v. Spells v.items (view packet.now)) }
    ensures again { IfOk result (λ v. datagram_at v.items ≡ Ok (view packet.now)) }
    ensures too_long { (result ≡ Err WriteFault.TooLong) ↔ (MAX_LEN < length (text_of (view packet.now))) }
{
    let Some(left) = room_after(packet, MAX_LEN) else {
        return Err(WriteFault::TooLong);
    };
    let mut out = Vec::with_capacity(alloc, MAX_LEN - left)?;
    put(&mut out, packet)?;
    Ok(out)
}

/// The bytes of a message, as `write` gives them of a packet that is this message: whoever has its arguments in a row
/// needs no packet. `TooLong` comes if they are more than 4,096, before anything is allocated; else one allocation is
/// made.
pub fn write_message(alloc: Global, address: &[u8], args: &[Arg<'_>]) -> Result<Vec<u8>, WriteFault>
    requires { IsPlain 8 (message address.now (map arg_view args.now)) }
    ensures written { IfOk result (λ v. v.items ≡ message_text address.now (map arg_view args.now)) }
    // What was written is a datagram of this message, and is read again as the same.
    ensures spells { IfOk result (λ v. Spells v.items (message address.now (map arg_view args.now))) }
    ensures again { IfOk result (λ v. datagram_at v.items ≡ Ok (message address.now (map arg_view args.now))) }
    ensures too_long { (result ≡ Err WriteFault.TooLong)
        ↔ (MAX_LEN < length (message_text address.now (map arg_view args.now))) }
{
    let Some(left) = room_after_message(address, args, MAX_LEN) else {
        return Err(WriteFault::TooLong);
    };
    let mut out = Vec::with_capacity(alloc, MAX_LEN - left)?;
    put_message(&mut out, address, args)?;
    Ok(out)
}

/// How long the spelling of a packet is that is no longer than a datagram.
fn text_len(packet: &Packet<'_>) -> usize
    requires { length (text_of (view packet.now)) ≤ MAX_LEN }
    ensures { result ≡ length (text_of (view packet.now)) }
{
    match room_after(packet, MAX_LEN) {
        Some(left) => MAX_LEN - left,
        None => 0,
    }
}

/// A packet, after what stands already.
#[cycle(put)]
fn put(out: &mut Vec<u8>, packet: &Packet<'_>) -> Result<(), AllocError>
    requires { length (text_of (view packet.now)) ≤ MAX_LEN }
    ensures ok { OnOk result (out.new.items ≡ out.old.items ++ text_of (view packet.now)) }
    ensures in_range { OnOk result (IsInRange (view packet.now)) }
{
    match packet {
        Packet::Message(message) => put_message(out, message.address, message.args.as_slice()),
        Packet::Discarded { .. } => Ok(()),
        Packet::Bundle { tag, items } => {
            out.extend_from_slice(&BUNDLE_HEAD)?;
            out.extend_from_slice(&tag.to_be_bytes())?;
            put_elements(out, items)
        }
    }
}

/// The elements of a bundle, each after its size.
#[cycle(put)]
fn put_elements(out: &mut Vec<u8>, items: &[Packet<'_>]) -> Result<(), AllocError>
    requires { length (elements_text (contents_of (map view items.now))) ≤ MAX_LEN }
    ensures ok { OnOk result (out.new.items ≡ out.old.items ++ elements_text (contents_of (map view items.now))) }
    ensures in_range { OnOk result (AllInRange (contents_of (map view items.now))) }
{
    for item in items {
        let size = text_len(item) as u32;
        out.extend_from_slice(&size.to_be_bytes())?;
        put(out, item)?;
    }
    Ok(())
}
