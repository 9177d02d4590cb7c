//! Packets: a message, or a bundle of packets down to a depth.

ghost use Rattle.std.specs.Prelude.{◌≡◌, ◌≤◌, map, length};
ghost use Rattle.cue_osc.specs.Content.{view, contents_of};
ghost use Rattle.cue_osc.specs.Reading.{Gives, element_at, elements_by, bundle_by, packet_at};
ghost use Rattle.cue_osc.specs.Reading.{is_size as is_element_size, is_message_start as begins_message};
ghost use Rattle.cue_osc.specs.Reading.{is_bundle_start as begins_bundle};

use super::fields::{u32_at, u64_at};
use super::message::message;
use crate::fault::Fault;
use crate::limits::BUNDLE_HEAD;
use crate::packet::Packet;
use std::alloc::Global;

fn is_message_start(bytes: &[u8]) -> bool
    ensures { result ≡ begins_message bytes.now }
{
    matches!(bytes, [b'/', ..])
}

fn is_bundle_start(bytes: &[u8]) -> bool
    ensures { result ≡ begins_bundle bytes.now }
{
    bytes.starts_with(&BUNDLE_HEAD)
}

/// Whether an element may be so long, if so many bytes are left.
fn is_size(size: u32, left: usize) -> bool
    ensures { result ≡ is_element_size size left }
{
    0 < size && size < 1 << 31 && size % 4 == 0 && size as usize <= left
}

/// An element's bytes, and the bytes after it.
#[tactic(auto, unfolding(crate::specs::Reading::element_at))]
fn element(bytes: &[u8]) -> Result<(&[u8], &[u8]), Fault>
    ensures { Gives (λ x. (x.0.now, x.1.now)) result (element_at bytes.now) }
{
    let (size, rest) = u32_at(bytes)?;
    if !is_size(size, rest.len()) {
        return Err(Fault::BadSize);
    }
    Ok(rest.split_at(size as usize))
}

/// How many elements there are if each is as long as the first. Room is made for so many at once.
fn likely_count(bytes: &[u8]) -> usize
    ensures { result ≤ length bytes.now }
{
    match element(bytes) {
        Ok((first, _)) => bytes.len() / (first.len() + 4),
        Err(_) => 0,
    }
}

/// A packet, all of the bytes, with bundles at most so deep. It is inlined where elements are
/// read, so that a message is made in its place.
#[cycle(nested)]
#[inline(always)]
pub fn packet<'a>(alloc: Global, bytes: &'a [u8], depth: u8) -> Result<Packet<'a>, Fault>
    ensures { Gives view result (packet_at depth bytes.now) }
{
    if is_message_start(bytes) {
        return message(alloc, bytes);
    }
    if !is_bundle_start(bytes) {
        return Err(Fault::BadStart);
    }
    if depth == 0 {
        return Err(Fault::TooDeep);
    }
    bundle(alloc, bytes.split_at(8).1, depth - 1)
}

/// What stands after a bundle's head, with bundles at most so deep inside.
#[cycle(nested)]
#[inline(always)]
fn bundle<'a>(alloc: Global, bytes: &'a [u8], depth: u8) -> Result<Packet<'a>, Fault>
    ensures { Gives view result (bundle_by (packet_at depth) bytes.now) }
{
    let (tag, rest) = u64_at(bytes)?;
    let items = elements(alloc, rest, depth)?;
    Ok(Packet::Bundle { tag, items })
}

/// The elements of a bundle, all of the bytes.
#[cycle(nested)]
#[inline(never)]
fn elements<'a>(alloc: Global, bytes: &'a [u8], depth: u8) -> Result<Vec<Packet<'a>>, Fault>
    ensures { Gives (λ v. contents_of (map view v.items)) result
        (elements_by (packet_at depth) (length bytes.now) bytes.now) }
{
    let mut items = Vec::with_capacity(alloc, likely_count(bytes))?;
    let mut rest = bytes;
    while !rest.is_empty() {
        let (front, after) = element(rest)?;
        items.push(packet(alloc, front, depth)?)?;
        rest = after;
    }
    Ok(items)
}
