//! Walks over a packet: its messages in order, and whether any part of it is for later.

ghost use Rattle.std.specs.Prelude.{◌≡◌, ◌↔◌, ◌++◌, map, IfOk, OnOk, IsTrue};
ghost use Rattle.cue_osc.specs.Content.{view, contents_of};
ghost use Rattle.cue_osc.specs.Walking.{leaves, all_leaves, is_later, is_later_tag, is_any_later, content_at};

use crate::packet::Packet;
use std::alloc::{AllocError, Global};

/// Milliseconds from midnight, 1 January 1900, to 1970.
const MS_TO_1970: u128 = 2_208_988_800_000;

impl<'a> Packet<'a> {
    /// The messages and the discarded messages, in order, whatever bundles they stand in.
    pub fn messages(&self, alloc: Global) -> Result<Vec<&Packet<'a>>, AllocError>
        ensures { IfOk result (λ found. map content_at found.items ≡ leaves (view self.now)) }
    {
        let mut found = Vec::new(alloc);
        collect(self, &mut found)?;
        Ok(found)
    }

    /// Whether a bundle of this packet, at any depth, has a time tag later than `now_ms`,
    /// milliseconds since 1970.
    #[cycle(later)]
    pub fn later(&self, now_ms: u64) -> bool
        ensures { result ≡ is_later now_ms (view self.now) }
    {
        match self {
            Packet::Bundle { tag, items } => later_tag(*tag, now_ms) || any_later(items, now_ms),
            _ => false,
        }
    }
}

#[cycle(collect)]
fn collect<'p, 'a>(
    packet: &'p Packet<'a>,
    found: &mut Vec<&'p Packet<'a>>,
) -> Result<(), AllocError>
    ensures { OnOk result (map content_at found.new.items
        ≡ map content_at found.old.items ++ leaves (view packet.now)) }
{
    match packet {
        Packet::Bundle { items, .. } => collect_all(items, found),
        _ => Ok(found.push(packet)?),
    }
}

#[cycle(collect)]
fn collect_all<'p, 'a>(
    items: &'p [Packet<'a>],
    found: &mut Vec<&'p Packet<'a>>,
) -> Result<(), AllocError>
    ensures { OnOk result (map content_at found.new.items
        ≡ map content_at found.old.items ++ all_leaves (contents_of (map view items.now))) }
{
    for item in items {
        collect(item, found)?;
    }
    Ok(())
}

fn later_tag(tag: u64, now_ms: u64) -> bool
    ensures { result ≡ is_later_tag now_ms tag }
{
    tag != 1 && (MS_TO_1970 + now_ms as u128) * (1 << 32) < tag as u128 * 1000
}

#[cycle(later)]
fn any_later(items: &[Packet<'_>], now_ms: u64) -> bool
    ensures { result ≡ is_any_later now_ms (contents_of (map view items.now)) }
{
    for item in items {
        if item.later(now_ms) {
            return true;
        }
    }
    false
}
