//! Reading a datagram: what it spells, or the first fault from front to back.

mod bundle;
mod fields;
mod message;

ghost use Rattle.std.specs.Prelude.{◌≡◌, ◌≢◌, ◌≤◌, ◌<◌, ◌%◌, ◌↔◌, length, IfOk, MatchResult};
ghost use Rattle.std.specs.List.{AllByRecursion};
ghost use Rattle.cue_osc.specs.Content.{Content, view};
ghost use Rattle.cue_osc.specs.Spelling.{Spells};
ghost use Rattle.cue_osc.specs.Walking.{leaves, HasAddress};
ghost use Rattle.cue_osc.specs.Reading.{Gives, datagram_at};
ghost use Rattle.cue_osc.specs.declared.limits.TheConstants.{MAX_LEN};

use crate::fault::Fault;
use crate::limits::{MAX_DEPTH, MAX_LEN};
use crate::packet::Packet;
use bundle::packet;
use std::alloc::Global;

/// Reads a datagram, all of it. The packet's slices lie in `bytes`; nothing is copied, and a
/// message takes one allocation if it has arguments and none if it has not.
/// `Memory` comes only if an allocation was refused, each other fault only if the bytes
/// are no packet: then it is the first fault from front to back.
pub fn read<'a>(alloc: Global, bytes: &'a [u8]) -> Result<Packet<'a>, Fault>
    // What is read is spelled so.
    ensures found { IfOk result (λ p. Spells bytes.now (view p)) }
    // What is spelled so is read, unless memory runs out.
    ensures only { (c : Content) → Spells bytes.now c → MatchResult result (λ p. view p ≡ c) (λ e. e ≡ Fault.Memory) }
    // Whoever answers a message has its address.
    ensures addresses { IfOk result (λ p. AllByRecursion HasAddress (leaves (view p))) }
    ensures too_long { (result ≡ Err Fault.TooLong) ↔ (MAX_LEN < length bytes.now) }
    ensures not_multiple { (result ≡ Err Fault.NotMultiple)
        ↔ ((length bytes.now ≤ MAX_LEN) × (length bytes.now % 4 ≢ 0)) }
    // Which fault it is: the first one in the order of reading.
    ensures exact { Gives view result (datagram_at bytes.now) }
{
    datagram(alloc, bytes)
}

#[tactic(auto, unfolding(crate::specs::Reading::datagram_at))]
fn datagram<'a>(alloc: Global, bytes: &'a [u8]) -> Result<Packet<'a>, Fault>
    ensures too_long { MAX_LEN < length bytes.now → result ≡ Err Fault.TooLong }
    ensures not_multiple { length bytes.now ≤ MAX_LEN → length bytes.now % 4 ≢ 0 → result ≡ Err Fault.NotMultiple }
    ensures exact { Gives view result (datagram_at bytes.now) }
{
    if bytes.len() > MAX_LEN {
        return Err(Fault::TooLong);
    }
    if bytes.len() % 4 != 0 {
        return Err(Fault::NotMultiple);
    }
    packet(alloc, bytes, MAX_DEPTH)
}
