//! A datagram that came while a tick was due: the tick comes first.
ghost use Rattle.std.specs.Prelude.{◌≡◌, ◌≤◌, Some, None, is_some, length, take};
ghost use Rattle.cue_engine.specs.Udp.{HeldComes};
ghost use Rattle.cue_engine.specs.declared.sources.udp.held.TheConstants.{MAX_HELD};

use arrayvec::ArrayVec;
use std::marker::Model;

/// The most bytes of a datagram that are held: more than the longest one has, so that one that is too long is seen to
/// be so.
pub const MAX_HELD: usize = 4_100;

/// What is held: a datagram at most. Contracts see the port that it is from, and its bytes.
#[derive(Drop)]
pub struct Held {
    from: Option<u16>,
    bytes: ArrayVec<u8, MAX_HELD>,
}

impl Model for Held {
    ghost use Rattle.std.specs.Prelude.{ℕ, List, Option};
    ghost use Rattle.cue_engine.specs.Udp.{holds};

    ghost Value = { Option (ℕ × List ℕ) };

    ghost view = { λ h. holds h.from h.bytes.items };
}

// The first bytes of a datagram, so many at most.
#[tactic(auto, using(std::proofs::lemmas::List::take_min))]
fn first_of(bytes: &[u8], most: usize) -> &[u8]
    ensures first { result.now ≡ take most bytes.now }
    ensures few { length result.now ≤ most }
{
    let n = usize::min(most, bytes.len());
    &bytes[..n]
}

impl Held {
    /// Nothing is held.
    pub fn none() -> Held
        ensures { result ≡ None }
    {
        Held {
            from: None,
            bytes: ArrayVec::new(),
        }
    }

    /// Whether a datagram is held.
    pub fn is_some(&self) -> bool
        ensures { result ≡ is_some self.now }
    {
        self.from.is_some()
    }

    /// Holds a datagram in place of what was held. One of more than `MAX_HELD` bytes is cut, and still too long.
    pub fn put(&mut self, from: u16, bytes: &[u8])
        ensures { self.new ≡ Some (from, take MAX_HELD bytes.now) }
    {
        let first = first_of(bytes, MAX_HELD);
        self.bytes.clear();
        let _fits = self.bytes.try_extend_from_slice(first);
        self.from = Some(from);
    }

    /// Gives what is held, cut to the length of the buffer: the port that it is from, and how many bytes of it are in
    /// the buffer. Then nothing is held.
    pub fn take(&mut self, buffer: &mut [u8]) -> Option<(u16, usize)>
        ensures gives { HeldComes self.old result buffer.new }
        ensures length { length buffer.new ≡ length buffer.old }
        ensures none { self.new ≡ None }
    {
        let from = self.from.take()?;
        let held = self.bytes.as_slice();
        let n = usize::min(held.len(), buffer.len());
        buffer[..n].copy_from_slice(&held[..n]);
        Some((from, n))
    }
}
