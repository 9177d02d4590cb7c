//! A wire that keeps whether what it sends leaves.
ghost use Rattle.std.specs.Prelude.{◌≡◌, []};

use cue_engine::{Wire, WireFault};
use std::alloc::Global;

/// A wire that keeps one bit of each datagram, for the log of the evening: whether it left. It sends and answers what
/// the wire in it does. A bit for which there is no memory is lost.
#[derive(Drop)]
pub struct LoggedWire<W: Wire + Drop> {
    wire: W,
    left: Vec<bool>,
}

impl<W: Wire + Drop> LoggedWire<W> {
    /// Nothing was sent on this wire.
    pub fn new(alloc: Global, wire: W) -> LoggedWire<W>
        ensures wire { result.wire ≡ wire }
        ensures left { result.left.items ≡ [] }
    {
        LoggedWire {
            wire,
            left: Vec::new(alloc),
        }
    }

    /// Whether each datagram left that was sent since `forget` was called last, in order.
    pub fn left(&self) -> &[bool]
        ensures { result.now ≡ self.now.left.items }
    {
        &self.left
    }

    /// Forgets what was sent so far.
    pub fn forget(&mut self)
        ensures wire { self.new.wire ≡ self.old.wire }
        ensures left { self.new.left.items ≡ [] }
    {
        self.left.clear();
    }
}

impl<W: Wire + Drop> Wire for LoggedWire<W> {
    ghost told = { λ w. W.told w.wire };

    fn send(&mut self, to: u16, bytes: &[u8]) -> Result<(), WireFault> {
        let sent = self.wire.send(to, bytes);
        let _ = self.left.push(sent.is_ok());
        sent
    }
}
