//! Where datagrams and ticks come from.
ghost use Rattle.std.specs.Prelude.{List, Option, [], ◌∷◌, length};
ghost use Rattle.cue_engine.specs.Sources.{Answer, gave, IsWithin, GaveAll, WaitsWithin, Waited};

use std::error::Error;
use std::fmt;

/// What a source gives: one datagram or one tick, at a time in milliseconds since 1970, or that nothing comes any
/// more.
#[derive(Clone, Copy, Debug, PartialEq, Eq)]
pub enum Turn {
    End,
    Tick { now: u64 },
    /// The first `n` bytes of the buffer, from this port.
    Datagram { now: u64, from: u16, n: usize },
}

/// A datagram that was there already: the first `n` bytes of the buffer, from this port, at a time in milliseconds
/// since 1970.
#[derive(Clone, Copy, Debug, PartialEq, Eq)]
pub struct Waiting {
    pub now: u64,
    pub from: u16,
    pub n: usize,
}

/// The source failed.
#[derive(Clone, Copy, Debug, PartialEq, Eq)]
pub struct SourceFault;

impl fmt::Display for SourceFault {
    fn fmt<W: fmt::Write>(&self, f: &mut fmt::Formatter<W>) -> fmt::Result {
        write!(f, "the source failed")
    }
}

impl Error for SourceFault {}

/// Where datagrams and ticks come from.
pub trait Source {
    /// The answers that are left; None for a source that does not say.
    ghost left: { Self → Option (List Answer) };

    /// The next datagram or tick. A datagram goes into the buffer, cut to its length.
    fn next(&mut self, buffer: &mut [u8]) -> Result<Turn, SourceFault>
        ensures within { IsWithin result (length buffer.old) }
        ensures gave { GaveAll (length buffer.old) (left self.old) (gave result buffer.new ∷ []) (left self.new) };

    /// A datagram that is there already, cut to the length of the buffer; None if none is. It does not wait, and it
    /// is never a tick. A source that cannot tell has none: then each input is a group of its own.
    fn waiting(&mut self, buffer: &mut [u8]) -> Result<Option<Waiting>, SourceFault>
        ensures within { WaitsWithin result (length buffer.old) }
        ensures waited { Waited (length buffer.old) result buffer.new (left self.old) (left self.new) }
    {
        Ok(None)
    }
}
