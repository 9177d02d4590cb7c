//! What a machine hears, and from where.
ghost use Rattle.std.specs.Prelude.{List, Option, [], ◌∷◌, length};
ghost use Rattle.cue_machine.specs.Growing.{Grew};
ghost use Rattle.cue_machine.specs.Hearing.{IsWithin, Told, told_as};

use crate::address::Address;
use std::error::Error;
use std::fmt;

/// What came; its bytes stand beside it.
#[derive(Clone, Copy, Debug, PartialEq, Eq)]
pub enum Input {
    /// A datagram at the socket of this place, from this sender.
    Datagram { at: usize, from: Address },
    /// Nobody listens where the socket of this place sends.
    Refused { at: usize },
    /// Nothing, and it is time.
    Wake,
}

/// What ears answer: what came at a moment in milliseconds, with the first `n` bytes of the buffer, or that nothing
/// comes any more.
#[derive(Clone, Copy, Debug, PartialEq, Eq)]
pub enum Turn {
    End,
    Comes { now: u64, input: Input, n: usize },
}

/// The ears failed.
#[derive(Clone, Copy, Debug, PartialEq, Eq)]
pub struct EarsFault;

impl fmt::Display for EarsFault {
    ghost use Rattle.std.specs.Prelude.{Some, codes};

    ghost output = { λ _. Some (codes "nothing can be heard") };

    fn fmt<W: fmt::Write>(&self, f: &mut fmt::Formatter<W>) -> fmt::Result {
        write!(f, "nothing can be heard")
    }
}

impl Error for EarsFault {}

/// Where all that a machine hears comes from.
pub trait Ears {
    /// All that was told so far, each with its moment, and with when it was to be told at the latest; None for ears
    /// that do not show it.
    ghost told: { Self → Option (List Told) };

    /// What comes next. Bytes go into the buffer, cut to its length. If nothing comes until this moment it is a wake;
    /// with none it may wait for good.
    fn hear(&mut self, until: Option<u64>, buffer: &mut [u8]) -> Result<Turn, EarsFault>
        ensures within { IsWithin result (length buffer.old) }
        ensures told { Grew (told self.old) (told_as until result buffer.new ∷ []) (told self.new) };
}
