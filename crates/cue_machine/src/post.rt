//! What a machine gives, and where it goes.
ghost use Rattle.std.specs.Prelude.{List, Option, [], ◌∷◌, is_err};
ghost use Rattle.cue_machine.specs.Growing.{Grew};
ghost use Rattle.cue_machine.specs.Posting.{Posted, posted_as};

use crate::address::Address;
use std::error::Error;
use std::fmt;

/// What is to go out; its bytes stand beside it.
#[derive(Clone, Copy, Debug, PartialEq, Eq)]
pub enum Output {
    /// A datagram, by the socket of this place, to this address.
    Send { by: usize, to: Address },
    /// A text, on standard output.
    Print,
    /// A text, on standard error.
    Say,
    /// All that the program's file is to hold.
    Replace,
}

/// It did not go out.
#[derive(Clone, Copy, Debug, PartialEq, Eq)]
pub struct PostFault;

impl fmt::Display for PostFault {
    ghost use Rattle.std.specs.Prelude.{Some, codes};

    ghost output = { λ _. Some (codes "it did not go out") };

    fn fmt<W: fmt::Write>(&self, f: &mut fmt::Formatter<W>) -> fmt::Result {
        write!(f, "it did not go out")
    }
}

impl Error for PostFault {}

/// Where all that a machine gives goes.
pub trait Post {
    /// All that went out, in order, each with whether it was lost; None for a post that does not show it.
    ghost left: { Self → Option (List Posted) };

    /// Lets this go out. What cannot go at once is lost.
    fn post(&mut self, output: Output, bytes: &[u8]) -> Result<(), PostFault>
        ensures { Grew (left self.old) (posted_as output bytes.now (is_err result) ∷ []) (left self.new) };
}
