//! The first turn that a few tries bring.
ghost use Rattle.std.specs.Prelude.{◌≡◌, List, Option, length, IfOk, IfSome};
ghost use Rattle.cue_engine.specs.Sources.{IsWithin};
ghost use Rattle.cue_engine.specs.Udp.{NextWithin};
ghost use Rattle.cue_engine.specs.Tries.{Try, try_of, Tried, GaveFirst};
ghost use Rattle.cue_engine.specs.declared.sources.source.Turn.{Turn};
ghost use Rattle.cue_engine.specs.declared.sources.udp.tries.TheConstants.{MAX_DROPPED};

use crate::sources::source::{SourceFault, Turn};
use std::io;

/// How many datagrams of the own port are dropped in one call, before the call is a fault.
pub const MAX_DROPPED: u32 = 65_536;

/// One call of a source is made of tries.
pub trait Tries {
    /// What the tries to come bring; None for one that does not say.
    ghost left: { Self → Option (List Try) };

    /// Which turns it may bring, by what it then is.
    ghost allows: { Self → Turn → Type 0 };

    /// What comes next, or None if that is passed over.
    fn try_next(&mut self, buffer: &mut [u8]) -> io::Result<Option<Turn>>
        ensures within { IfOk result (λ next. NextWithin next (length buffer.old)) }
        ensures tried { Tried (left self.old) (try_of result) (left self.new) }
        ensures allowed { IfOk result (λ next. IfSome next (allows self.new)) };
}

/// The first turn of so many tries. It is a fault if all of them are passed over, or one fails before that turn.
pub fn first_turn<T: Tries>(
    tries: &mut T,
    most: u32,
    buffer: &mut [u8],
) -> Result<Turn, SourceFault>
    ensures within { IsWithin result (length buffer.old) }
    ensures first { GaveFirst most (T.left tries.old) result (T.left tries.new) }
    ensures allowed { IfOk result (T.allows tries.new) }
{
    for _ in 0..most {
        match tries.try_next(buffer) {
            Ok(Some(turn)) => return Ok(turn),
            Ok(None) => {}
            Err(_) => return Err(SourceFault),
        }
    }
    Err(SourceFault)
}

/// One call of a `UdpSource` drops 65,536 datagrams at most.
pub fn udp_limits()
    ensures { MAX_DROPPED ≡ 65536 }
{}
