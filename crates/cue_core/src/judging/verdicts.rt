//! The three verdicts, with their events.
ghost use Rattle.std.specs.Prelude.{◌≡◌, [], ◌∷◌};
ghost use Rattle.cue_core.specs.Judge.{known_already, made_by, refused_with};

use crate::command::{Code, Verdict};
use crate::event::Event;
use crate::events::Events;

// The command is carried out by one event.
pub(crate) fn made(event: Event) -> (Verdict, Events)
    ensures { result ≡ made_by (event ∷ []) }
{
    (Verdict::Made, Events::one(event))
}

// The command is carried out by two events, in order.
pub(crate) fn made_by_two(first: Event, second: Event) -> (Verdict, Events)
    ensures { result ≡ made_by (first ∷ second ∷ []) }
{
    (Verdict::Made, Events::two(first, second))
}

// The command says what is so already.
pub(crate) fn known() -> (Verdict, Events)
    ensures { result ≡ known_already }
{
    (Verdict::Known, Events::none())
}

// The command is refused.
pub(crate) fn refused(code: Code) -> (Verdict, Events)
    ensures { result ≡ refused_with code }
{
    (Verdict::No(code), Events::none())
}
