//! What a load carries out that replaces something, with the copy that goes out before it.
ghost use Rattle.std.specs.Prelude.{◌≡◌, IfErr, IfOk, IfSome, false, true};
ghost use Rattle.cue_desk.specs.declared.ending.Ending.TheVariants.{Failed};
ghost use Rattle.cue_load_machine.specs.Plans.{rests};
ghost use Rattle.cue_load_words.specs.Planned.{IsPlannedFrom};
ghost use Rattle.cue_loading.specs.Steps.{goes_on};

use crate::copied::copied_of;
use crate::looking::Stored;
use cue_desk::ending::Ending;
use cue_load_machine::{Planned, plan_load};
use cue_loading::Manner;
use cue_show::Show;
use std::alloc::Global;

/// How to make of what a store has what a file says; none if the stack has no room. It fails if memory ran out, or if a
/// step of the plan cannot be asked.
pub fn planned_from(
    alloc: Global,
    port: u16,
    manner: Manner,
    file: &Show,
    stored: &Stored,
) -> Result<Option<Planned>, Ending>
    requires at_rest { rests stored.now.live ≡ true }
    requires takes { goes_on manner false ≡ false }
    ensures planned { IfOk result (λ some. IfSome some (IsPlannedFrom port manner file.now stored.now.show)) }
    ensures failed { IfErr result (λ ending. ending ≡ Failed) }
{
    let (show, live) = (stored.show(), stored.live());
    let copied = copied_of(alloc, manner, file, show, port)?;
    match plan_load(alloc, port, manner, file, show, live, copied) {
        Ok(planned) => Ok(planned),
        Err(_) => Err(Ending::Failed),
    }
}
