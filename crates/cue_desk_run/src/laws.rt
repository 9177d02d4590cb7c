//! What no desk does, whatever it hears. Each contract is a theorem; there is nothing to run.
ghost use Rattle.cue_desk_run.specs.Laws.{RoundsOnlyAsk};

/// Whatever leaves a desk while it hears no press is a question for the status: an order leaves only for a press.
pub fn rounds_only_ask()
    ensures { RoundsOnlyAsk }
{}
