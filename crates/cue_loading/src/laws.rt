//! Laws of plans, each the contract of a function that does nothing.
ghost use Rattle.cue_loading.specs.Steps.{EachIsTaken};

/// Wherever a plan is cut off, the controller has taken each step so far: no step rests on a later one.
pub fn each_step_is_taken()
    ensures { EachIsTaken }
{}
