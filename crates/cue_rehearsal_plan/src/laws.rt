//! Laws of who is rehearsed. Each contract is a theorem; there is nothing to run.
ghost use Rattle.cue_rehearsal_plan.specs.Laws.{EachIsPlayed, EachUnknownIsNamed, NobodyElseIsPlayed};
ghost use Rattle.cue_rehearsal_plan.specs.Laws.{OnlyUnknownIsNamed, UnknownIsNamedOnce, UnnamedPlays};

/// Each device of the show is played once, in order, at its port.
pub fn each_is_played()
    ensures { EachIsPlayed }
{}

/// And nobody else is.
pub fn nobody_else_is_played()
    ensures { NobodyElseIsPlayed }
{}

/// A device of which a plan says nothing plays.
pub fn unnamed_plays()
    ensures { UnnamedPlays }
{}

/// Each device that a plan names and the file does not have is told: so a plan of which none is told fits.
pub fn each_unknown_is_named()
    ensures { EachUnknownIsNamed }
{}

/// No other device is told: so a plan that fits is never refused.
pub fn only_unknown_is_named()
    ensures { OnlyUnknownIsNamed }
{}

/// None is told twice.
pub fn unknown_is_named_once()
    ensures { UnknownIsNamedOnce }
{}
