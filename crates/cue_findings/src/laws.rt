//! Laws of what is said of a show file. Each contract is a theorem; there is nothing to run.
ghost use Rattle.cue_findings.specs.Laws.{DoneIsSound, EachIsNamed, HintsRefuseNothing, MistakeRefuses};

/// `check` ends with status 0 only if the text says a show file, a controller takes all of it, and it fits an evening.
pub fn done_is_sound()
    ensures { DoneIsSound }
{}

/// A file with a mistake is never taken.
pub fn mistake_refuses()
    ensures { MistakeRefuses }
{}

/// Each mistake that was told is named.
pub fn each_is_named()
    ensures { EachIsNamed }
{}

/// Hints refuse nothing.
pub fn hints_refuse_nothing()
    ensures { HintsRefuseNothing }
{}
