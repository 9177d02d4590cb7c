//! Laws of what is told of a typed command. Each contract is a theorem; there is nothing to run.
ghost use Rattle.cue_order_words.specs.Laws.{DoneIsReplied, EachIsClear, MadeIsReplied, NobodyIsSaid, PartlyIsReplied};
ghost use Rattle.cue_order_words.specs.Laws.{RefusedIsReplied};

/// That a command was made is told only of the controller's reply to it, by which it was made; if several cues were
/// to stand by, by which each of them does, and one did not before.
pub fn made_is_replied()
    ensures { MadeIsReplied }
{}

/// That it was refused is told only of the reply that says so, with the code of that reply: nothing of it was carried
/// out.
pub fn refused_is_replied()
    ensures { RefusedIsReplied }
{}

/// That not all of several cues stand by is told only of the reply by which some do, and not as many as were asked for.
pub fn partly_is_replied()
    ensures { PartlyIsReplied }
{}

/// The exit status is 0 only if the controller replied that all that was asked was made or known, or if its status was
/// asked and came. So silence is never success.
pub fn done_is_replied()
    ensures { DoneIsReplied }
{}

/// That nobody listens, and nothing was carried out, is told only if the system says so.
pub fn nobody_is_said()
    ensures { NobodyIsSaid }
{}

/// Each reply to a question is told as what it says: none is unclear.
pub fn each_is_clear()
    ensures { EachIsClear }
{}
