//! Laws of what is told of a load. Each contract is a theorem; there is nothing to run.
ghost use Rattle.cue_load_words.specs.Laws.{CopiesAreApart, CopiesAreFound, DoneIsLoaded, NoCopyIsTheFile};
ghost use Rattle.cue_load_words.specs.Laws.{RefusedIsCounted, RefusedIsNamed, SilenceIsNoSuccess};

/// The exit status is 0 only if nothing was refused and the store that was compared is what the file says.
pub fn done_is_loaded()
    ensures { DoneIsLoaded }
{}

/// And only if each message was replied to. So silence is never success, and no store is changed without its copy.
pub fn silence_is_no_success()
    ensures { SilenceIsNoSuccess }
{}

/// If something was refused, an entry is named that was.
pub fn refused_is_named()
    ensures { RefusedIsNamed }
{}

/// And the number of those that were refused is not printed as 0.
pub fn refused_is_counted()
    ensures { RefusedIsCounted }
{}

/// Two copies beside a show file have different names.
pub fn copies_are_apart()
    ensures { CopiesAreApart }
{}

/// The copies of a copy that was loaded stand beside the show file that it is a copy of.
pub fn copies_are_found()
    ensures { CopiesAreFound }
{}

/// No copy has the name of the show file that it is kept of, unless that is a copy itself.
pub fn no_copy_is_the_file()
    ensures { NoCopyIsTheFile }
{}
