//! Laws of what is known, each the contract of a function that does nothing.
ghost use Rattle.cue_whereabouts.specs.Laws as laws;

/// Whatever readings were heard, one after the other, and however they overlap: none of them tells of a newer attempt
/// of a device than the one that is known of it.
pub fn none_is_newer()
    ensures { laws.NoneIsNewer }
{}

/// What is known of a device was known before, or an event of one of the readings tells it.
pub fn nothing_is_made_up()
    ensures { laws.NothingIsMadeUp }
{}

/// A reading that is heard again changes nothing.
pub fn again_is_nothing()
    ensures { laws.AgainIsNothing }
{}
