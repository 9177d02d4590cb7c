//! What a file of marks has after presses. The contract is a theorem; there is nothing to run.
ghost use Rattle.cue_curtain.specs.Lines.{PressesAreKept};

/// Whatever a file has, each mark that is put after it stands there, once and in the order of the presses, and each
/// line of before stays.
pub fn presses_are_kept()
    ensures { PressesAreKept }
{}
