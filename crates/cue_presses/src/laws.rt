//! What the definitions of this crate come to. Each contract is a theorem; there is nothing to run.
ghost use Rattle.std.specs.Prelude.{◌≡◌};
ghost use Rattle.cue_presses.specs.Hand.{PressedIsMeant};
ghost use Rattle.cue_presses.specs.Laws.{GoIsNoRace, PressIsYoung, PressedAfterLetGo};
ghost use Rattle.cue_presses.specs.declared.hand.TheConstants.{FINGERS};
ghost use Rattle.cue_presses.specs.declared.keys.TheConstants.{PRESSED};
ghost use Rattle.cue_presses.specs.declared.settling.TheConstants.{AWAY_MS, SETTLE_MS};
ghost use Rattle.cue_presses.specs.declared.taps.TheConstants.{TAP_MS};

/// A controller presses only after a value below 64 was heard of it since the device was opened: what is held when the
/// device comes is no press.
pub fn pressed_after_let_go()
    ensures { PressedAfterLetGo }
{}

/// A GO that names no cue, where none is chosen, presses only while exactly one cue stands by, ready or not: which
/// device is ready first decides nothing.
pub fn go_is_no_race()
    ensures { GoIsNoRace }
{}

/// What a hand presses was struck: a STANDBY by the key STANDBY, a GO by the key GO, a CANCEL by the key CANCEL, each of
/// the cue that was named; not while what came may have waited in the device, not as the ninth of a round, and not as
/// the second tap of a GO.
pub fn pressed_is_meant()
    ensures { PressedIsMeant }
{}

/// What presses came less than about a second ago, and not before the device was opened: within the last second, and
/// after the settling began, a read has found nothing.
pub fn press_is_young()
    ensures { PressIsYoung }
{}

/// A controller is pressed from 64 on. A GO within 1,000 milliseconds of another is its second tap. What a device gives
/// within 100 milliseconds of its opening never presses; nor does what it gives after 1,000 milliseconds in which no
/// read found it empty. Eight presses are heard in a round.
pub fn limits()
    ensures pressed { PRESSED ≡ 64 }
    ensures tap { TAP_MS ≡ 1000 }
    ensures settle { SETTLE_MS ≡ 100 }
    ensures away { AWAY_MS ≡ 1000 }
    ensures fingers { FINGERS ≡ 8 }
{}
