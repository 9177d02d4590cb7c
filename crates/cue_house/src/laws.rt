//! Laws of every house, whatever happens in it, each the contract of a function that does nothing.
ghost use Rattle.cue_house.specs.Asking.{GoOnlyByCommand};
ghost use Rattle.cue_house.specs.Decisions.{ADecisionWasAsked, AMotionWasAsked};
ghost use Rattle.cue_house.specs.Finger.{FromAFingerToAMachine};
ghost use Rattle.cue_house.specs.Presses.{AMotionWasPressed};

/// An input gives an attempt only if it is a datagram that asks for a go of its cue, and only while the attempt is
/// ready.
pub fn go_only_by_command()
    ensures { GoOnlyByCommand }
{}

/// Each decision that the store keeps came of a datagram that asked for a go of the cue with which the attempt started.
pub fn a_decision_was_asked()
    ensures { ADecisionWasAsked }
{}

/// A device is ordered to move for an attempt only after a datagram asked for a go of its cue.
pub fn a_motion_was_asked()
    ensures { AMotionWasAsked }
{}

/// If nobody but a desk asks for a go, a device is ordered to move for an attempt only after somebody pressed GO for
/// its cue, on a view at most a second old that had GO lit for an attempt of this cue that was ready.
pub fn a_motion_was_pressed()
    ensures { AMotionWasPressed }
{}

/// And if desks read the store as it was: GO was pressed for this very attempt, or for one of its cue that ended before
/// it started; the decision is kept; no device hears a CANCEL of it; and each required device had prepared and said so,
/// if nobody but a device says of itself that it stands by.
pub fn from_a_finger_to_a_machine()
    ensures { FromAFingerToAMachine }
{}
