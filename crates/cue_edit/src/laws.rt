//! Laws of what a change makes of the cues, each the contract of a function that does nothing.
ghost use Rattle.cue_edit.specs.Laws as laws;

/// A sign that is set changes no number and no part, and so nothing that a controller is told.
pub fn signs_move_nothing()
    ensures { laws.SignsMoveNothing }
{}

/// A cue that is carried is not lost, and no other one either: there are as many as before.
pub fn carrying_keeps_all()
    ensures { laws.CarryingKeepsAll }
{}

/// A copy has all that the cue has, but its number, and each other cue stays.
pub fn a_copy_adds_one()
    ensures { laws.ACopyAddsOne }
{}
