//! Laws of the door: what joins the calls of C, each the contract of a function that does nothing.
ghost use Rattle.cue_device_c.specs.Laws.{LivesAfterARestart, LivesOverCalls, MovesOnceOverCalls, StandForIt};

/// The numbers that a call leaves stand for the device that it leaves: the next call reads that device.
pub fn numbers_stand_for_their_device()
    ensures { StandForIt }
{}

/// If each call is handed what the one before left, unchanged, the struct is at each moment the device that was made,
/// after all that has happened to it, and the calls have given what that device ordered. So the laws of `cue_device`
/// hold of it.
pub fn lives_over_calls()
    ensures made { LivesOverCalls }
    ensures restarted { LivesAfterARestart }
{}

/// As this one: C is told to move at most once for each number.
pub fn moves_once_over_calls()
    ensures { MovesOnceOverCalls }
{}
