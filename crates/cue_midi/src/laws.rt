//! Laws of a stream of MIDI bytes. Each contract is a theorem; there is nothing to run.
ghost use Rattle.cue_midi.specs.Laws.{HeardIsStruck, RealTimePasses, StruckIsHeard};

/// Bytes of real time change nothing of what the next byte finishes.
pub fn real_time_passes()
    ensures { RealTimePasses }
{}

/// A key that is struck is heard at its last byte, also with bytes of real time between.
pub fn struck_is_heard()
    ensures { StruckIsHeard }
{}

/// A key is heard only at the last byte of a message that spells it.
pub fn heard_is_struck()
    ensures { HeardIsStruck }
{}
