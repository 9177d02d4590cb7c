//! What the alarms come to. Each contract is a theorem; there is nothing to run.
ghost use Rattle.cue_station.specs.Warning.{AgeIsSaid, ClaimsRaiseNoAlarm, LoudestFirst, SilenceIsSaid};

/// There is an alarm of silence exactly if no status of now is answered.
pub fn silence_is_said()
    ensures { SilenceIsSaid }
{}

/// There is one of age exactly if no copy is young.
pub fn age_is_said()
    ensures { AgeIsSaid }
{}

/// No alarm is louder than one before it.
pub fn loudest_first()
    ensures { LoudestFirst }
{}

/// Whatever devices tell of themselves, the same is wrong. What is lit is made of nothing that a relay says.
pub fn claims_raise_no_alarm()
    ensures { ClaimsRaiseNoAlarm }
{}
