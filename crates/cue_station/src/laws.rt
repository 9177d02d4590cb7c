//! The law of the desk. Each contract is a theorem; there is nothing to run.
ghost use Rattle.std.specs.Prelude.{◌≡◌};
ghost use Rattle.cue_station.specs.Examples.{LitUnheardIsRefused, OtherCueIsRefused, UnpressedIsRefused};
ghost use Rattle.cue_station.specs.Readings.{AfterGoNothing, DeadlineIsDark, FailingIsSaid, FailureIsKept};
ghost use Rattle.cue_station.specs.Readings.{NoCueAfterEnd, OutOfSightIsDark};
ghost use Rattle.cue_station.specs.declared.limits.TheConstants.{ASK_AGAIN_MS, ASK_MS, COPY_MS, KEPT_FAILURES};
ghost use Rattle.cue_station.specs.declared.limits.TheConstants.{KEPT_SEEN, KEPT_VIEWS, MAX_TOLD, OTHER_MS};
ghost use Rattle.cue_station.specs.declared.limits.TheConstants.{POSITION_MS, PRESS_MS, RELAY_MS, SHOWN_MS};
ghost use Rattle.cue_station.specs.declared.limits.TheConstants.{STATUS_MS, TAP_MS};

/// Without a place a cue is next only if none was given, and if the events tell of every attempt.
pub fn no_cue_after_the_end()
    ensures { NoCueAfterEnd }
{}

/// After a go nothing is chosen.
pub fn after_go_nothing()
    ensures { AfterGoNothing }
{}

/// A GO that is lit is of a live attempt of the newest copy, whose deadline is after now by the wall's clock, and of
/// which ten seconds since it was first seen are not over by the one that never goes back.
pub fn deadline_is_dark()
    ensures { DeadlineIsDark }
{}

/// What is lit and sends something is lit only while the store is in sight: no alarm says that it is old, or gone.
pub fn out_of_sight_is_dark()
    ensures { OutOfSightIsDark }
{}

/// A device that failed in a live attempt is an alarm in the first view that has read it, and so is a live attempt
/// whose standby a device or the ten seconds gave up, unless it was said that this was seen.
pub fn failing_is_said()
    ensures { FailingIsSaid }
{}

/// What is kept of a failure with its cue is shown with it, and has its alarm, until somebody says that it was seen: as
/// long as no more than 64 are kept, and its number is one of the store's.
pub fn a_failure_stays()
    ensures { FailureIsKept }
{}

/// A GO that is lit before anything was heard breaks it.
pub fn lit_unheard_is_refused()
    ensures { LitUnheardIsRefused }
{}

/// A message that nobody pressed for breaks it.
pub fn unpressed_is_refused()
    ensures { UnpressedIsRefused }
{}

/// A GO that is sent is that of the cue whose button was pressed.
pub fn other_cue_is_refused()
    ensures { OtherCueIsRefused }
{}

/// What the desk stands by, in milliseconds: a copy for 1,000, a status for 2,000, a view for a press for 1,000.
/// Another store is named after 1,000, a relay has stopped after 2,000, and a position is shown for 2,000. A press may
/// name one of the newest 128 views, 8 attempts are told as ended, and of 64 attempts in a row each keeps that it was
/// seen. Of what went wrong, and nobody has seen, 64 attempts are kept that the newest copy no longer tells of. A GO
/// within 1,000 of another is its second tap, and a press that was made is shown by the store within 1,000. The status
/// is asked 100 after a question that was answered, and 500 after one that was not.
pub fn limits()
    ensures copy { COPY_MS ≡ 1000 }
    ensures status { STATUS_MS ≡ 2000 }
    ensures press { PRESS_MS ≡ 1000 }
    ensures views { KEPT_VIEWS ≡ 128 }
    ensures told { MAX_TOLD ≡ 8 }
    ensures other { OTHER_MS ≡ 1000 }
    ensures relay { RELAY_MS ≡ 2000 }
    ensures position { POSITION_MS ≡ 2000 }
    ensures seen { KEPT_SEEN ≡ 64 }
    ensures failures { KEPT_FAILURES ≡ 64 }
    ensures tap { TAP_MS ≡ 1000 }
    ensures shown { SHOWN_MS ≡ 1000 }
    ensures asked { ASK_MS ≡ 100 }
    ensures again { ASK_AGAIN_MS ≡ 500 }
{}
