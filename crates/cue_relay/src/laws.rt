//! What the definitions of this crate come to. Each contract is a theorem; there is nothing to run.
ghost use Rattle.std.specs.Prelude.{◌≡◌};
ghost use Rattle.cue_relay.specs.Silences.{AtRestIsNotSilent, IsOverOnceItAnswered, MovesUntilItAnswers};
ghost use Rattle.cue_relay.specs.Silences.{SilentIsAsked};
ghost use Rattle.cue_relay.specs.Telling.{OnlyItTells};
ghost use Rattle.cue_relay.specs.declared.rate.TheConstants.{RATE, SECOND};

/// Who is said to be silent was ordered to stand by or to let go, and has not answered that: never one that moves.
pub fn silent_is_asked()
    ensures { SilentIsAsked }
{}

/// A device that has answered all that it was ordered never falls silent: the replies of the controller change nothing,
/// and no time does.
pub fn at_rest_is_not_silent()
    ensures { AtRestIsNotSilent }
{}

/// Who was sent a GO, and no late copy of one, may still move until an answer shows that the motion is over: it ends
/// that attempt, or the device stands by for a later one, or has carried one out. Another STANDBY, an abort of that, and
/// time change nothing.
pub fn moves_until_it_answers()
    ensures { MovesUntilItAnswers }
{}

/// Such an answer ends it.
pub fn is_over_once_it_answered()
    ensures { IsOverOnceItAnswered }
{}

/// Who tells something of a device is that device: at the stage's side of its own route, from its own address, in a
/// datagram that is a claim of it.
pub fn only_it_tells()
    ensures { OnlyItTells }
{}

/// At most 100 datagrams of one device go on to the controller within 1,000 milliseconds.
pub fn limits()
    ensures rate { RATE ≡ 100 }
    ensures second { SECOND ≡ 1000 }
{}
