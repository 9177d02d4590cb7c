//! What every life of a question comes to, whatever is heard. Each contract is a theorem; there is nothing to run.
ghost use Rattle.std.specs.Prelude.{◌≡◌, ◌+◌, ◌*◌, ◌^◌};
ghost use Rattle.cue_ask_machine.specs.Laws.{OnlyItsReplyIsTold, OverWithinASecond, SentOnce};
ghost use Rattle.cue_ask_machine.specs.declared.letters.TheConstants.{SHOWN};
ghost use Rattle.cue_ask_machine.specs.declared.machine.TheConstants.{HOME};
ghost use Rattle.cue_ask_machine.specs.declared.stage.TheConstants.{PATIENCE};

/// Over a whole life the message leaves at most once, after the name, if there is one, which leaves at most once.
/// Nothing else leaves.
pub fn sent_once()
    ensures { SentOnce }
{}

/// What is told is the reply to that very message, from the controller's port of this machine, and the first one; or
/// that nobody listens there, or that a second has passed, since the message left; or that it could not be sent.
pub fn only_its_reply_is_told()
    ensures { OnlyItsReplyIsTold }
{}

/// It is over within a second after the message left: until then it wakes in time, and before it at once.
pub fn over_within_a_second()
    ensures { OverWithinASecond }
{}

/// A second has 1,000 milliseconds, this machine is 127.0.0.1, and a reply shows 64 bytes of an address.
pub fn limits()
    ensures patience { PATIENCE ≡ 1000 }
    ensures home { HOME ≡ 127 * 2 ^ 24 + 1 }
    ensures shown { SHOWN ≡ 64 }
{}
