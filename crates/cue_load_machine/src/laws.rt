//! What every life of a load comes to, whatever is heard. Each contract is a theorem; there is nothing to run.
ghost use Rattle.std.specs.Prelude.{◌≡◌, ◌+◌, ◌*◌, ◌^◌};
ghost use Rattle.cue_load_machine.specs.Laws.{NothingGoesUncopied, OneAfterTheOther, OverInTime, SentAsOftenAsMayBe};
ghost use Rattle.cue_load_machine.specs.Plans.{ARefusalStops, EachIsDone, NothingTakenUncopied, SentByThePlan};
ghost use Rattle.cue_load_machine.specs.Plans.{TwiceIsOnce};
ghost use Rattle.cue_load_machine.specs.declared.asks.TheConstants.{MAX_SENDINGS, PATIENCE, PATIENCE_TOGETHER};
ghost use Rattle.cue_load_machine.specs.declared.stage.TheConstants.{SOCKETS};

use cue_loading::laws::each_step_is_taken;

/// A life is the copy of the store, if there is one, and then one sending of a message after the other, from the first
/// message on. A message leaves once in a sending, and nothing else does. What is told of it are the replies that came
/// to it, at its socket, from the controller's port of this machine. The next message is sent once all of them came and
/// none stopped the load; the same one again, or, of one that asks several, each by itself, once its time has passed.
/// It ends in the turn in which it is heard that nobody listens at the socket of its sending.
pub fn one_after_the_other()
    ensures { OneAfterTheOther }
{}

/// A load that may take something away, and has a copy to write, sends nothing before the copy is written.
pub fn nothing_goes_uncopied()
    ensures { NothingGoesUncopied }
{}

/// A message is sent again only if it may be, and at most so many times.
pub fn sent_as_often_as_may_be()
    ensures { SentAsOftenAsMayBe }
{}

/// It is over, or wakes at once, or when the time for the next reply to the message that left last has passed: that
/// begins as the message leaves, and anew with each reply to it.
pub fn over_in_time()
    ensures { OverInTime }
{}

/// A message is sent four times at most, a quarter of a second apart; one that asks several once, with a second for
/// each reply. There are 32 sockets.
pub fn limits()
    ensures sendings { MAX_SENDINGS ≡ 4 }
    ensures patience { PATIENCE ≡ 250 }
    ensures together { PATIENCE_TOGETHER ≡ 1000 }
    ensures sockets { SOCKETS ≡ 32 }
{}

// ---- plans

/// What a load sends that puts a show file in the place of another show are the steps of the plan that was judged
/// against the store as it was read. The show before each step is one that the plan goes through, from the old one
/// on, and so is the one after it: the controller takes each step so far.
pub fn sent_by_the_plan()
    ensures { SentByThePlan }
{
    each_step_is_taken();
}

/// If its plan takes something away, nothing is sent before the copy of the store is written.
pub fn nothing_taken_uncopied()
    ensures { NothingTakenUncopied }
{}

/// A load of a plan says that it is done only once each of its steps was replied to, and none was refused.
pub fn each_is_done()
    ensures { EachIsDone }
{}

/// Once a step was refused nothing leaves any more.
pub fn a_refusal_stops()
    ensures { ARefusalStops }
{}

/// A step of a plan may be sent again: a controller that has taken it changes nothing when it comes once more.
pub fn twice_is_once()
    ensures { TwiceIsOnce }
{}
