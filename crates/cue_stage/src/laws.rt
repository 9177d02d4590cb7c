//! Laws of every stage, whatever happens to it, each the contract of a function that does nothing.
ghost use Rattle.cue_stage.specs.Consent.{OnlyWithConsent};
ghost use Rattle.cue_stage.specs.Going.{ACueThatCanGoDoesGo, ACueThatIsPreparedCanGo, ATickOrdersAllWhoAreAwaited};
ghost use Rattle.cue_stage.specs.Going.{AnAnswerEndsAWaiting, EachCopyIsAnswered, WaitingNeverRises};
ghost use Rattle.cue_stage.specs.Laws.{MovesOnce, MovesRestOnDecisions, NotByHalves};

/// A move rests on a decision that stays: a device is ordered to move for an attempt only if its Go is in the
/// batches that the store keeps, and there it is kept, before and after every stop from then on. The device is one of
/// the attempt's, and was not excused. What it prepares, moves or gives up is its own task: the cue, and the part that
/// the show gave it there as the attempt started. It is ordered to give up only if the kept batches have the Cancel.
pub fn moves_rest_on_decisions()
    ensures { MovesRestOnDecisions }
{}

/// If one device was ordered to move for an attempt, no CANCEL of it ever comes to any device, and none is ever ordered
/// to give it up; and the other way round.
pub fn not_by_halves()
    ensures { NotByHalves }
{}

/// A device is ordered to move for an attempt at most once, whatever copies the network delivers, and however often
/// the power is lost at the controller or at the device.
pub fn moves_once()
    ensures { MovesOnce }
{}

/// If nobody but a device says of itself that it stands by, a device is ordered to move for an attempt only after
/// each required device of it has prepared for it and has answered so.
pub fn only_with_consent()
    ensures { OnlyWithConsent }
{}

/// Once an attempt was given or given up, nothing that happens on the stage makes it wait for a device for which it
/// did not wait: the number of devices that are still to answer never rises.
pub fn waiting_never_rises()
    ensures { WaitingNeverRises }
{}

/// A tick sends an order to each device that is still to answer in an attempt that was given or given up, at its port,
/// and to no other one of it: GO_2PC if it was given, CANCEL if it was given up.
pub fn a_tick_orders_all_who_are_awaited()
    ensures { ATickOrdersAllWhoAreAwaited }
{}

/// A device that keeps the table answers each copy of an order, unless its machine is at work for it: STANDBY with
/// standing_by, GO_2PC with complete, CANCEL with cancelled, or any of them with abort. And so it does when its machine
/// reports the end of what the order asks.
pub fn each_copy_is_answered()
    ensures { EachCopyIsAnswered }
{}

/// An answer to GO_2PC or CANCEL, from the port of its device, ends a waiting: one device less is awaited. With the last
/// one the attempt ends: cancelled if it was given up, and else complete, unless a device has failed.
pub fn an_answer_ends_a_waiting()
    ensures { AnAnswerEndsAWaiting }
{}

/// A cue that can go does go: if after a tick each device of an attempt to which the tick sends GO_2PC or CANCEL hears
/// it out, so that its machine has done its work or reports the end of it, and the answer is taken, then the attempt
/// has ended; complete, if it was given and no device has failed. Whatever else may happen in that time.
pub fn a_cue_that_can_go_does_go()
    ensures { ACueThatCanGoDoesGo }
{}

/// And a cue that each machine prepares can go: if after a tick each device that it waits for hears it out, and it was
/// neither given nor given up in that time, by a device, its deadline or an operator, then a GO for it is made.
pub fn a_cue_that_is_prepared_can_go()
    ensures { ACueThatIsPreparedCanGo }
{}
