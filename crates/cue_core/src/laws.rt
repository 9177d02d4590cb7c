//! The laws of the exchange: what holds of every list of events and of every list of commands. Each is the contract
//! of a function that does nothing.
ghost use Rattle.std.specs.Prelude.{◌≡◌};
ghost use Rattle.cue_core.specs.declared.limits.TheConstants.{STANDBY_MS};
ghost use Rattle.cue_core.specs.Batches.{AcceptableAreHistories, ClosedStays, DecidedByGo, EventsKeepRules};
ghost use Rattle.cue_core.specs.Batches.{HistoriesFold, LiveByStart};
ghost use Rattle.cue_core.specs.ByAnswer.{ReadyOnlyByAnswer};
ghost use Rattle.cue_core.specs.History.{FactsByHistory};
ghost use Rattle.cue_core.specs.Happenings.{CommandsInOrder, CommandsMakeHistories};
ghost use Rattle.cue_core.specs.InOrder.{GoAfterReady};
ghost use Rattle.cue_core.specs.InTurn.{StepsAreAcceptable, StepsGoOn, StepsMakeHistories};
ghost use Rattle.cue_core.specs.Answers.{AnswersCommute, AnswersLeaveOthers, EachHasASituation};
ghost use Rattle.cue_core.specs.Safety.{DecidedStays, NeverAskedBoth, NothingMoreIsAsked, OneHolder};

/// Every state that acceptable events lead to from the empty one is what its history says: the last number is the
/// count of the Starts; an attempt is live exactly if it started and some device of it is not done with; its
/// devices are those of its cue at its Start, and optional alike; it is Decided exactly if it was decided; a
/// device of a Preparing attempt is Ready exactly if it stood by and was not excused.
pub fn facts_by_history()
    ensures { FactsByHistory }
{}

/// An attempt is decided only after its Start, after Ready of each required device, after Ready or Excuse of each
/// optional one, and after no Cancel; and after that it is not cancelled.
pub fn go_after_ready()
    ensures { GoAfterReady }
{}

/// Whatever commands, ticks and recoveries from power loss come in turn, the events that are accepted are a history:
/// so each law on histories holds of them.
pub fn commands_make_histories()
    ensures { CommandsMakeHistories }
{}

/// Whatever commands, ticks and recoveries from power loss come in turn: an attempt is decided only after Ready of
/// each required device and Ready or Excuse of each optional one was accepted, and after no Cancel; and after that no
/// Cancel is accepted.
pub fn commands_in_order()
    ensures { CommandsInOrder }
{}

/// A device becomes Ready in an attempt only by its own answer that it stands by in that attempt.
pub fn ready_only_by_answer()
    ensures { ReadyOnlyByAnswer }
{}

/// No device is ever asked to both go and cancel in one attempt: if some state of a history has the one pending,
/// none has the other.
pub fn never_asked_both()
    ensures { NeverAskedBoth }
{}

/// A device that is done with in an attempt, since it has answered for the last time or was excused, is asked nothing
/// more in it.
pub fn nothing_more_is_asked()
    ensures { NothingMoreIsAsked }
{}

/// At most one live attempt holds a device.
pub fn one_holder()
    ensures { OneHolder }
{}

/// A decided attempt never becomes another: it is Decided for as long as it is live.
pub fn decided_stays()
    ensures { DecidedStays }
{}

/// Each device of each live attempt is in one of the ten situations that the tables of answers and of release go
/// through: they leave none out.
pub fn each_has_a_situation()
    ensures { EachHasASituation }
{}

/// A device's answer leaves every other attempt, the show, the place and the last number as they were.
pub fn answers_leave_others()
    ensures { AnswersLeaveOthers }
{}

/// Two answers to one attempt by different devices, each of which would be carried out in the same state, give the
/// same state in either order.
pub fn answers_commute()
    ensures { AnswersCommute }
{}

/// Closing twice is closing once: a state whose undecided attempts were cancelled has none left.
pub fn closed_stays()
    ensures { ClosedStays }
{}

/// The state that a history leads to is that of its events in turn.
pub fn histories_fold()
    ensures { HistoriesFold }
{}

/// Events that are acceptable in turn from the empty state are a history: so each law on histories holds of them.
pub fn acceptable_are_histories()
    ensures { AcceptableAreHistories }
{}

/// Events that are acceptable in turn keep the rules of a state.
pub fn events_keep_rules()
    ensures { EventsKeepRules }
{}

/// An attempt that is live after events was live before, or its Start is one of them.
pub fn live_by_start()
    ensures { LiveByStart }
{}

/// An attempt that is Decided after events was Decided before, or its Go is one of them.
pub fn decided_by_go()
    ensures { DecidedByGo }
{}

/// The events of commands that are judged in turn are acceptable in turn: a datagram makes one batch.
pub fn steps_are_acceptable()
    ensures { StepsAreAcceptable }
{}

/// Of commands that are judged in turn the later ones are judged on the state that the events of the earlier ones
/// lead to.
pub fn steps_go_on()
    ensures { StepsGoOn }
{}

/// Commands that come together carry the history on by the events that they make in turn: so each law on commands,
/// ticks and recoveries holds of datagrams of many commands.
pub fn steps_make_histories()
    ensures { StepsMakeHistories }
{}

/// The limit, as a number: a device has 10 seconds to stand by.
pub fn limits()
    ensures { STANDBY_MS ≡ 10000 }
{}
