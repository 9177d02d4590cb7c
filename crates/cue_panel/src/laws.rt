//! The laws of a panel and of a wish. Each contract is a theorem; there is nothing to run.
ghost use Rattle.std.specs.Prelude.{◌≡◌};
ghost use Rattle.cue_panel.specs.Laws.{AtMostOneEach, EachOfAMessage, StrikeIsMeant, WaitedIsCounted};
ghost use Rattle.cue_panel.specs.Laws.{TriesApart, WaitedPressesNothing};
ghost use Rattle.cue_panel.specs.WishLaws.{BecameIsSent, EachIsMeant, EndsInTime, EndsOnceSent, NothingAfter};
ghost use Rattle.cue_panel.specs.WishLaws.{SentOnce};
ghost use Rattle.cue_panel.specs.declared.dropped.TheConstants.{FLOOD_MS};
ghost use Rattle.cue_panel.specs.declared.listening.TheConstants.{AGAIN_MS};
ghost use Rattle.cue_panel.specs.declared.pending.TheConstants.{OPEN_MS};
ghost use Rattle.cue_panel.specs.declared.wish.TheConstants.{PATIENCE};

/// Whatever happens at a panel: each press comes of one message that was heard, by the hand that all before it has
/// made, and of the view that was shown then.
pub fn each_of_a_message()
    ensures { EachOfAMessage }
{}

/// No message presses twice, and nothing presses without one.
pub fn at_most_one_each()
    ensures { AtMostOneEach }
{}

/// What is pressed is what was struck: the key, and the cue that was named, by what the view that is shown means.
pub fn strike_is_meant()
    ensures { StrikeIsMeant }
{}

/// Until a reading has found nothing, nothing presses that a device gives once it is opened.
pub fn waited_presses_nothing()
    ensures { WaitedPressesNothing }
{}

/// And each press of it is counted.
pub fn waited_is_counted()
    ensures { WaitedIsCounted }
{}

/// Between two tries to open a device lies a second at least.
pub fn tries_apart()
    ensures { TriesApart }
{}

/// Whatever the turns, a wish is sent once at most.
pub fn sent_once()
    ensures { SentOnce }
{}

/// Who is told what became of a wish, may rely on that it was sent, once.
pub fn became_is_sent()
    ensures { BecameIsSent }
{}

/// Once it was sent or is over, it presses nothing.
pub fn nothing_after()
    ensures { NothingAfter }
{}

/// Whatever the turns: what it presses is what it means by the view of that turn, and is lit there.
pub fn each_is_meant()
    ensures { EachIsMeant }
{}

/// Once its time is over it is tried no more.
pub fn ends_in_time()
    ensures { EndsInTime }
{}

/// Once it was sent, it is over after three seconds more.
pub fn ends_once_sent()
    ensures { EndsOnceSent }
{}

/// A press is told as open after 500 milliseconds. That presses were too many is told once in 1,000, and a device is
/// opened and looked at once in 1,000. A wish is tried for 3,000 milliseconds, and its press waited for as long.
pub fn limits()
    ensures open { OPEN_MS ≡ 500 }
    ensures flood { FLOOD_MS ≡ 1000 }
    ensures again { AGAIN_MS ≡ 1000 }
    ensures patience { PATIENCE ≡ 3000 }
{}
