//! Which attempt GO and CANCEL are for.
ghost use Rattle.std.specs.Prelude.{◌≡◌, if◌then◌else◌};
ghost use Rattle.cue_station.specs.Alarms as alarms;
ghost use Rattle.cue_station.specs.Choosing as choosing;
ghost use Rattle.std.specs.Option.{option_copied};
ghost use Rattle.cue_station.specs.declared.memory.Choice.TheVariants as choice;

use crate::heard::Heard;
use crate::limits::KEPT_SEEN;
use crate::memory::{Acknowledged, Choice, Reading, Shown};
use crate::offering::is_offered;
use cue_desk::orders::DeskCommand;
use cue_desk::replying::Replied;
use cue_exchange::Attempt;
use cue_operator::CueVerb;
use cue_show::CueNo;
use cue_view::button::Button;

/// Whether what will come of a STANDBY of ours is not known yet.
pub(crate) fn is_awaited(choice: Choice) -> bool
    ensures { result ≡ choosing.is_awaited choice }
{
    matches!(choice, Choice::Awaited(_, _))
}

// Whether the reply refuses something.
fn is_refusal(replied: Replied) -> bool
    ensures { result ≡ choosing.is_refusal replied }
{
    match replied {
        Replied::Reply { refused, .. } => 0 < refused,
        Replied::Status(_) => false,
    }
}

// Whether the ask was refused, or nobody listens where it went.
fn is_refused(ask: u64, heard: &Heard) -> bool
    ensures { result ≡ choosing.is_refused ask heard.now }
{
    match heard {
        Heard::Replied(to, replied) => *to == ask && is_refusal(*replied),
        Heard::Nobody(to) => *to == ask,
        Heard::Copied(_) | Heard::Same(_) | Heard::Unread(_) => false,
        Heard::Pressed(_, _) | Heard::Relay(_) | Heard::Kept(_) | Heard::Tick => false,
    }
}

// What comes of a STANDBY: the attempt at its cue, once there is one; nothing if it no longer waits.
fn found_by(attempt: Option<&Attempt>, waits: bool, ask: u64, cue: &CueNo) -> Choice
    ensures { result ≡ choosing.found_by (option_copied attempt.entry) waits (choice.Awaited ask cue.now) }
{
    match attempt {
        Some(attempt) => Choice::Attempt(attempt.seq),
        None => if waits {
            Choice::Awaited(ask, *cue)
        } else {
            Choice::Nothing
        },
    }
}

// The same of the newest copy.
fn found_in(reading: &Option<Reading>, waits: bool, ask: u64, cue: &CueNo) -> Choice
    ensures { result ≡ choosing.found_in reading.now waits ask cue.now }
{
    match reading {
        Some(reading) => found_by(reading.copy.state.live().of_cue(*cue), waits, ask, cue),
        None => Choice::Awaited(ask, *cue),
    }
}

/// What comes of a STANDBY once something was heard: its attempt is found, or it is given up. `waits`: it is open.
pub(crate) fn awaited(
    ask: u64,
    cue: &CueNo,
    heard: &Heard,
    waits: bool,
    reading: &Option<Reading>,
) -> Choice
    ensures { result ≡ (if choosing.is_refused ask heard.now then choice.Nothing
        else choosing.found_in reading.now waits ask cue.now) }
{
    if is_refused(ask, heard) {
        Choice::Nothing
    } else {
        found_in(reading, waits, ask, cue)
    }
}

/// The choice once a button was pressed: a press chooses an attempt that a young view offered.
pub(crate) fn chosen_by_press(choice: Choice, heard: &Heard, at: u64, views: &[Shown]) -> Choice
    ensures { result ≡ choosing.chosen_by_press heard.now at views.now choice }
{
    match heard {
        Heard::Pressed(view, Button::Choose(seq)) => if is_offered(
            views,
            *view,
            at,
            Button::Choose(*seq),
        ) {
            Choice::Attempt(*seq)
        } else {
            choice
        },
        _ => choice,
    }
}

// The choice once a message of a cue was sent.
fn chosen_by_verb(choice: Choice, verb: CueVerb, ask: u64, cue: CueNo) -> Choice
    ensures { result ≡ choosing.chosen_by_verb verb ask cue choice }
{
    match verb {
        CueVerb::Go => Choice::Nothing,
        CueVerb::Standby => Choice::Awaited(ask, cue),
        CueVerb::Cancel | CueVerb::Goto | CueVerb::Remove => choice,
    }
}

/// The choice once a message was sent: nothing after a go; after a standby what comes of it.
pub(crate) fn chosen_by_order(choice: Choice, order: DeskCommand, ask: u64) -> Choice
    ensures { result ≡ choosing.chosen_by_order order ask choice }
{
    match order {
        DeskCommand::OfCue(verb, cue) => chosen_by_verb(choice, verb, ask, cue),
        DeskCommand::Status | DeskCommand::Release(_) | DeskCommand::RemoveDevice(_) => choice,
    }
}

/// The attempt that is chosen.
pub(crate) fn chosen_number(choice: Choice) -> Option<u32>
    ensures { result ≡ choosing.chosen_number choice }
{
    match choice {
        Choice::Attempt(seq) => Some(seq),
        Choice::Nothing | Choice::Awaited(_, _) => None,
    }
}

// The attempts that were seen, with this one.
fn with_seen(seq: u32, acknowledged: Acknowledged) -> Acknowledged
    ensures { result ≡ alarms.with_seen seq acknowledged }
{
    let mut after = acknowledged;
    after[seq as usize % KEPT_SEEN] = seq;
    after
}

// The attempts that were seen, with each of these in order.
fn with_each(seen: &[u32], acknowledged: Acknowledged) -> Acknowledged
    ensures { result ≡ alarms.with_each seen.now acknowledged }
{
    let mut after = acknowledged;
    for seq in seen {
        after[*seq as usize % KEPT_SEEN] = *seq;
    }
    after
}

/// The attempts that were seen, once something was heard: by a press here, or elsewhere.
pub(crate) fn acknowledged_by(
    acknowledged: Acknowledged,
    heard: &Heard,
    at: u64,
    views: &[Shown],
) -> Acknowledged
    ensures { result ≡ alarms.acknowledged_by heard.now at views.now acknowledged }
{
    match heard {
        Heard::Pressed(view, Button::Seen(seq)) => if is_offered(
            views,
            *view,
            at,
            Button::Seen(*seq),
        ) {
            with_seen(*seq, acknowledged)
        } else {
            acknowledged
        },
        Heard::Kept(kept) => with_each(&kept.seen, acknowledged),
        _ => acknowledged,
    }
}
