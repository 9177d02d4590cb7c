//! What the desk knows of the store, of the controller at its port and of the relay, once something more was heard.
ghost use Rattle.std.specs.Prelude.{◌≡◌, IfOk, Option, map};
ghost use Rattle.cue_station.specs.declared.memory.Reading.{Reading};
ghost use Rattle.cue_station.specs.declared.memory.Relayed.{Relayed};
ghost use Rattle.cue_station.specs.declared.heard.Heard.TheVariants as heard;
ghost use Rattle.cue_station.specs.Looking as looking;
ghost use Rattle.cue_station.specs.Network as network;
ghost use Rattle.cue_station.specs.Reading as store;
ghost use Rattle.cue_station.specs.Seeing as seeing;

use crate::heard::{Copied, Heard};
use crate::memory::{Answered, Question, Reading, Relayed, Seen};
use crate::remembering::stamped_with;
use crate::showing::{given_in, since_in};
use cue_desk::orders::DeskCommand;
use cue_desk::replying::{Replied, Status};
use cue_exchange::Attempt;
use cue_relay::status as relay;
use std::alloc::{AllocError, Global};
use std::mem;

// ---- the store and the relay

/// What was known before something was heard, to be put back if memory runs out.
#[derive(Drop)]
pub enum Before {
    /// It is known still.
    Same,
    /// Another copy.
    Reading(Option<Reading>),
    /// The same copy, for this moment.
    Moment(u64),
    /// Something else of the relay.
    Relay(Option<Relayed>),
}

/// Whether a copy came that is the newest now.
pub(crate) fn is_copy(before: &Before) -> bool {
    matches!(before, Before::Reading(_))
}

// Whether a copy that was begun at the moment is as new as the one that is known.
fn is_newer(begun: u64, reading: &Option<Reading>) -> bool
    ensures { result ≡ looking.is_newer begun reading.now }
{
    match reading {
        Some(reading) => reading.at <= begun,
        None => true,
    }
}

// Keeps the copy, if it is as new as the one that is known.
fn keep_copy(reading: &mut Option<Reading>, copy: Copied) -> Before
    ensures kept { reading.new ≡ store.newer copy reading.old }
    ensures before { looking.before_reading result reading.new ≡ reading.old }
    ensures relay { (x : Option Relayed) → looking.before_relay result x ≡ x }
{
    let at = copy.begun;
    if is_newer(at, reading) {
        Before::Reading(mem::replace(reading, Some(Reading { at, copy })))
    } else {
        Before::Same
    }
}

// The copy that is known stands for this moment, too.
fn renew(reading: &mut Option<Reading>, begun: u64) -> Before
    ensures kept { reading.new ≡ store.renewed begun reading.old }
    ensures before { looking.before_reading result reading.new ≡ reading.old }
    ensures relay { (x : Option Relayed) → looking.before_relay result x ≡ x }
{
    match reading {
        Some(reading) => {
            let at = reading.at;
            reading.at = at.max(begun);
            Before::Moment(at)
        }
        None => Before::Same,
    }
}

// Keeps what the relay has written. What cannot be read is nothing new.
fn keep_relay(relay: &mut Option<Relayed>, at: u64, status: Option<relay::Status>) -> Before
    ensures kept { relay.new ≡ network.relayed_with (heard.Relay status) at relay.old }
    ensures before { looking.before_relay result relay.new ≡ relay.old }
    ensures reading { (x : Option Reading) → looking.before_reading result x ≡ x }
{
    match status {
        Some(status) => {
            let since = stamped_with(&status, at, relay);
            let new = Relayed {
                status: Some(status),
                since,
            };
            Before::Relay(mem::replace(relay, Some(new)))
        }
        None => keep_unread(relay, at),
    }
}

// The relay cannot be read.
fn keep_unread(relay: &mut Option<Relayed>, at: u64) -> Before
    ensures kept { relay.new ≡ network.relayed_with (heard.Relay None) at relay.old }
    ensures before { looking.before_relay result relay.new ≡ relay.old }
    ensures reading { (x : Option Reading) → looking.before_reading result x ≡ x }
{
    if relay.is_some() {
        return Before::Same;
    }
    let new = Relayed {
        status: None,
        since: at,
    };
    Before::Relay(mem::replace(relay, Some(new)))
}

/// Takes in what was heard of the store and of the relay: what is heard beside it, and what was known before.
pub(crate) fn take_in(
    reading: &mut Option<Reading>,
    relay: &mut Option<Relayed>,
    at: u64,
    heard: Heard,
) -> (Heard, Before)
    ensures reading { reading.new ≡ store.read_with heard reading.old }
    ensures relay { relay.new ≡ network.relayed_with heard at relay.old }
    ensures heard { result.0 ≡ looking.hollow heard }
    ensures before { looking.before_reading result.1 reading.new ≡ reading.old }
    ensures before_relay { looking.before_relay result.1 relay.new ≡ relay.old }
{
    match heard {
        Heard::Copied(copy) => {
            let begun = copy.begun;
            (Heard::Same(begun), keep_copy(reading, copy))
        }
        Heard::Same(begun) => (Heard::Same(begun), renew(reading, begun)),
        Heard::Relay(status) => (Heard::Relay(None), keep_relay(relay, at, status)),
        Heard::Unread(why) => (Heard::Unread(why), Before::Same),
        Heard::Replied(ask, replied) => (Heard::Replied(ask, replied), Before::Same),
        Heard::Nobody(ask) => (Heard::Nobody(ask), Before::Same),
        Heard::Pressed(view, button) => (Heard::Pressed(view, button), Before::Same),
        Heard::Kept(kept) => (Heard::Kept(kept), Before::Same),
        Heard::Tick => (Heard::Tick, Before::Same),
    }
}

/// Puts back what was known before.
pub(crate) fn put_back(reading: &mut Option<Reading>, relay: &mut Option<Relayed>, before: Before)
    ensures reading { reading.new ≡ looking.before_reading before reading.old }
    ensures relay { relay.new ≡ looking.before_relay before relay.old }
{
    match before {
        Before::Same => {}
        Before::Reading(old) => *reading = old,
        Before::Moment(at) => {
            if let Some(reading) = reading {
                reading.at = at;
            }
        }
        Before::Relay(old) => *relay = old,
    }
}

// ---- the controller

// When the newest question was sent, if this is its ask.
fn asked_at(ask: u64, question: Option<Question>) -> Option<u64>
    ensures { result ≡ seeing.asked_at ask question }
{
    match question {
        Some(question) => if question.ask == ask {
            Some(question.at)
        } else {
            None
        },
        None => None,
    }
}

// The status that came to the ask, if that is the newest question.
fn answered_by(
    ask: u64,
    question: Option<Question>,
    came: u64,
    status: Status,
    old: Option<Answered>,
) -> Option<Answered>
    ensures { result ≡ store.answered_by ask question came status old }
{
    match asked_at(ask, question) {
        Some(asked) => Some(Answered {
            asked,
            came,
            status,
        }),
        None => old,
    }
}

// What is known once nobody listens where the ask went.
fn forgotten(ask: u64, question: Option<Question>, old: Option<Answered>) -> Option<Answered>
    ensures { result ≡ store.forgotten ask question old }
{
    match asked_at(ask, question) {
        Some(_) => None,
        None => old,
    }
}

/// The status that came last, once this was heard.
pub(crate) fn answered_with(
    old: Option<Answered>,
    question: Option<Question>,
    at: u64,
    heard: &Heard,
) -> Option<Answered>
    ensures { result ≡ store.answered_with heard.now at question old }
{
    match heard {
        Heard::Replied(ask, Replied::Status(status)) => {
            answered_by(*ask, question, at, *status, old)
        }
        Heard::Nobody(ask) => forgotten(*ask, question, old),
        Heard::Replied(_, Replied::Reply { .. }) | Heard::Copied(_) | Heard::Same(_) => old,
        Heard::Unread(_) | Heard::Pressed(_, _) | Heard::Relay(_) => old,
        Heard::Kept(_) | Heard::Tick => old,
    }
}

/// The newest question for the status, once a message was sent.
pub(crate) fn question_with(
    old: Option<Question>,
    ask: u64,
    order: DeskCommand,
    at: u64,
) -> Option<Question>
    ensures { result ≡ store.question_with (Some (record { ask = ask; order = order })) at old }
{
    match order {
        DeskCommand::Status => Some(Question { ask, at }),
        DeskCommand::OfCue(_, _) | DeskCommand::Release(_) | DeskCommand::RemoveDevice(_) => old,
    }
}

// ---- the live attempts

// Since when the attempt is seen to be given.
fn given_now(seen: &[Seen], attempt: &Attempt, at: u64) -> Option<u64>
    ensures { result ≡ seeing.given_now seen.now at attempt.now }
{
    if attempt.stage.is_decided() {
        Some(given_in(seen, attempt.seq).unwrap_or(at))
    } else {
        None
    }
}

// The attempt, and since when it is seen.
fn seen_now(seen: &[Seen], attempt: &Attempt, at: u64) -> Seen
    ensures { result ≡ seeing.seen_now seen.now at attempt.now }
{
    Seen {
        seq: attempt.seq,
        since: since_in(seen, attempt.seq).unwrap_or(at),
        given: given_now(seen, attempt, at),
    }
}

// The attempts that are live, each with the moment since which it is seen.
fn seen_of(alloc: Global, seen: &[Seen], live: &[Attempt], at: u64) -> Result<Vec<Seen>, AllocError>
    ensures { IfOk result (λ v. v.items ≡ map (seeing.seen_now seen.now at) live.now) }
{
    live.iter().map(|a| seen_now(seen, a, at)).collect(alloc)
}

/// The attempts that are live in the newest copy, each with the moment since which it is seen.
pub(crate) fn seen_after(
    alloc: Global,
    seen: &[Seen],
    at: u64,
    reading: &Option<Reading>,
) -> Result<Vec<Seen>, AllocError>
    ensures { IfOk result (λ v. v.items ≡ seeing.seen_after seen.now at reading.now) }
{
    match reading {
        Some(reading) => seen_of(alloc, seen, reading.copy.state.live().as_slice(), at),
        None => Ok(Vec::new(alloc)),
    }
}
