//! The live attempts and the stack, as they are shown.
ghost use Rattle.std.specs.Prelude.{◌≡◌, IfOk, find, nat_eq};
ghost use Rattle.std.specs.Map.{keys_of};
ghost use Rattle.cue_station.specs.Showing as showing;

use crate::asking::is_start_of;
use crate::heard::Copied;
use crate::memory::Seen;
use cue_core::Event;
use cue_core::limits::STANDBY_MS;
use cue_exchange::Attempt;
use cue_show::{CueNo, Show};
use cue_view::view::LiveAttempt;
use std::alloc::{AllocError, Global};

// Since when the attempt is seen.
fn seen_in(seen: &[Seen], seq: u32) -> Option<Seen>
    ensures { result ≡ find (λ s. nat_eq s.seq seq) seen.now }
{
    seen.iter().copied().find(|one| one.seq == seq)
}

// Since when the attempt is seen to be live.
pub fn since_in(seen: &[Seen], seq: u32) -> Option<u64>
    ensures { result ≡ showing.since_in seen.now seq }
{
    match seen_in(seen, seq) {
        Some(one) => Some(one.since),
        None => None,
    }
}

// Since when it is seen to be given.
pub(crate) fn given_in(seen: &[Seen], seq: u32) -> Option<u64>
    ensures { result ≡ showing.given_in seen.now seq }
{
    match seen_in(seen, seq) {
        Some(one) => one.given,
        None => None,
    }
}

/// Whether the ten seconds of the attempt are not over: by the wall's clock, nor by ours since it is seen.
pub fn is_in_time(since: Option<u64>, at: u64, wall: u64, attempt: &Attempt) -> bool
    ensures { result ≡ showing.is_in_time since at wall attempt.now }
{
    match since {
        Some(since) => wall < attempt.deadline && at.saturating_sub(since) < STANDBY_MS,
        None => false,
    }
}

// How much is left of its ten seconds, by the clock that says less.
fn left_of(since: Option<u64>, at: u64, wall: u64, attempt: &Attempt) -> u64
    ensures { result ≡ showing.left_of since at wall attempt.now }
{
    match since {
        Some(since) => {
            let by_wall = attempt.deadline.saturating_sub(wall);
            by_wall.min(STANDBY_MS.saturating_sub(at.saturating_sub(since)))
        }
        None => 0,
    }
}

// Whether a cue is given.
fn is_given(event: &Event) -> bool
    ensures { result ≡ showing.is_given event.now }
{
    match event {
        Event::Go(_) => true,
        Event::Device(_, _) | Event::NoDevice(_) | Event::Cue(_, _) => false,
        Event::NoCue(_) | Event::Place(_) | Event::Start(_, _, _) => false,
        Event::Ready(_, _) | Event::Done(_, _) | Event::Cancel(_, _) => false,
        Event::LetGo(_, _) | Event::Failed(_, _) | Event::Excuse(_, _) => false,
    }
}

// One event more: whether a cue was given since the attempt was stood by.
fn passed_by(seq: u32, event: &Event, old: bool) -> bool
    ensures { result ≡ showing.passed_by seq event.now old }
{
    if is_start_of(seq, event) {
        false
    } else {
        old || is_given(event)
    }
}

// Whether a cue was given since the attempt was stood by, as far as the events tell.
fn is_passed(seq: u32, events: &[Event]) -> bool
    ensures { result ≡ showing.is_passed seq events.now }
{
    let mut passed = false;
    for event in events {
        passed = passed_by(seq, event, passed);
    }
    passed
}

// A live attempt as it is shown.
fn shown_attempt(
    alloc: Global,
    attempt: &Attempt,
    events: &[Event],
    seen: &[Seen],
    stands: bool,
    at: u64,
    wall: u64,
) -> Result<LiveAttempt, AllocError>
    ensures { IfOk result (λ shown. shown ≡ showing.shown_attempt stands
        (showing.since_in seen.now) (showing.given_in seen.now) events.now at wall attempt.now) }
{
    let since = since_in(seen, attempt.seq);
    Ok(LiveAttempt {
        seq: attempt.seq,
        cue: attempt.cue,
        stage: attempt.stage,
        devices: attempt.answers.clone()?,
        ready: stands && attempt.can_go() && is_in_time(since, at, wall, attempt),
        left: left_of(since, at, wall, attempt),
        given: given_in(seen, attempt.seq),
        passed: attempt.stage.is_preparing() && is_passed(attempt.seq, events),
    })
}

/// The live attempts of a copy. `stands`: whether the copy is young, and is what is served.
pub fn live_of(
    alloc: Global,
    copy: &Copied,
    seen: &[Seen],
    stands: bool,
    at: u64,
    wall: u64,
) -> Result<Vec<LiveAttempt>, AllocError>
    ensures { IfOk result (λ live. live.items ≡ showing.shown_live stands
        (showing.since_in seen.now) (showing.given_in seen.now) copy.now.events.items at wall
        copy.now.state.live) }
{
    let attempts = copy.state.live().as_slice();
    let mut live = Vec::with_capacity(alloc, attempts.len())?;
    for attempt in attempts {
        live.push(shown_attempt(alloc, attempt, &copy.events, seen, stands, at, wall)?)?;
    }
    Ok(live)
}

// The numbers of the cues, in the order of the stack.
fn cues_of(alloc: Global, show: &Show) -> Result<Vec<CueNo>, AllocError>
    ensures { IfOk result (λ cues. cues.items ≡ keys_of show.now.cues) }
{
    let mut cues = Vec::new(alloc);
    for (cue, _) in show.cues() {
        cues.push(*cue)?;
    }
    Ok(cues)
}

/// The whole stack of a copy: the numbers of its cues, in order.
pub fn stack_of(alloc: Global, copy: &Copied) -> Result<Vec<CueNo>, AllocError>
    ensures { IfOk result (λ stack. stack.items ≡ showing.stack_of copy.now.state.show) }
{
    cues_of(alloc, copy.state.show())
}
