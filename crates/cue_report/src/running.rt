//! How long the show ran: by the marks of the curtain, else from the first GO to the last end of what was given.
ghost use Rattle.std.specs.Prelude.{◌≡◌, ◌++◌, IfOk, None, OnOk};
ghost use Rattle.cue_report.specs.Running as spec;

use crate::attempt::Attempt;
use crate::marks::{Curtain, Mark};
use std::alloc::{AllocError, Global};

/// A stretch of an evening: from when to when, in seconds since 1970.
#[derive(Clone, Copy)]
pub struct Stretch {
    pub from: u64,
    pub to: u64,
}

impl Stretch {
    /// How many seconds it took; 0 if the clock was put back.
    pub fn seconds(self) -> u64
        ensures { result ≡ spec.seconds self }
    {
        self.to.saturating_sub(self.from)
    }
}

/// Whether it was played, or there was an interval.
#[derive(Clone, Copy)]
pub enum Act {
    Played(Stretch),
    Interval(Stretch),
}

// What lies between two marks; nothing between two falls of the curtain.
fn act_between(mark: Mark, next: Mark) -> Option<Act>
    ensures { result ≡ spec.act_between mark next }
{
    let stretch = Stretch {
        from: mark.at,
        to: next.at,
    };
    match (mark.curtain, next.curtain) {
        (Curtain::Up, _) => Some(Act::Played(stretch)),
        (Curtain::Down, Curtain::Up) => Some(Act::Interval(stretch)),
        (Curtain::Down, Curtain::Down) => None,
    }
}

// Puts what lies between the last mark, if there is one, and the next one after the others.
fn push_act(acts: &mut Vec<Act>, last: Option<Mark>, next: Mark) -> Result<(), AllocError>
    ensures { OnOk result (acts.new.items ≡ acts.old.items ++ spec.acts_up_to last next) }
{
    let Some(last) = last else {
        return Ok(());
    };
    if let Some(act) = act_between(last, next) {
        acts.push(act)?;
    }
    Ok(())
}

/// What was played, and the intervals, by the marks in their order.
pub fn acts_of(alloc: Global, marks: &[Mark]) -> Result<Vec<Act>, AllocError>
    ensures { IfOk result (λ acts. acts.items ≡ spec.acts_after None marks.now) }
{
    let mut acts = Vec::new(alloc);
    let mut last = None;
    for mark in marks {
        push_act(&mut acts, last, *mark)?;
        last = Some(*mark);
    }
    Ok(acts)
}

// The seconds of an act that were played.
fn played_in(act: Act) -> u64
    ensures { result ≡ spec.played_in act }
{
    match act {
        Act::Played(stretch) => stretch.seconds(),
        Act::Interval(_) => 0,
    }
}

/// The seconds that were played.
pub fn played_of(acts: &[Act]) -> u64
    ensures { result ≡ spec.played_of 0 acts.now }
{
    let mut played: u64 = 0;
    for act in acts {
        played = played.saturating_add(played_in(*act));
    }
    played
}

/// From the first mark to the last one; none if there are fewer than two.
pub fn whole_of(marks: &[Mark]) -> Option<Stretch>
    ensures { result ≡ spec.whole_of marks.now }
{
    match marks {
        [first, rest @ ..] => match rest.last() {
            Some(last) => Some(Stretch {
                from: first.at,
                to: last.at,
            }),
            None => None,
        },
        [] => None,
    }
}

// A run that also has this GO and this end.
fn longer(run: Option<Stretch>, from: u64, to: u64) -> Stretch
    ensures { result ≡ spec.longer run from to }
{
    match run {
        None => Stretch { from, to },
        Some(run) => Stretch {
            from: run.from.min(from),
            to: run.to.max(to),
        },
    }
}

// A run that also has an attempt, if that was given; one without an end is over when it is given.
fn with_attempt(run: Option<Stretch>, attempt: &Attempt) -> Option<Stretch>
    ensures { result ≡ spec.with_attempt run attempt.now.given attempt.now.ended }
{
    let Some(given) = attempt.given else {
        return run;
    };
    match attempt.ended {
        Some(ended) => Some(longer(run, given.at, ended.at)),
        None => Some(longer(run, given.at, given.at)),
    }
}

/// From the first GO to the last end of what was given; none if nothing was.
pub fn run_of(attempts: &[Attempt]) -> Option<Stretch>
    ensures { result ≡ spec.run_of None attempts.now }
{
    let mut run = None;
    for attempt in attempts {
        run = with_attempt(run, attempt);
    }
    run
}
