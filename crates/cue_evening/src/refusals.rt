//! Which refusals are told and which are counted: a flood of them takes the place of nothing else in the log.
ghost use Rattle.std.specs.Prelude.{◌≡◌, ◌<◌, ◌++◌, ◌∷◌, [], None, Some, false, true, length, map, string_bytes};
ghost use Rattle.std.specs.Prelude.{if◌then◌else◌, IfOk, IfSome};
ghost use Rattle.cue_evening.specs.Refusals.{fresh, has_line, has_room, is_due, is_fresh, is_over, is_refusal, is_told, moments};
ghost use Rattle.cue_evening.specs.Refusals.{moments_after, one_more, times_after, times_of};

use cue_engine::Taken;
use std::alloc::{AllocError, Global};

/// The most refusals that are told within a second.
pub const MOST: usize = 20;

/// A second, in milliseconds.
pub const SECOND: u64 = 1_000;

/// Whether a reply is a refusal and nothing else.
pub fn is_refusal(counts: Taken) -> bool
    ensures { result ≡ is_refusal counts }
{
    counts.made == 0 && counts.known == 0 && counts.refused > 0
}

/// The line of a refusal that was told, and when, in milliseconds since 1970.
#[derive(Drop)]
pub struct Told {
    pub line: String,
    pub at: u64,
}

// Whether a second has passed since a moment, or the clock was put back before it.
fn is_over(since: u64, now: u64) -> bool
    ensures { result ≡ is_over since now }
{
    now < since || now - since >= SECOND
}

// Whether a line was told less than a second ago.
fn is_fresh(told: &Told, now: u64) -> bool
    ensures { result ≡ is_fresh now told.now }
{
    !is_over(told.at, now)
}

// Whether one of them has this line.
fn has_line(told: &[Told], line: &String) -> bool
    ensures { result ≡ has_line told.now (string_bytes line.now) }
{
    told.iter().any(|x| x.line == *line)
}

/// Refusals that were counted, and not told.
#[derive(Drop)]
pub struct Counted {
    /// How many.
    pub times: u64,
    /// When the first of them came, in milliseconds since 1970.
    pub since: u64,
    /// The line that each of them would have had; none if they are of several kinds.
    pub line: Option<String>,
}

impl Counted {
    // One refusal with this line. If there is no memory for the line, the kind is not said.
    fn first(now: u64, line: &String) -> Counted
        ensures times { result.times ≡ 1 }
        ensures since { result.since ≡ now }
        ensures line { IfSome result.line (λ it. string_bytes it ≡ string_bytes line.now) }
    {
        Counted {
            times: 1,
            since: now,
            line: line.clone().ok(),
        }
    }

    // One refusal more, with this line.
    fn add(&mut self, line: &String)
        ensures times { self.new.times ≡ one_more self.old.times }
        ensures since { self.new.since ≡ self.old.since }
        ensures kept { IfSome self.new.line (λ it. self.old.line ≡ Some it) }
        ensures line { IfSome self.new.line (λ it. string_bytes it ≡ string_bytes line.now) }
    {
        self.times = self.times.saturating_add(1);
        let is_other = match &self.line {
            Some(known) => *known != *line,
            None => true,
        };
        if is_other {
            self.line = None;
        }
    }
}

// Whether what was counted is to be said: the first of it came a second ago.
fn is_due(counted: &Option<Counted>, now: u64) -> bool
    ensures { result ≡ is_due counted.now now }
{
    match counted {
        Some(counted) => is_over(counted.since, now),
        None => false,
    }
}

/// The refusals of the last second. Those that were told are kept with their lines, and the others are counted until
/// the log says how many there were.
#[derive(Drop)]
pub struct Refusals {
    told: Vec<Told>,
    counted: Option<Counted>,
}

impl Refusals {
    /// None came.
    pub fn new(alloc: Global) -> Refusals
        ensures told { result.told.items ≡ [] }
        ensures counted { result.counted ≡ None }
    {
        Refusals {
            told: Vec::new(alloc),
            counted: None,
        }
    }

    // Forgets what was told a second ago.
    fn forget(&mut self, now: u64)
        ensures told { self.new.told.items ≡ fresh now self.old.told.items }
        ensures counted { self.new.counted ≡ self.old.counted }
    {
        self.told.retain(|x| is_fresh(x, now));
    }

    // Whether a refusal with this line is told.
    fn has_room(&self, line: &String) -> bool
        ensures { result ≡ has_room self.now.told.items (string_bytes line.now) }
    {
        !has_line(&self.told, line) && self.told.len() < MOST
    }

    // Keeps a refusal as told.
    fn keep(&mut self, now: u64, line: &String) -> Result<(), AllocError>
        ensures told { IfOk result (λ _. moments self.new.told.items ≡ moments_after true now self.old.told.items) }
        ensures counted { self.new.counted ≡ self.old.counted }
    {
        let line = line.clone()?;
        self.told.push(Told { line, at: now })?;
        Ok(())
    }

    // Counts a refusal.
    fn count(&mut self, now: u64, line: &String)
        ensures told { self.new.told ≡ self.old.told }
        ensures times { times_of self.new.counted ≡ one_more (times_of self.old.counted) }
    {
        match &mut self.counted {
            Some(counted) => counted.add(line),
            None => self.counted = Some(Counted::first(now, line)),
        }
    }

    // Tells a refusal, or counts it, if all that was told is of the last second.
    fn hear_now(&mut self, now: u64, line: &String) -> Result<bool, AllocError>
        ensures told { IfOk result (λ told. told ≡ has_room self.old.told.items (string_bytes line.now)) }
        ensures kept { IfOk result (λ told. moments self.new.told.items
            ≡ moments_after told now self.old.told.items) }
        ensures counted { IfOk result (λ told. times_of self.new.counted ≡ times_after told self.old.counted) }
    {
        if self.has_room(line) {
            self.keep(now, line)?;
            Ok(true)
        } else {
            self.count(now, line);
            Ok(false)
        }
    }

    /// Hears a refusal at a moment, by the line that it would have, and answers whether it is told. If there is no memory
    /// to keep the line, it is neither told nor counted.
    pub fn hear(&mut self, now: u64, line: &String) -> Result<bool, AllocError>
        // The first of its kind is told, and no more than twenty are within a second.
        ensures told { IfOk result (λ told. told ≡ is_told now self.old.told.items (string_bytes line.now)) }
        // What is told is known for a second, and what is not told is counted.
        ensures kept { IfOk result (λ told. moments self.new.told.items
            ≡ moments_after told now (fresh now self.old.told.items)) }
        ensures counted { IfOk result (λ told. times_of self.new.counted ≡ times_after told self.old.counted) }
    {
        self.forget(now);
        self.hear_now(now, line)
    }

    /// Takes what was counted, to be said before something else is.
    pub fn take(&mut self) -> Option<Counted>
        ensures taken { result ≡ self.old.counted }
        ensures none { self.new.counted ≡ None }
        ensures told { self.new.told ≡ self.old.told }
    {
        self.counted.take()
    }

    /// Takes what was counted, if the first of it came a second ago.
    pub fn take_due(&mut self, now: u64) -> Option<Counted>
        ensures taken { result ≡ (if is_due self.old.counted now then self.old.counted else None) }
        ensures left { self.new.counted ≡ (if is_due self.old.counted now then None else self.old.counted) }
        ensures told { self.new.told ≡ self.old.told }
    {
        if is_due(&self.counted, now) {
            self.take()
        } else {
            None
        }
    }
}
