//! The two clocks of the desk: one that never goes back, and that of the wall, by which the controller counts.
ghost use Rattle.std.specs.Prelude.{◌≡◌, ◌/◌, IfSome};
ghost use Rattle.std.specs.Duration.{as_nanos};
ghost use Rattle.cue_desk_run.specs.Looks as looks;

use std::io;
use std::time::{Clock, Duration, Instant};

// Whole milliseconds; none if a number of 64 bits cannot hold them.
fn millis_of(since: Duration) -> Option<u64>
    ensures { IfSome result (λ millis. millis ≡ as_nanos since / 1_000_000) }
{
    match u64::try_from(since.as_millis()) {
        Ok(millis) => Some(millis),
        Err(_) => None,
    }
}

/// A clock that never goes back. It begins with the desk.
#[derive(Drop)]
pub struct SteadyClock {
    start: Instant,
}

impl SteadyClock {
    /// It begins now.
    pub fn new<C: Clock>(clock: &C) -> io::Result<SteadyClock> {
        Ok(SteadyClock {
            start: Instant::now(clock)?,
        })
    }

    /// Milliseconds since it began.
    pub fn now<C: Clock>(&self, clock: &C) -> io::Result<u64> {
        let since = self.start.elapsed(clock)?;
        Ok(millis_of(since).unwrap_or(u64::MAX))
    }
}

/// Milliseconds since 1970, by the clock of the wall; 0 if there is none.
pub fn wall_time<C: Clock>(clock: &C) -> u64 {
    match clock.since_1970() {
        Ok(since) => millis_of(since).unwrap_or(0),
        Err(_) => 0,
    }
}

/// Something that is done again and again, with at least so many milliseconds between.
#[derive(Clone, Copy)]
pub struct Beat {
    every: u64,
    last: Option<u64>,
}

impl Beat {
    /// It was not done yet, and is due at once.
    pub fn of(every: u64) -> Beat
        ensures { result ≡ looks.beat every }
    {
        Beat { every, last: None }
    }

    /// Whether it is due; if so, it counts as done at this moment.
    pub fn is_due(&mut self, now: u64) -> bool
        ensures due { result ≡ looks.is_beat self.old now }
        ensures done { self.new ≡ looks.beat_after self.old now }
    {
        let is_due = match self.last {
            Some(last) => now.saturating_sub(last) >= self.every,
            None => true,
        };
        if is_due {
            self.last = Some(now);
        }
        is_due
    }
}
