//! Where the lines of the log go.
ghost use Rattle.std.specs.Prelude.{◌≡◌, [], None};
ghost use Rattle.cue_evening.specs.Looks.{held_between};
ghost use Rattle.cue_evening.specs.Time.{millis_of};

use crate::counts::{counted_line, held_line};
use crate::holding::held_up;
use crate::paper::Paper;
use crate::refusals::{Counted, Refusals};
use crate::time::Time;
use cue_log_lines::{Line, write};
use std::alloc::{AllocError, Global};
use std::io::Eprint;
use std::time::Clock;

/// Standard error, at the time of the last look. Refusals that are not told are counted here, and the line that has
/// their number stands before the next other line.
#[derive(Drop)]
pub struct Page<'a, R: Clock + Eprint> {
    rt: &'a R,
    alloc: Global,
    time: Option<Time>,
    refusals: Refusals,
}

// For how long there was no look between two times, if that is to be said.
fn held_between(before: Option<Time>, now: Option<Time>) -> Option<u64>
    ensures { result ≡ held_between (millis_of before) (millis_of now) }
{
    match (before, now) {
        (Some(before), Some(now)) => held_up(before.millis, now.millis),
        _ => None,
    }
}

impl<'a, R: Clock + Eprint> Page<'a, R> {
    /// The page at the time now.
    pub fn new(rt: &'a R, alloc: Global) -> Page<'a, R>
        ensures told { result.refusals.told.items ≡ [] }
        ensures counted { result.refusals.counted ≡ None }
    {
        Page {
            rt,
            alloc,
            time: Time::now(rt),
            refusals: Refusals::new(alloc),
        }
    }

    // Writes how many refusals were counted, if any were.
    fn tell_counted(&self, counted: Option<Counted>) {
        if let Some(counted) = counted {
            self.put(counted_line(self.alloc, &counted, self.millis()));
        }
    }

    fn put(&self, line: Result<Vec<u8>, AllocError>) {
        if let (Some(time), Ok(line)) = (self.time, line) {
            let _ = put_dated(self.rt, self.alloc, time, &line);
        }
    }
}

impl<'a, R: Clock + Eprint> Paper for Page<'a, R> {
    ghost told = { λ _. None };

    ghost time = { λ p. millis_of p.time };

    // How many refusals were counted is said, if that is due by then.
    fn turn(&mut self) -> Option<u64> {
        let before = self.time;
        self.time = Time::now(self.rt);
        let now = self.millis();
        let due = self.refusals.take_due(now);
        self.tell_counted(due);
        held_between(before, self.time)
    }

    fn millis(&self) -> u64 {
        match self.time {
            Some(time) => time.millis,
            None => 0,
        }
    }

    // With date and time. If that fails, if the clock has no time, or if there is no memory for it, there is none.
    fn write(&mut self, line: &Line<'_>) {
        let counted = self.refusals.take();
        self.tell_counted(counted);
        self.put(write(self.alloc, line));
    }

    fn refuse(&mut self, line: &Line<'_>) {
        let now = self.millis();
        if let Ok(bytes) = write(self.alloc, line) {
            if let Ok(text) = String::from_utf8_lossy(self.alloc, &bytes) {
                if let Ok(true) = self.refusals.hear(now, &text) {
                    self.write(line);
                }
            }
        }
    }

    fn lose(&mut self) {}
}

/// Writes a line after its date.
pub fn put_dated<R: Eprint>(
    rt: &R,
    alloc: Global,
    time: Time,
    line: &[u8],
) -> Result<(), AllocError> {
    let text = String::from_utf8_lossy(alloc, line)?;
    let _ = rt.eprintln(format_args!("{} {}", time.date, text.as_str()));
    Ok(())
}
