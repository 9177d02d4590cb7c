//! A time of the machine's clock, as the log says it.
ghost use Rattle.std.specs.Prelude.{◌≡◌};
ghost use Rattle.cue_evening.specs.LinesOf.{span_of};

use cue_log_lines::Span;
use jiff::Timestamp;
use std::time::Clock;

/// A time of the machine's clock.
#[derive(Clone, Copy)]
pub struct Time {
    /// To the second, in UTC.
    pub date: Timestamp,
    /// In milliseconds since 1970.
    pub millis: u64,
}

impl Time {
    /// The time now. None if the clock has none, or one after the year 9999.
    pub fn now<R: Clock>(clock: &R) -> Option<Time> {
        let since = clock.since_1970().ok()?;
        let date = Timestamp::from_second(i64::try_from(since.as_secs()).ok()?).ok()?;
        let millis = u64::try_from(since.as_millis()).ok()?;
        Some(Time { date, millis })
    }
}

/// A time of so many milliseconds, in seconds and tenths.
pub fn span_of(millis: u64) -> Span
    ensures { result ≡ span_of millis }
{
    Span {
        seconds: millis / 1000,
        tenths: millis % 1000 / 100,
    }
}
