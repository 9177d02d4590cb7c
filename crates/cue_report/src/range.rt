//! Which part of an evening is told.
ghost use Rattle.std.specs.Prelude.{◌≡◌};
ghost use Rattle.cue_report.specs.Range as spec;

use crate::dates::{DAY, clock_at};

/// A part of a day, in seconds of the day: both ends are in it. One that ends before it begins goes on past midnight.
#[derive(Clone, Copy, PartialEq, Eq, Debug)]
pub struct Hours {
    pub from: u64,
    pub to: u64,
}

impl Hours {
    /// The whole day.
    pub const ALL: Hours = Hours {
        from: 0,
        to: DAY - 1,
    };

    /// Whether a second of the day is in it.
    pub fn has(self, second: u64) -> bool
        ensures { result ≡ spec.is_within self second }
    {
        if self.from <= self.to {
            self.from <= second && second <= self.to
        } else {
            self.from <= second || second <= self.to
        }
    }
}

/// A part of an evening, in seconds since 1970: both ends are in it. Where one is not there, it goes as far as the log.
#[derive(Clone, Copy, PartialEq, Eq, Debug)]
pub struct Moments {
    pub from: Option<u64>,
    pub to: Option<u64>,
}

// Whether a second is this one or comes after it.
fn is_from(from: Option<u64>, at: u64) -> bool
    ensures { result ≡ spec.is_from from at }
{
    match from {
        Some(from) => from <= at,
        None => true,
    }
}

// Whether a second is this one or comes before it.
fn is_up_to(to: Option<u64>, at: u64) -> bool
    ensures { result ≡ spec.is_up_to to at }
{
    match to {
        Some(to) => at <= to,
        None => true,
    }
}

/// Which part of an evening is told.
#[derive(Clone, Copy, PartialEq, Eq, Debug)]
pub enum Range {
    /// Hours of each of its days, by the clock on the wall.
    OfDay(Hours),
    /// From one moment to another, whatever days they are of.
    Between(Moments),
}

impl Range {
    /// The whole evening.
    pub const ALL: Range = Range::OfDay(Hours::ALL);

    /// Whether a second since 1970 is in it, where the clock on the wall is so many seconds ahead of UTC.
    pub fn has(self, ahead: i64, at: u64) -> bool
        ensures { result ≡ spec.has self ahead at }
    {
        match self {
            Range::OfDay(hours) => hours.has(clock_at(ahead, at)),
            Range::Between(moments) => is_from(moments.from, at) && is_up_to(moments.to, at),
        }
    }
}
