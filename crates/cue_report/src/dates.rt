//! The times of the log: seconds since 1970, and how they are written.
ghost use Rattle.std.specs.Prelude.{◌≡◌, ◌%◌, IfSome, drop};
ghost use Rattle.cue_report.specs.Dates as spec;

use jiff::Timestamp;
use std::alloc::{AllocError, Global};

/// The length of a date as the log writes it: `2026-11-24T12:13:35Z`.
pub const DATE: usize = 20;

/// How the bytes of a date stand: each `_` is any.
const SHAPE: &[u8] = b"____-__-__T__:__:__Z";

// Whether the bytes stand as those of a date do; which day it is, is not looked at.
fn has_shape(date: &[u8]) -> bool {
    let stands = |(byte, meant): (&u8, &u8)| *meant == b'_' || byte == meant;
    date.len() == SHAPE.len() && date.iter().zip(SHAPE).all(stands)
}

// The second that a date names, since 1970.
fn second_of(date: &[u8]) -> Option<u64> {
    if !has_shape(date) {
        return None;
    }
    let text = str::from_utf8(date).ok()?;
    let time = text.parse::<Timestamp>().ok()?;
    u64::try_from(time.as_second()).ok()
}

/// The second that a line begins with, since 1970, and what follows its date; none if it begins with no date.
pub fn dated(line: &[u8]) -> Option<(u64, &[u8])>
    ensures { IfSome result (λ d. d.1.now ≡ drop 21 line.now) }
{
    let (front, said) = line.split_at_checked(DATE + 1)?;
    match front {
        [date @ .., b' '] => Some((second_of(date)?, said)),
        _ => None,
    }
}

/// The date of a second as the log writes it; empty after the year 9999.
pub fn date_of(alloc: Global, at: u64) -> Result<String, AllocError> {
    let second = i64::try_from(at).unwrap_or(i64::MAX);
    match Timestamp::from_second(second) {
        Ok(time) => format!(in alloc; "{time}"),
        Err(_) => Ok(String::new(alloc)),
    }
}

// A piece of the date of a second, in UTC.
fn piece_of(alloc: Global, at: u64, from: usize, to: usize) -> Result<String, AllocError> {
    let date = date_of(alloc, at)?;
    let piece = date.as_bytes().get(from..to).unwrap_or(b"?");
    String::from_str(alloc, str::from_utf8(piece).unwrap_or("?"))
}

/// How many seconds a day has.
pub const DAY: u64 = 86_400;

// The day of the week of a day, counted from the first one of 1970, which was a Thursday.
fn weekday(day: u64) -> &'static str
    ensures { result.now ≡ spec.weekday (day % 7) }
{
    match day % 7 {
        0 => "Thursday",
        1 => "Friday",
        2 => "Saturday",
        3 => "Sunday",
        4 => "Monday",
        5 => "Tuesday",
        _ => "Wednesday",
    }
}

/// How times are shown: how many seconds a clock on the wall is ahead of UTC, and the first second, whose day is not
/// said again.
#[derive(Clone, Copy)]
pub struct Times {
    pub ahead: i64,
    pub first: u64,
}

impl Times {
    /// What the clock on the wall shows at a second, in seconds since 1970.
    pub fn shown(self, at: u64) -> u64
        ensures { result ≡ spec.shown_at self.ahead at }
    {
        at.saturating_add_signed(self.ahead)
    }

    /// The day of a second, as `Tuesday 2026-11-24`.
    pub fn date(self, alloc: Global, at: u64) -> Result<String, AllocError> {
        let day = piece_of(alloc, self.shown(at), 0, 10)?;
        format!(in alloc; "{} {}", weekday(self.shown(at) / DAY), day.as_str())
    }

    /// The time of day of a second, and before it the day if that is not the one of the first.
    pub fn moment(self, alloc: Global, at: u64) -> Result<String, AllocError> {
        let clock = piece_of(alloc, self.shown(at), 11, 19)?;
        if self.shown(at) / DAY == self.shown(self.first) / DAY {
            return Ok(clock);
        }
        let day = piece_of(alloc, self.shown(at), 0, 10)?;
        format!(in alloc; "{} {}", day.as_str(), clock.as_str())
    }

    /// How the times are meant: `UTC`, or `UTC+01:00`.
    pub fn zone(self, alloc: Global) -> Result<String, AllocError> {
        let minutes = self.ahead.unsigned_abs() / 60;
        if minutes == 0 {
            return String::from_str(alloc, "UTC");
        }
        let sign = if self.ahead < 0 { '-' } else { '+' };
        format!(in alloc; "UTC{sign}{:02}:{:02}", minutes / 60, minutes % 60)
    }
}

/// The second of the day that a clock shows which is so many seconds ahead of UTC, at a second since 1970.
pub fn clock_at(ahead: i64, at: u64) -> u64
    ensures { result ≡ spec.clock_at ahead at }
{
    at.saturating_add_signed(ahead) % DAY
}

/// When something was printed: `2026-11-24, 12:13 UTC`.
pub fn printed_words(alloc: Global, at: u64) -> Result<String, AllocError> {
    let (day, time) = (piece_of(alloc, at, 0, 10)?, piece_of(alloc, at, 11, 16)?);
    format!(in alloc; "{}, {} UTC", day.as_str(), time.as_str())
}
