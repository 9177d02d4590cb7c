//! Where the part of an evening that is told begins and ends: at a time of the day, or at a mark of the curtain.
ghost use Rattle.std.specs.Prelude.{◌≡◌, ◌<◌, ◌^◌, None};
ghost use Rattle.cue_report.specs.Ends as spec;

use crate::dates::{DAY, clock_at};
use crate::marks::{Curtain, Mark};
use crate::range::{Hours, Moments, Range};

/// An end of what is told, as a stage manager says it.
#[derive(Clone, Copy)]
pub enum End {
    /// A minute of the day, which is told whole; if there is none, the log says how far it goes.
    Clock(Option<u16>),
    /// A mark of the curtain: where it first went up, or where it last came down.
    Mark,
}

/// Why the marks give no part of an evening.
#[derive(Clone, Copy, PartialEq, Eq, Debug)]
pub enum NoRange {
    /// What is told begins at a mark, and the curtain never went up.
    NeverUp,
    /// What is told ends at a mark, and the curtain never came down.
    NeverDown,
    /// The curtain last came down before it first went up.
    DownBeforeUp,
}

// An end of what is told: as it was said, or the moment of its mark.
#[derive(Clone, Copy)]
enum Bound {
    Clock(Option<u16>),
    Moment(u64),
}

// Whether a mark is one of a curtain that goes up.
fn is_up(mark: &Mark) -> bool
    ensures { result ≡ spec.is_up mark.now.curtain }
{
    match mark.curtain {
        Curtain::Up => true,
        Curtain::Down => false,
    }
}

// When the curtain first went up.
fn first_up(marks: &[Mark]) -> Option<u64>
    ensures { result ≡ spec.first_up marks.now }
{
    for mark in marks {
        if is_up(mark) {
            return Some(mark.at);
        }
    }
    None
}

// When the curtain last came down.
fn last_down(marks: &[Mark]) -> Option<u64>
    ensures { result ≡ spec.last_down None marks.now }
{
    let mut last = None;
    for mark in marks {
        last = if is_up(mark) { last } else { Some(mark.at) };
    }
    last
}

// An end, where the mark is that it may be at; none if it is at a mark that is not there.
fn bound_of(end: End, mark: Option<u64>) -> Option<Bound>
    ensures { result ≡ spec.bound_of end mark }
{
    match (end, mark) {
        (End::Clock(minute), _) => Some(Bound::Clock(minute)),
        (End::Mark, Some(at)) => Some(Bound::Moment(at)),
        (End::Mark, None) => None,
    }
}

// The second of the day at which a minute begins, and the one at which it ends.
fn first_second(minute: u16) -> u64
    ensures { result ≡ spec.first_second minute }
{
    u64::from(minute) * 60
}

fn last_second(minute: u16) -> u64
    ensures { result ≡ spec.last_second minute }
{
    u64::from(minute) * 60 + 59
}

// How long it is from a second of the day until a clock shows another one.
fn until(second: u64, next: u64) -> u64
    requires { next < 2 ^ 32 }
    ensures { result ≡ spec.until second next }
{
    if second <= next {
        next - second
    } else {
        (next + DAY).saturating_sub(second)
    }
}

// The last moment up to this one at which the clock shows that a minute begins.
fn begin_before(ahead: i64, at: u64, minute: Option<u16>) -> Option<u64>
    ensures { result ≡ spec.begin_before ahead at minute }
{
    match minute {
        Some(minute) => {
            Some(at.saturating_sub(until(first_second(minute), clock_at(ahead, at))))
        }
        None => None,
    }
}

// The first moment from this one on at which the clock shows that a minute ends.
fn end_after(ahead: i64, at: u64, minute: Option<u16>) -> Option<u64>
    ensures { result ≡ spec.end_after ahead at minute }
{
    match minute {
        Some(minute) => Some(at.saturating_add(until(clock_at(ahead, at), last_second(minute)))),
        None => None,
    }
}

// The second of the day at which hours begin: with a minute, if one is said, else with the day.
fn begin_of(minute: Option<u16>) -> u64
    ensures { result ≡ spec.begin_of minute }
{
    match minute {
        Some(minute) => first_second(minute),
        None => Hours::ALL.from,
    }
}

// The second of the day at which hours end.
fn end_of(minute: Option<u16>) -> u64
    ensures { result ≡ spec.end_of minute }
{
    match minute {
        Some(minute) => last_second(minute),
        None => Hours::ALL.to,
    }
}

// The hours of a day between two minutes, with both.
fn hours_of(from: Option<u16>, to: Option<u16>) -> Hours
    ensures { result ≡ spec.hours_of from to }
{
    Hours {
        from: begin_of(from),
        to: end_of(to),
    }
}

// What is told between two ends.
fn range_between(ahead: i64, from: Bound, to: Bound) -> Range
    ensures { result ≡ spec.range_between ahead from to }
{
    match (from, to) {
        (Bound::Clock(from), Bound::Clock(to)) => Range::OfDay(hours_of(from, to)),
        (Bound::Clock(from), Bound::Moment(to)) => Range::Between(Moments {
            from: begin_before(ahead, to, from),
            to: Some(to),
        }),
        (Bound::Moment(from), Bound::Clock(to)) => Range::Between(Moments {
            from: Some(from),
            to: end_after(ahead, from, to),
        }),
        (Bound::Moment(from), Bound::Moment(to)) => Range::Between(Moments {
            from: Some(from),
            to: Some(to),
        }),
    }
}

// Whether two moments stand in the wrong order.
fn are_reversed(from: Bound, to: Bound) -> bool
    ensures { result ≡ spec.are_reversed from to }
{
    match (from, to) {
        (Bound::Moment(from), Bound::Moment(to)) => to < from,
        (Bound::Clock(_), _) | (Bound::Moment(_), Bound::Clock(_)) => false,
    }
}

/// What is told from one end to the other, by the marks of the curtain in their order, where the clock on the wall is so
/// many seconds ahead of UTC.
pub fn range_of(from: End, to: End, marks: &[Mark], ahead: i64) -> Result<Range, NoRange>
    ensures { result ≡ spec.range_of from to marks.now ahead }
{
    let Some(from) = bound_of(from, first_up(marks)) else {
        return Err(NoRange::NeverUp);
    };
    let Some(to) = bound_of(to, last_down(marks)) else {
        return Err(NoRange::NeverDown);
    };
    if are_reversed(from, to) {
        return Err(NoRange::DownBeforeUp);
    }
    Ok(range_between(ahead, from, to))
}
