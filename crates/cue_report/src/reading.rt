//! Reads a line of the log with its date.
ghost use Rattle.std.specs.Prelude.{◌≡◌, IfOk, IfSome, true};
ghost use Rattle.cue_report.specs.Reading.{IsEndOf, IsSaidBy, IsStart};

use crate::dates::{DATE, dated};
use cue_log_lines::Line;
use std::alloc::{AllocError, Global};

/// What a line says.
#[derive(Drop)]
pub enum Said<'a> {
    /// A line of the log.
    Line(Line<'a>),
    /// What `serve` prints when it ends by itself: it has no date.
    Ended(&'a [u8]),
}

/// What a line says, and when it was written, in seconds since 1970.
#[derive(Drop)]
pub struct Dated<'a> {
    pub at: Option<u64>,
    pub said: Said<'a>,
}

// A line that has no date: what `serve` prints when it ends by itself.
fn read_undated(line: &[u8]) -> Option<Dated<'_>>
    ensures { IfSome result (λ d. IsSaidBy line.now d.said) }
{
    if line.starts_with(b"! ".as_slice()) || line.starts_with(b"turns ".as_slice()) {
        Some(Dated {
            at: None,
            said: Said::Ended(line),
        })
    } else {
        None
    }
}

/// What a line says, without its end; none if it is no line of the log.
pub fn read(alloc: Global, line: &[u8]) -> Result<Option<Dated<'_>>, AllocError>
    ensures { IfOk result (λ read. IfSome read (λ d. IsSaidBy line.now d.said)) }
{
    let Some((at, text)) = dated(line) else {
        return Ok(read_undated(line));
    };
    match cue_log_lines::read(alloc, text)? {
        Some(said) => Ok(Some(Dated {
            at: Some(at),
            said: Said::Line(said),
        })),
        None => Ok(None),
    }
}

/// The words of a start, with the end of the date before them.
const START: &[u8] = b"Z cuectl: ready, ";

// Whether it is the line of a start.
fn is_start(alloc: Global, line: &[u8]) -> Result<bool, AllocError>
    ensures { IfOk result (λ it. it ≡ true → IsStart line.now) }
{
    match read(alloc, line)? {
        Some(
            Dated {
                said: Said::Line(Line::Ready { .. }),
                ..
            },
        ) => Ok(true),
        _ => Ok(false),
    }
}

// What could be the line of a start that stands after the front of another line, which has no end.
fn start_in(line: &[u8]) -> Option<&[u8]>
    ensures { IfSome result (λ start. IsEndOf line.now start.now) }
{
    if !line.last()?.is_ascii_digit() {
        return None;
    }
    let words = memchr::memmem::rfind(line, START)?;
    let date = words.checked_sub(DATE - 1)?;
    let (front, start) = line.split_at_checked(date)?;
    if front.is_empty() { None } else { Some(start) }
}

/// The line of a start that stands after the front of another line, which has no end; none if there is none.
pub fn start_within(alloc: Global, line: &[u8]) -> Result<Option<&[u8]>, AllocError>
    ensures end { IfOk result (λ found. IfSome found (λ start. IsEndOf line.now start.now)) }
    ensures start { IfOk result (λ found. IfSome found (λ start. IsStart start.now)) }
{
    match start_in(line) {
        Some(start) if is_start(alloc, start)? => Ok(Some(start)),
        _ => Ok(None),
    }
}
