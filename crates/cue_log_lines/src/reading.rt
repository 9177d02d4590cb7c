//! Reads a line of the log: what it could say is found first, and is taken only if that is written by the same bytes.
ghost use Rattle.std.specs.Prelude.{◌≡◌, IfOk};
ghost use Rattle.cue_log_lines.specs.Pieces as piece;
ghost use Rattle.cue_log_lines.specs.Reading as spec;

mod attempts;
mod pieces;
mod replies;
mod spans;

use crate::line::Line;
use crate::text::Text;
use crate::writing::write;
pub(crate) use attempts::try_in;
use attempts::{read_cancel, read_end, read_go, read_standby};
pub(crate) use pieces::{after, device_in};
use pieces::{before, cut_last, number_in, short_of};
use replies::read_replied;
use spans::{count_at, span_in};
use std::alloc::{AllocError, Global};

// A start, after the word `ready`.
#[tactic(auto, unfolding(crate::specs::Reading::ready_at))]
fn read_ready(text: &[u8]) -> Option<Line<'_>>
    ensures { result ≡ spec.ready_at text.now }
{
    let (front, tail) = cut_last(b':', text)?;
    let dir = before(b" at 127.0.0.1", front)?;
    let (port, _) = number_in(tail);
    Some(Line::Ready {
        dir: Text::new(dir),
        port: short_of(port)?,
    })
}

// What `cuectl` says of itself.
#[tactic(auto, unfolding(crate::specs::Reading::own_at))]
fn read_own(text: &[u8]) -> Option<Line<'_>>
    ensures { result ≡ spec.own_at text.now }
{
    if let Some(rest) = after(b"ready, ", text) {
        return read_ready(rest);
    }
    if text == b"stopped".as_slice() {
        Some(Line::Stopped)
    } else {
        Some(Line::Own(Text::new(text)))
    }
}

// A time in which nothing was taken.
fn read_held_up(text: &[u8]) -> Option<Line<'_>>
    ensures { result ≡ spec.held_at text.now }
{
    let (span, _) = span_in(text)?;
    Some(Line::HeldUp(span))
}

// Refusals of several kinds.
fn read_kinds(text: &[u8]) -> Option<Line<'_>>
    ensures { result ≡ spec.kinds_at text.now }
{
    let (_, count) = count_at(text)?;
    Some(Line::Kinds(count))
}

// A line that is neither a reply nor of an attempt.
#[tactic(auto, unfolding(crate::specs::Reading::said_at))]
fn read_said(text: &[u8]) -> Option<Line<'_>>
    ensures { result ≡ spec.said_at text.now }
{
    if let Some(rest) = after(b"cuectl: ", text) {
        read_own(rest)
    } else if let Some(list) = after(b"recovered: ", text) {
        Some(Line::Recovered(Text::new(list)))
    } else if let Some(rest) = after(b"held up for ", text) {
        read_held_up(rest)
    } else if let Some(rest) = after(b"refused: of several kinds", text) {
        read_kinds(rest)
    } else {
        None
    }
}

// A line that is no reply.
#[tactic(auto, unfolding(crate::specs::Reading::other_at))]
fn read_other(text: &[u8]) -> Option<Line<'_>>
    ensures { result ≡ spec.other_at text.now }
{
    if let Some(rest) = after(b"STANDBY ", text) {
        read_standby(rest)
    } else if let Some(rest) = after(b"GO ", text) {
        read_go(rest)
    } else if let Some(rest) = after(b"CANCEL ", text) {
        read_cancel(rest)
    } else if let Some(rest) = after(b"END ", text) {
        read_end(rest)
    } else {
        read_said(text)
    }
}

// Whether the text begins with a digit.
fn begins_with_digit(text: &[u8]) -> bool
    ensures { result ≡ spec.begins_with_digit text.now }
{
    match text {
        [first, ..] => first.is_ascii_digit(),
        [] => false,
    }
}

// What a text could say.
#[tactic(auto, unfolding(crate::specs::Reading::guess))]
fn guess(text: &[u8]) -> Option<Line<'_>>
    ensures { result ≡ spec.guess text.now }
{
    if begins_with_digit(text) {
        read_replied(text)
    } else {
        read_other(text)
    }
}

/// What a line of the log says, without its date and its end; none if no line is written so.
#[tactic(auto, unfolding(crate::specs::Reading::read))]
pub fn read(alloc: Global, text: &[u8]) -> Result<Option<Line<'_>>, AllocError>
    ensures { IfOk result (λ line. line ≡ spec.read text.now) }
{
    let Some(line) = guess(text) else {
        return Ok(None);
    };
    let written = write(alloc, &line)?;
    if written.as_slice() == text {
        Ok(Some(line))
    } else {
        Ok(None)
    }
}
