//! The lines of what the log counts: refusals that it did not tell, and the time for which nothing was taken.
ghost use Rattle.std.specs.Prelude.{◌≡◌, ◌++◌, IfOk, OnOk, MatchOption, string_bytes, codes};
ghost use Rattle.cue_log_lines.specs.Lines.{count_text, write};
ghost use Rattle.cue_log_lines.specs.declared.line.Line.TheVariants.{Kinds};
ghost use Rattle.cue_evening.specs.LinesOf as lines;

use crate::refusals::Counted;
use crate::time::span_of;
use cue_log_lines::{Count, Line, put_count, put_line};
use std::alloc::{AllocError, Global};

// How often something was counted up to this moment, and in which time.
fn count_of(counted: &Counted, now: u64) -> Count
    ensures { result ≡ lines.count_of counted.now now }
{
    Count {
        times: counted.times,
        span: span_of(now.saturating_sub(counted.since)),
    }
}

/// The line of refusals that were counted: the one that each would have had, and how many there were.
pub fn counted_line(alloc: Global, counted: &Counted, now: u64) -> Result<Vec<u8>, AllocError>
    ensures { IfOk result (λ out. MatchOption counted.now.line (out.items ≡ write (Kinds (lines.count_of counted.now now)))
        (λ line. out.items ≡ string_bytes line ++ count_text (lines.count_of counted.now now))) }
{
    let mut out = Vec::new(alloc);
    let count = count_of(counted, now);
    match &counted.line {
        Some(line) => {
            out.extend_from_slice(line.as_bytes())?;
            put_count(&mut out, count)?;
        }
        None => put_line(&mut out, &Line::Kinds(count))?,
    }
    Ok(out)
}

/// The line of a time, in milliseconds, in which nothing was taken.
pub fn held_line<'a>(millis: u64) -> Line<'a>
    ensures { result ≡ lines.held_line millis }
{
    Line::HeldUp(span_of(millis))
}
