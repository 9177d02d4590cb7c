//! The last lines of a log, as the board shows them.
ghost use Rattle.std.specs.Prelude.{◌≡◌, ◌≤◌, ◌+◌, ◌-◌, IfOk, OnOk, drop, length, take};
ghost use Rattle.std.specs.Str.{trim_start};
ghost use Rattle.cue_columns.specs.Columns.{AreFit};

use cue_columns::{COLUMNS, fitted};
use std::alloc::{AllocError, Global};

/// What stands before a line of the log, and before what follows of it on the next line of the board.
const FIRST: &str = "LOG    ";

const NEXT: &str = "       ";

/// How many lines of the board a line of the log has at most.
const ROWS: usize = 3;

/// The length of the date before the time of a line of the log, as `2026-11-24T`.
const DATE: usize = 11;

// A line of the log without its date.
fn without_date(line: &str) -> &str
    ensures rest { result.now ≡ drop (length line.now - length result.now) line.now }
    ensures date { length line.now ≤ length result.now + DATE }
{
    match line.split_at_checked(DATE) {
        Some((date, rest)) if date.ends_with('T') => rest,
        _ => line,
    }
}

// As many words of a text as fit into so many bytes, and the rest of it. A word that is longer than that is cut.
// Nothing but the spaces between the two is left out.
fn cut(text: &str, room: usize) -> (&str, &str)
    ensures first { result.0.now ≡ take (length result.0.now) text.now }
    ensures rest { result.1.now ≡ trim_start (drop (length result.0.now) text.now) }
{
    if text.len() <= room {
        return (text, "");
    }
    let (mut front, mut space) = (0, 0);
    for (at, c) in text.char_indices() {
        if at > room {
            break;
        }
        front = at;
        if c == ' ' {
            space = at;
        }
    }
    match text.split_at_checked(if space > 0 { space } else { front }) {
        Some((first, rest)) => (first, rest.trim_start()),
        None => (text, ""),
    }
}

// Puts a line of the log after the others, on as many lines of the board as it takes.
#[tactic(auto, using(cue_columns::proofs::ColumnLemmas::are_fit_push))]
fn push_wrapped(alloc: Global, lines: &mut Vec<String>, text: &str) -> Result<(), AllocError>
    requires { AreFit lines.old.items }
    ensures { OnOk result (AreFit lines.new.items) }
{
    let (mut left, mut margin) = (text, FIRST);
    for _ in 0..ROWS {
        let (first, rest) = cut(left, COLUMNS - 7);
        let line = format!(in alloc; "{margin}{first}")?;
        lines.push(fitted(alloc, line.as_str(), COLUMNS)?)?;
        if rest.is_empty() {
            break;
        }
        (left, margin) = (rest, NEXT);
    }
    Ok(())
}

/// The last lines of a log, so many at most, as the board shows them: without the date, and each on as many lines of
/// the board as it takes, three at most. So the reason is there that stands at its end.
pub fn log_lines(alloc: Global, log: &str, most: usize) -> Result<Vec<String>, AllocError>
    ensures { IfOk result (λ lines. AreFit lines.items) }
{
    let mut last = Vec::new(alloc);
    for line in log.lines() {
        last.push(line)?;
    }
    let mut lines = Vec::new(alloc);
    for line in last.iter().skip(last.len().saturating_sub(most)) {
        push_wrapped(alloc, &mut lines, without_date(line))?;
    }
    Ok(lines)
}
