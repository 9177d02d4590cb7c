//! The report as text of 80 columns.
#![tactic(auto, using(cue_columns::proofs::ColumnLemmas::keeps_same, cue_columns::proofs::ColumnLemmas::keeps_then))]

ghost use Rattle.std.specs.Prelude.{IfOk, OnOk};
ghost use Rattle.cue_columns.specs.Columns.{AreFit, Keeps};

use crate::attempt::Attempt;
use crate::evening::Evening;
use crate::parts::{after, before, head_of};
use crate::sentences::{Told, courses_words, end_words};
use cue_columns::{COLUMNS, GAP, Part, push_heading, push_line, push_part, push_texts};
use std::alloc::AllocError;

// Puts parts after the lines.
fn push_parts(told: Told<'_>, lines: &mut Vec<String>, parts: &[Part]) -> Result<(), AllocError>
    ensures { OnOk result (Keeps lines.old.items lines.new.items) }
{
    for part in parts {
        push_part(told.alloc, lines, part)?;
    }
    Ok(())
}

// Puts an attempt after the lines: its cue, how it ended, its times, and a line for each of its devices.
fn push_attempt(
    told: Told<'_>,
    lines: &mut Vec<String>,
    attempt: &Attempt,
) -> Result<(), AllocError>
    ensures { OnOk result (Keeps lines.old.items lines.new.items) }
{
    let alloc = told.alloc;
    let (cue, end) = (told.cue(attempt.cue)?, end_words(told, attempt)?);
    let (number, cue, end) = (attempt.number, cue.as_str(), end.as_str());
    let first = format!(in alloc; "attempt {number}, {cue}: {end}")?;
    push_line(alloc, lines, GAP, first.as_str())?;
    push_line(alloc, lines, 6, told.times(attempt)?.as_str())?;
    for said in &courses_words(told, attempt)? {
        push_line(alloc, lines, 6, said.as_str())?;
    }
    Ok(())
}

// Puts the attempts after the lines.
fn push_attempts(
    told: Told<'_>,
    lines: &mut Vec<String>,
    attempts: &[Attempt],
) -> Result<(), AllocError>
    ensures { OnOk result (Keeps lines.old.items lines.new.items) }
{
    push_heading(told.alloc, lines, "Attempts")?;
    if attempts.is_empty() {
        push_line(told.alloc, lines, GAP, "none")?;
    }
    for attempt in attempts {
        push_attempt(told, lines, attempt)?;
    }
    Ok(())
}

// Puts the head of the report after the lines.
fn push_head(told: Told<'_>, lines: &mut Vec<String>, evening: &Evening) -> Result<(), AllocError>
    ensures { OnOk result (Keeps lines.old.items lines.new.items) }
{
    let head = head_of(told, evening)?;
    push_texts(told.alloc, lines, &[("SHOW REPORT", COLUMNS)])?;
    if !head.title.is_empty() {
        push_line(told.alloc, lines, GAP, head.title.as_str())?;
    }
    push_line(told.alloc, lines, GAP, head.span.as_str())?;
    push_line(told.alloc, lines, GAP, head.totals.as_str())?;
    push_line(told.alloc, lines, GAP, head.note.as_str())?;
    Ok(())
}

/// The lines of the report. None has more than 80 columns, or a sign that a terminal obeys.
#[tactic(auto, using(cue_columns::proofs::ColumnLemmas::fit_behind_none, cue_columns::proofs::ColumnLemmas::keeps_then))]
pub fn report_lines(told: Told<'_>, evening: &Evening) -> Result<Vec<String>, AllocError>
    ensures { IfOk result (λ lines. AreFit lines.items) }
{
    let mut lines = Vec::new(told.alloc);
    push_head(told, &mut lines, evening)?;
    push_parts(told, &mut lines, &before(told, evening)?)?;
    push_attempts(told, &mut lines, evening.attempts.list())?;
    push_parts(told, &mut lines, &after(told, evening)?)?;
    Ok(lines)
}
