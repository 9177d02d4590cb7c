//! The columns of the table of attempts: a row for each of them, for a spreadsheet and for the page.
ghost use Rattle.std.specs.Prelude.{◌≡◌, [], IfNone, IfOk, length, string_bytes};
ghost use Rattle.cue_report.specs.Cells.{Says};
ghost use Rattle.cue_report.specs.Drawing.{IsRow};
ghost use Rattle.cue_report.specs.Names.{name_of};
ghost use Rattle.cue_report.specs.Telling.{after_words};

use crate::attempt::{Attempt, Ended, Moment};
use crate::sentences::{Told, Words, courses_words, end_words, ending_words};
use cue_log_lines::Span;
use std::alloc::{AllocError, Global};

/// What a column says of an attempt.
#[derive(Clone, Copy, PartialEq, Eq)]
pub enum Column {
    Cue,
    Name,
    Begun,
    BegunBy,
    Given,
    GivenBy,
    GivenUp,
    GivenUpBy,
    Ended,
    How,
    /// How many seconds after the standby it ended.
    After,
    Why,
    /// How it ended and why, and which devices failed or were missing.
    End,
    Devices,
}

/// The columns of the table for a spreadsheet, after the number of the attempt, and what stands over them.
pub const TABLE: [(Column, &str); 13] = [
    (Column::Cue, "cue"),
    (Column::Name, "name"),
    (Column::Begun, "stood by"),
    (Column::BegunBy, "by"),
    (Column::Given, "given"),
    (Column::GivenBy, "by"),
    (Column::GivenUp, "given up"),
    (Column::GivenUpBy, "by"),
    (Column::Ended, "ended"),
    (Column::How, "how"),
    (Column::After, "seconds after standby"),
    (Column::Why, "why"),
    (Column::Devices, "devices"),
];

/// Those of the page.
pub const PAGE: [(Column, &str); 7] = [
    (Column::Cue, "cue"),
    (Column::Name, "name"),
    (Column::Begun, "standby"),
    (Column::Given, "GO"),
    (Column::GivenBy, "by"),
    (Column::End, "how it ended"),
    (Column::Devices, "devices"),
];

// The time of day at which something was done; empty if it was not.
fn clock(told: Told<'_>, moment: Option<Moment>) -> Words
    ensures { IfOk result (λ text. IfNone moment (string_bytes text ≡ [])) }
{
    match moment {
        Some(moment) => told.moment(moment.at),
        None => Ok(String::new(told.alloc)),
    }
}

// The time of day at which an attempt ended; empty if the log does not have its end.
fn end_clock(told: Told<'_>, ended: Option<Ended>) -> Words
    ensures { IfOk result (λ text. IfNone ended (string_bytes text ≡ [])) }
{
    match ended {
        Some(ended) => told.moment(ended.at),
        None => Ok(String::new(told.alloc)),
    }
}

// Who asked for it; empty if it was not done.
fn asker(told: Told<'_>, moment: Option<Moment>) -> Words
    ensures { IfOk result (λ text. IfNone moment (string_bytes text ≡ [])) }
{
    match moment {
        Some(moment) => told.who(moment.by),
        None => Ok(String::new(told.alloc)),
    }
}

// The number of a cue; empty if the log does not say which it was.
fn cue(told: Told<'_>, attempt: &Attempt) -> Words {
    match attempt.cue {
        Some(cue) => format!(in told.alloc; "{}", cue.text().escape_ascii()),
        None => Ok(String::new(told.alloc)),
    }
}

// Its name; empty if it has none.
fn name(told: Told<'_>, attempt: &Attempt) -> Words
    ensures { IfOk result (λ text. string_bytes text ≡ name_of told.entry.names.now attempt.now.cue) }
{
    match attempt.cue {
        Some(cue) => String::from_str(told.alloc, told.names.cue_name(&cue)),
        None => Ok(String::new(told.alloc)),
    }
}

// How many seconds after its standby it ended; empty if the log does not say it.
fn after(alloc: Global, span: Option<Span>) -> Words
    ensures { IfOk result (λ text. string_bytes text ≡ after_words span) }
{
    match span {
        Some(span) => format!(in alloc; "{}.{}", span.seconds, span.tenths),
        None => Ok(String::new(alloc)),
    }
}

// What its devices did.
fn devices(told: Told<'_>, attempt: &Attempt) -> Words {
    let mut text = String::new(told.alloc);
    for said in &courses_words(told, attempt)? {
        if !text.is_empty() {
            text.push_str("; ")?;
        }
        text.push_str(said.as_str())?;
    }
    Ok(text)
}

// What a column says of an attempt; empty if there is nothing to say.
fn cell_of(told: Told<'_>, attempt: &Attempt, column: Column) -> Words
    ensures { IfOk result (λ text. Says told.entry.names.now attempt.now column (string_bytes text)) }
{
    match column {
        Column::Cue => cue(told, attempt),
        Column::Name => name(told, attempt),
        Column::Begun => clock(told, attempt.begun),
        Column::BegunBy => asker(told, attempt.begun),
        Column::Given => clock(told, attempt.given),
        Column::GivenBy => asker(told, attempt.given),
        Column::GivenUp => clock(told, attempt.given_up),
        Column::GivenUpBy => asker(told, attempt.given_up),
        Column::Ended => end_clock(told, attempt.ended),
        Column::How => String::from_str(told.alloc, ending_words(attempt.ended)),
        Column::After => after(told.alloc, attempt.after),
        Column::Why => attempt.why.clone(),
        Column::End => end_words(told, attempt),
        Column::Devices => devices(told, attempt),
    }
}

/// The row of an attempt: its number, and a cell for each of the columns.
pub fn row_of(
    told: Told<'_>,
    attempt: &Attempt,
    columns: &[(Column, &str)],
) -> Result<Vec<String>, AllocError>
    ensures { IfOk result (λ row. IsRow attempt.now.number (length columns.now) row.items) }
{
    let mut row = Vec::new(told.alloc);
    row.push(format!(in told.alloc; "{}", attempt.number)?)?;
    for (column, _) in columns {
        row.push(cell_of(told, attempt, *column)?)?;
    }
    Ok(row)
}
