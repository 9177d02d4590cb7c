//! The report as a table of values that are separated by commas, a row for each attempt: for a spreadsheet. It is that of
//! RFC 4180: a row ends with carriage return and line feed, the first one has the names of the columns, each has as many
//! values, and what means something there is between quotation marks. `laws::cells_are_read_back` says what that is good
//! for.
ghost use Rattle.std.specs.Prelude.{◌≡◌, ◌++◌, ◌∷◌, ℕ, List, [], IfOk, OnOk, codes, length, string_bytes};
ghost use Rattle.std.specs.List.{flat_map};
ghost use Rattle.std.specs.Str.{encode_utf8_all};
ghost use Rattle.cue_report.specs.Csv as spec;
ghost use Rattle.cue_report.specs.Drawing.{AreDrawnBy};
ghost use Rattle.cue_report.specs.Writing.{IsTable, IsWritten, head_of};

use crate::attempt::Attempt;
use crate::columns::{Column, TABLE, row_of};
use crate::evening::Evening;
use crate::sentences::{Told, Words};
use cue_words::shown;
use std::alloc::AllocError;

// Whether a spreadsheet could take a text for something to be carried out.
fn is_formula(text: &str) -> bool
    ensures { result ≡ spec.is_formula text.now }
{
    matches!(text.as_bytes(), [b'=' | b'+' | b'-' | b'@', ..])
}

// Puts a sign of a value after a table: a quotation mark is doubled.
fn push_doubled(table: &mut String, sign: char) -> Result<(), AllocError>
    ensures { OnOk result (string_bytes table.new ≡ string_bytes table.old ++ encode_utf8_all (spec.doubled sign)) }
{
    match sign {
        '"' => table.push_str("\"\""),
        _ => table.push(sign),
    }
}

// Puts a character of a value after a table.
fn push_sign(table: &mut String, c: char) -> Result<(), AllocError>
    ensures { OnOk result (string_bytes table.new ≡ string_bytes table.old ++ encode_utf8_all (spec.sign_of c)) }
{
    push_doubled(table, shown(c))
}

// Puts the characters of a value after a table.
fn push_signs(table: &mut String, text: &str) -> Result<(), AllocError>
    ensures { OnOk result (string_bytes table.new ≡ string_bytes table.old ++ spec.signs_of text.now) }
{
    for c in text.chars() {
        push_sign(table, c)?;
    }
    Ok(())
}

// How a value begins: with a quotation mark, and with an apostrophe if a spreadsheet could carry it out.
fn opening(text: &str) -> &'static str
    ensures { result.now ≡ spec.opening text.now }
{
    if is_formula(text) { "\"'" } else { "\"" }
}

// Puts a value between quotation marks after a table.
#[tactic(auto, unfolding(crate::specs::Csv::value_of))]
fn push_value(table: &mut String, text: &str) -> Result<(), AllocError>
    ensures { OnOk result (string_bytes table.new ≡ string_bytes table.old ++ spec.value_of text.now) }
{
    table.push_str(opening(text))?;
    push_signs(table, text)?;
    table.push_str("\"")
}

// Puts values after a table, a comma before each.
fn push_more(table: &mut String, cells: &[String]) -> Result<(), AllocError>
    ensures { OnOk result (string_bytes table.new ≡ string_bytes table.old ++ spec.values_of (codes ",") cells.now) }
{
    match cells {
        [] => Ok(()),
        [first, rest @ ..] => {
            table.push_str(",")?;
            push_value(table, first.as_str())?;
            push_more(table, rest)
        }
    }
}

// Puts values after a table, with commas between them.
fn push_values(table: &mut String, cells: &[String]) -> Result<(), AllocError>
    ensures { OnOk result (string_bytes table.new ≡ string_bytes table.old ++ spec.values_of [] cells.now) }
{
    match cells {
        [] => Ok(()),
        [first, rest @ ..] => {
            push_value(table, first.as_str())?;
            push_more(table, rest)
        }
    }
}

// Puts a row after a table.
#[tactic(auto, unfolding(crate::specs::Csv::row_of))]
fn push_row(table: &mut String, cells: &[String]) -> Result<(), AllocError>
    ensures { OnOk result (string_bytes table.new ≡ string_bytes table.old ++ spec.row_of cells.now) }
{
    push_values(table, cells)?;
    table.push_str("\r\n")
}

// Puts the names of columns after a table, a comma before each.
fn push_names(table: &mut String, columns: &[(Column, &str)]) -> Result<(), AllocError>
    ensures { OnOk result (string_bytes table.new ≡
        string_bytes table.old ++ flat_map (λ column. 44 ∷ column.1.now) columns.now) }
{
    for (_, name) in columns {
        table.push_str(",")?;
        table.push_str(name)?;
    }
    Ok(())
}

// Puts the row of an attempt after a table: its number, and a value for each of the columns.
fn push_attempt(
    table: &mut String,
    told: Told<'_>,
    columns: &[(Column, &str)],
    attempt: &Attempt,
) -> Result<(), AllocError>
    ensures { OnOk result ((row : List ℕ) × (string_bytes table.new ≡ string_bytes table.old ++ row)
        × IsWritten (length columns.now) attempt.now row) }
{
    let cells = row_of(told, attempt, columns)?;
    push_row(table, &cells)?;
    Ok(())
}

// A row for each attempt, in their order.
fn push_rows(
    table: &mut String,
    told: Told<'_>,
    columns: &[(Column, &str)],
    attempts: &[Attempt],
) -> Result<(), AllocError>
    ensures { OnOk result ((rows : List ℕ) × (string_bytes table.new ≡ string_bytes table.old ++ rows)
        × AreDrawnBy (IsWritten (length columns.now)) attempts.now rows) }
{
    for attempt in attempts {
        push_attempt(table, told, columns, attempt)?;
    }
    Ok(())
}

// Puts the first row after a table: the names of its columns, that of the number first.
#[tactic(auto, unfolding(crate::specs::Writing::head_of))]
fn push_head(table: &mut String, columns: &[(Column, &str)]) -> Result<(), AllocError>
    ensures { OnOk result (string_bytes table.new ≡
        string_bytes table.old ++ head_of (flat_map (λ column. 44 ∷ column.1.now) columns.now)) }
{
    table.push_str("attempt")?;
    push_names(table, columns)?;
    table.push_str("\r\n")
}

/// The whole table: the names of its columns, and a row for each attempt.
pub fn table_of(told: Told<'_>, evening: &Evening) -> Words
    ensures { IfOk result (λ table. IsTable evening.now.attempts.list.items (string_bytes table)) }
{
    let mut table = String::new(told.alloc);
    push_head(&mut table, &TABLE)?;
    push_rows(&mut table, told, &TABLE, evening.attempts.list())?;
    Ok(table)
}
