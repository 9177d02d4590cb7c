//! Parts of a paper: what stands under a heading, as rows of a front and what is said of it.
#![tactic(auto, using(crate::proofs::ColumnLemmas::keeps_same, crate::proofs::ColumnLemmas::keeps_then))]

ghost use Rattle.std.specs.Prelude.{◌≡◌, ◌++◌, ◌∷◌, [], OnOk};
ghost use Rattle.cue_columns.specs.Columns.{Keeps};

use crate::cells::{GAP, push_texts};
use crate::columns::COLUMNS;
use std::alloc::{AllocError, Global};

/// A row: what stands before it, as its time, and what is said.
#[derive(Drop)]
pub struct Row {
    pub front: String,
    pub said: String,
}

/// What stands under a heading.
#[derive(Drop)]
pub struct Part {
    pub heading: &'static str,
    pub rows: Vec<Row>,
}

impl Part {
    /// A heading with nothing under it.
    pub fn new(alloc: Global, heading: &'static str) -> Part
        ensures { result.rows.items ≡ [] }
    {
        Part {
            heading,
            rows: Vec::new(alloc),
        }
    }

    /// One row more.
    pub fn push(&mut self, front: String, said: String) -> Result<(), AllocError>
        ensures { OnOk result
            (self.new.rows.items ≡ self.old.rows.items ++ (record { front = front; said = said }) ∷ []) }
    {
        self.rows.push(Row { front, said })?;
        Ok(())
    }

    /// One row more, which has no front.
    pub fn say(&mut self, alloc: Global, said: String) -> Result<(), AllocError> {
        self.push(String::new(alloc), said)
    }
}

/// Puts a line after the others, so many columns from their left side, 2 at least.
pub fn push_line(
    alloc: Global,
    lines: &mut Vec<String>,
    margin: usize,
    words: &str,
) -> Result<(), AllocError>
    ensures { OnOk result (Keeps lines.old.items lines.new.items) }
{
    let texts = [
        ("", margin.saturating_sub(GAP)),
        (words, COLUMNS.saturating_sub(margin)),
    ];
    push_texts(alloc, lines, &texts)
}

/// Puts a heading after the lines, in capitals and with a free line before it.
pub fn push_heading(alloc: Global, lines: &mut Vec<String>, words: &str) -> Result<(), AllocError>
    ensures { OnOk result (Keeps lines.old.items lines.new.items) }
{
    let words = words.to_ascii_uppercase(alloc)?;
    push_texts(alloc, lines, &[("", COLUMNS)])?;
    push_texts(alloc, lines, &[(words.as_str(), COLUMNS)])?;
    Ok(())
}

// Puts a row after the lines, with a front of so many columns.
fn push_part_row(
    alloc: Global,
    lines: &mut Vec<String>,
    row: &Row,
    width: usize,
) -> Result<(), AllocError>
    ensures { OnOk result (Keeps lines.old.items lines.new.items) }
{
    if width == 0 {
        return push_line(alloc, lines, GAP, row.said.as_str());
    }
    let rest = COLUMNS.saturating_sub(width.saturating_add(GAP + GAP));
    let texts = [
        ("", 0),
        (row.front.as_str(), width),
        (row.said.as_str(), rest),
    ];
    push_texts(alloc, lines, &texts)
}

// The columns of the fronts of rows: those of the longest one, and half of the line at most.
fn front_of(rows: &[Row]) -> usize {
    let widths = rows.iter().map(|row| row.front.len());
    widths.max().unwrap_or(0).min(COLUMNS / 2)
}

/// Puts a part after the lines: its heading, and its rows with fronts of one width.
pub fn push_part(alloc: Global, lines: &mut Vec<String>, part: &Part) -> Result<(), AllocError>
    ensures { OnOk result (Keeps lines.old.items lines.new.items) }
{
    push_heading(alloc, lines, part.heading)?;
    if part.rows.is_empty() {
        push_line(alloc, lines, GAP, "none")?;
    }
    let width = front_of(&part.rows);
    for row in &part.rows {
        push_part_row(alloc, lines, row, width)?;
    }
    Ok(())
}
