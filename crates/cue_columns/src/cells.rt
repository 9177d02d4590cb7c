//! Rows of cells: what stands side by side in columns.
#![tactic(auto, using(crate::proofs::ColumnLemmas::keeps_same, crate::proofs::ColumnLemmas::keeps_then))]

ghost use Rattle.std.specs.Prelude.{OnOk};
ghost use Rattle.cue_columns.specs.Columns.{Keeps};

use crate::columns::{COLUMNS, fitted};
use crate::wrapping::{Piece, push_spaces, wrapped};
use std::alloc::{AllocError, Global};

/// What stands between two cells.
pub const GAP: usize = 2;

/// What stands in one column of a row.
#[derive(Drop)]
pub struct Cell {
    pieces: Vec<Piece>,
    /// The columns that it has.
    width: usize,
}

impl Cell {
    /// A text in so many columns.
    pub fn of(alloc: Global, text: &str, width: usize) -> Result<Cell, AllocError> {
        Ok(Cell {
            pieces: wrapped(alloc, text, width)?,
            width,
        })
    }

    /// A number in so many columns, at their right side.
    pub fn number(alloc: Global, number: u8, width: usize) -> Result<Cell, AllocError> {
        let digits = format!(in alloc; "{number}")?;
        let mut text = String::new(alloc);
        push_spaces(&mut text, width.saturating_sub(digits.len()))?;
        text.push_str(digits.as_str())?;
        Cell::of(alloc, text.as_str(), width)
    }

    // Puts the line with this index after the text, filled up to the width of the cell.
    fn push_line(&self, text: &mut String, index: usize) -> Result<(), AllocError> {
        match self.pieces.get(index) {
            Some(piece) => {
                text.push_str(piece.text.as_str())?;
                push_spaces(text, self.width.saturating_sub(piece.width))
            }
            None => push_spaces(text, self.width),
        }
    }
}

// The line of a row with this index.
fn line_of(alloc: Global, cells: &[Cell], index: usize) -> Result<String, AllocError> {
    let mut text = String::new(alloc);
    for (place, cell) in cells.iter().enumerate() {
        if place > 0 {
            push_spaces(&mut text, GAP)?;
        }
        cell.push_line(&mut text, index)?;
    }
    Ok(text)
}

// Puts a line after the others, as a terminal may get it.
#[tactic(auto, using(crate::proofs::ColumnLemmas::keeps_push))]
fn push_line(alloc: Global, lines: &mut Vec<String>, line: &str) -> Result<(), AllocError>
    ensures { OnOk result (Keeps lines.old.items lines.new.items) }
{
    let fit = fitted(alloc, line, COLUMNS)?;
    lines.push(fit)?;
    Ok(())
}

// How many lines the tallest of the cells has.
fn height_of(cells: &[Cell]) -> usize {
    let heights = cells.iter().map(|cell| cell.pieces.len());
    heights.max().unwrap_or(0)
}

/// Puts a row after the lines: as many lines as its tallest cell has. Each of them has at most 80 columns.
pub fn push_row(alloc: Global, lines: &mut Vec<String>, cells: &[Cell]) -> Result<(), AllocError>
    ensures { OnOk result (Keeps lines.old.items lines.new.items) }
{
    for index in 0..height_of(cells) {
        let line = line_of(alloc, cells, index)?;
        push_line(alloc, lines, line.as_str().trim_end())?;
    }
    Ok(())
}

/// Puts a row after the lines, of texts that have so many columns each.
pub fn push_texts(
    alloc: Global,
    lines: &mut Vec<String>,
    texts: &[(&str, usize)],
) -> Result<(), AllocError>
    ensures { OnOk result (Keeps lines.old.items lines.new.items) }
{
    let mut cells = Vec::new(alloc);
    for (text, width) in texts {
        cells.push(Cell::of(alloc, text, *width)?)?;
    }
    push_row(alloc, lines, &cells)?;
    Ok(())
}
