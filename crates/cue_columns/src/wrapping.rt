//! A text in a column: as many lines as it takes.
use crate::columns::{BYTES, width_of};
use cue_words::shown_text;
use std::alloc::{AllocError, Global};
use std::mem;

/// A line of a column.
#[derive(Drop)]
pub(crate) struct Piece {
    pub(crate) text: String,
    /// The columns that it takes.
    pub(crate) width: usize,
}

/// The lines so far.
#[derive(Drop)]
struct Wrapping {
    alloc: Global,
    columns: usize,
    ended: Vec<Piece>,
    line: Piece,
}

// The columns that a word takes.
fn width_of_word(word: &str) -> usize {
    let mut width = 0usize;
    for c in word.chars() {
        width = width.saturating_add(width_of(c));
    }
    width
}

/// Puts so many spaces after a text.
pub(crate) fn push_spaces(text: &mut String, count: usize) -> Result<(), AllocError> {
    for _ in 0..count {
        text.push(' ')?;
    }
    Ok(())
}

// A line with nothing in it.
fn empty_line(alloc: Global) -> Piece {
    Piece {
        text: String::new(alloc),
        width: 0,
    }
}

impl Wrapping {
    // Whether the line has room for so many columns and bytes more.
    fn has_room(&self, width: usize, bytes: usize) -> bool {
        let (wide, long) = (
            self.line.width.saturating_add(width),
            self.line.text.len().saturating_add(bytes),
        );
        wide <= self.columns && long <= self.columns.saturating_mul(BYTES)
    }

    // Ends the line, and begins the next one.
    fn end_line(&mut self) -> Result<(), AllocError> {
        let next = empty_line(self.alloc);
        let line = mem::replace(&mut self.line, next);
        self.ended.push(line)?;
        Ok(())
    }

    // Puts a character into the line, or into the next one if it has no room.
    fn push_sign(&mut self, c: char) -> Result<(), AllocError> {
        let width = width_of(c);
        if !self.line.text.is_empty() && !self.has_room(width, c.len_utf8()) {
            self.end_line()?;
        }
        self.line.text.push(c)?;
        self.line.width = self.line.width.saturating_add(width);
        Ok(())
    }

    // Puts the characters of a word there. One that is longer than a line goes on in the next one.
    fn push_signs(&mut self, word: &str) -> Result<(), AllocError> {
        for c in word.chars() {
            self.push_sign(c)?;
        }
        Ok(())
    }

    // Whether a word goes on in this line: it has room there, or would not have any in the next one either.
    fn takes(&self, word: &str) -> bool {
        let (width, bytes) = (
            width_of_word(word).saturating_add(1),
            word.len().saturating_add(1),
        );
        self.has_room(width, bytes) || (width > self.columns && self.has_room(2, BYTES))
    }

    // Puts a word there, with a space before it, or into the next line.
    fn push_word(&mut self, word: &str) -> Result<(), AllocError> {
        if self.takes(word) {
            self.push_sign(' ')?;
        } else {
            self.end_line()?;
        }
        self.push_signs(word)
    }

    // All lines.
    fn into_lines(self) -> Result<Vec<Piece>, AllocError> {
        let Wrapping {
            alloc: _,
            columns: _,
            mut ended,
            line,
        } = self;
        ended.push(line)?;
        Ok(ended)
    }
}

/// A text in so many columns, 2 at least: its lines, one at least. They break between words if they can, and lose
/// nothing but the space at which they break. What a terminal would not show is a question mark.
pub(crate) fn wrapped(alloc: Global, text: &str, columns: usize) -> Result<Vec<Piece>, AllocError> {
    let text = shown_text(alloc, text)?;
    let mut wrapping = Wrapping {
        alloc,
        columns,
        ended: Vec::new(alloc),
        line: empty_line(alloc),
    };
    for (index, word) in text.as_str().split(' ').enumerate() {
        if index == 0 {
            wrapping.push_signs(word)?;
        } else {
            wrapping.push_word(word)?;
        }
    }
    wrapping.into_lines()
}
