//! Where a cue and its values stand in the text of a show file. What is found here is a guess about the text: what
//! becomes of it is read and compared before it counts.

use std::alloc::{AllocError, Global};

/// From one place of a text to another, in bytes.
#[derive(Clone, Copy)]
pub(crate) struct Span {
    pub(crate) from: usize,
    pub(crate) to: usize,
}

/// The lines of a text, by where each begins.
#[derive(Drop)]
pub(crate) struct Lines<'t> {
    text: &'t str,
    starts: Vec<usize>,
}

/// The lines of one cue: the comment right above it, its header, and all before what comes next.
#[derive(Clone, Copy)]
pub(crate) struct Block {
    /// The first line.
    pub(crate) first: usize,
    /// The line of its header.
    pub(crate) header: usize,
    /// The line after its last one.
    pub(crate) end: usize,
}

// Whether a line is a comment alone.
fn is_comment(line: &str) -> bool {
    line.trim_start().starts_with("#")
}

// Whether a line begins a table.
fn is_header(line: &str) -> bool {
    line.trim_start().starts_with("[")
}

impl<'t> Lines<'t> {
    /// The lines of a text.
    pub(crate) fn of(alloc: Global, text: &'t str) -> Result<Lines<'t>, AllocError> {
        let mut starts = Vec::new(alloc);
        starts.push(0)?;
        for (place, byte) in text.as_bytes().iter().enumerate() {
            if *byte == b'\n' {
                starts.push(place.saturating_add(1))?;
            }
        }
        Ok(Lines { text, starts })
    }

    /// Where a line begins, from 0; the end of the text, if there are fewer.
    pub(crate) fn start(&self, line: usize) -> usize {
        self.starts.get(line).copied().unwrap_or(self.text.len())
    }

    /// A line with its break; empty if there are fewer.
    pub(crate) fn line(&self, line: usize) -> &'t str {
        let end = self.start(line.saturating_add(1));
        self.text.get(self.start(line)..end).unwrap_or("")
    }

    /// What is after a value in its line, without the break: blank, or a comment.
    pub(crate) fn after(&self, line: usize, value: Span) -> &'t str {
        let end = self.start(line.saturating_add(1));
        let rest = self.text.get(value.to..end).unwrap_or("");
        rest.trim()
    }

    // The first of the comments right above this line; the line itself, if there is none.
    fn first_comment(&self, line: usize) -> usize {
        let mut first = line;
        for above in (0..line).rev() {
            if !is_comment(self.line(above)) {
                break;
            }
            first = above;
        }
        first
    }

    // The line of the first header after this line; the number of lines, if there is none.
    fn next_header(&self, line: usize) -> usize {
        for next in line.saturating_add(1)..self.starts.len() {
            if is_header(self.line(next)) {
                return next;
            }
        }
        self.starts.len()
    }

    /// The lines of the cue whose header stands in this line, counted from 1.
    pub(crate) fn block(&self, header: usize) -> Block {
        let header = header.saturating_sub(1);
        Block {
            first: self.first_comment(header),
            header,
            end: self.first_comment(self.next_header(header)),
        }
    }

    /// Where the lines from one to another stand.
    pub(crate) fn span(&self, first: usize, end: usize) -> Span {
        Span {
            from: self.start(first),
            to: self.start(end),
        }
    }
}

// How many blanks a text begins with.
fn blanks(text: &str) -> usize {
    let blanks = text.as_bytes().iter();
    blanks
        .take_while(|byte| **byte == b' ' || **byte == b'\t')
        .count()
}

// Where the value of a line with this key begins, if it has the key.
fn value_start(line: &str, key: &str) -> Option<usize> {
    let indent = blanks(line);
    let rest = line.get(indent..)?.strip_prefix(key)?;
    let gap = blanks(rest);
    let rest = rest.get(gap..)?.strip_prefix("=")?;
    Some(
        indent
            .saturating_add(key.len())
            .saturating_add(gap)
            .saturating_add(1)
            .saturating_add(blanks(rest)),
    )
}

// How many of these bytes, from the front on, are this quote.
fn quotes_at(bytes: &[u8], quote: u8) -> usize {
    bytes.iter().take_while(|byte| **byte == quote).count()
}

// How many quotes open a text that begins with so many of them: three, or one. Of two the second one closes it.
fn opening(quotes: usize) -> usize {
    if quotes >= 3 { 3 } else { 1 }
}

// The place after the text in quotes that begins at the front, if so many quotes close it in this line. More quotes that
// follow belong to it, as TOML has it.
fn closed_at(bytes: &[u8], quote: u8, opening: usize) -> Option<usize> {
    let mut is_escaped = false;
    for (place, byte) in bytes.iter().enumerate().skip(opening) {
        if *byte == b'\n' {
            return None;
        }
        let quotes = quotes_at(bytes.get(place..).unwrap_or(&[]), quote);
        if quotes >= opening && !is_escaped {
            let closing = if opening == 1 { 1 } else { quotes };
            return Some(place.saturating_add(closing));
        }
        is_escaped = !is_escaped && quote == b'"' && *byte == b'\\';
    }
    None
}

// How many bytes a text in quotes has that stands at the front; none if it goes on in the next line, or has none.
fn quoted_len(text: &str) -> Option<usize> {
    let bytes = text.as_bytes();
    let quote = *bytes.first()?;
    if quote != b'"' && quote != b'\'' {
        return None;
    }
    closed_at(bytes, quote, opening(quotes_at(bytes, quote)))
}

// Where the text in quotes stands that a line has at this key, counted from the front of the line.
fn value_in(line: &str, key: &str) -> Option<Span> {
    let from = value_start(line, key)?;
    let len = quoted_len(line.get(from..)?)?;
    Some(Span {
        from,
        to: from.saturating_add(len),
    })
}

impl Lines<'_> {
    /// The line of a cue that has this key, and where its text stands in quotes.
    pub(crate) fn value(&self, block: Block, key: &str) -> Option<(usize, Span)> {
        for line in block.header.saturating_add(1)..block.end {
            if let Some(found) = value_in(self.line(line), key) {
                let start = self.start(line);
                return Some((
                    line,
                    Span {
                        from: start.saturating_add(found.from),
                        to: start.saturating_add(found.to),
                    },
                ));
            }
        }
        None
    }

    /// Whether a cue has this key in a line.
    pub(crate) fn has_key(&self, block: Block, key: &str) -> bool {
        let mut lines = block.header.saturating_add(1)..block.end;
        lines.any(|line| value_start(self.line(line), key).is_some())
    }
}
