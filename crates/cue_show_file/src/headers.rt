//! Where the tables of a file begin: TOML's values know nothing of lines.
use std::alloc::{AllocError, Global};

/// The lines, from 1, that begin with each header.
#[derive(Drop)]
pub(crate) struct Headers {
    pub(crate) devices: Vec<usize>,
    pub(crate) cues: Vec<usize>,
    /// The first that begins with `[device]` or `[cue]`.
    pub(crate) single: Option<usize>,
}

/// What an editor may put before a text, to say how it is encoded. TOML passes it over.
const MARK: char = '\u{feff}';

/// The headers of a text, found in one pass.
pub(crate) fn headers_of(alloc: Global, text: &str) -> Result<Headers, AllocError> {
    let (mut devices, mut cues, mut single) = (Vec::new(alloc), Vec::new(alloc), None);
    let text = text.strip_prefix(MARK).unwrap_or(text);
    for (index, line) in text.lines().enumerate() {
        let line = line.trim_start();
        if line.starts_with("[[device]]") {
            devices.push(index.saturating_add(1))?;
        } else if line.starts_with("[[cue]]") {
            cues.push(index.saturating_add(1))?;
        } else if is_single(line) {
            single = single.or(Some(index.saturating_add(1)));
        }
    }
    Ok(Headers {
        devices,
        cues,
        single,
    })
}

/// Whether a line begins with the header of one table if a list of tables is wanted.
pub(crate) fn is_single(line: &str) -> bool {
    line.starts_with("[device]") || line.starts_with("[cue]")
}

// Whether a line has this key, or the header of a table with this name.
fn has_key(line: &str, key: &str) -> bool {
    let line = line.trim_start();
    let line = line.strip_prefix("[[").unwrap_or(line);
    let line = line.strip_prefix("[").unwrap_or(line);
    let line = line.strip_prefix("\"").unwrap_or(line);
    match line.strip_prefix(key) {
        Some(rest) => {
            let rest = rest.strip_prefix("\"").unwrap_or(rest).trim_start();
            rest.starts_with("=") || rest.starts_with("]") || rest.starts_with(".")
        }
        None => false,
    }
}

/// The line, from 1, at which a key of the file stands, or a table with this name; none if it cannot be seen, as
/// if the key is written by escapes.
pub(crate) fn line_of_key(text: &str, key: &str) -> Option<usize> {
    let text = text.strip_prefix(MARK).unwrap_or(text);
    for (index, line) in text.lines().enumerate() {
        if has_key(line, key) {
            return Some(index.saturating_add(1));
        }
    }
    None
}

/// The lines at which so many tables begin. None if there are more or fewer such lines, as if the tables are
/// written in one line, or if a text holds a header.
pub(crate) fn lines_for(lines: &[usize], count: usize) -> &[usize] {
    if lines.len() == count { lines } else { &[] }
}
