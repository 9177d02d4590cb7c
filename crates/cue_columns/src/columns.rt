//! Texts in columns of a terminal.
ghost use Rattle.std.specs.Prelude.{◌≡◌, ◌≤◌, IfOk, string_bytes};
ghost use Rattle.cue_columns.specs.Columns.{IsFit, fit_of, sign_of, width_of};

use cue_words::shown;
use std::alloc::{AllocError, Global};
use unicode_width::UnicodeWidthChar;

/// How many columns a line has at most.
pub const COLUMNS: usize = 80;

/// How many bytes a text has at most for each of its columns: so marks without a width of their own have an end.
pub const BYTES: usize = 4;

// The character as a terminal may get it.
#[tactic(auto, unfolding(crate::specs::Columns::sign_of))]
fn sign_of(c: char) -> char
    ensures { result ≡ sign_of c }
{
    shown(c)
}

/// The columns that a character takes.
#[tactic(auto, unfolding(crate::specs::Columns::width_of))]
pub fn width_of(c: char) -> usize
    ensures { result ≡ width_of c }
{
    c.width().unwrap_or(1)
}

/// As much of a text as fits into so many columns, and into four bytes for each of them, from its front. What a
/// terminal might obey or would not show is a question mark.
pub fn fitted(alloc: Global, text: &str, columns: usize) -> Result<String, AllocError>
    requires { columns ≤ 65535 }
    ensures value { IfOk result (λ fit. string_bytes fit ≡ fit_of columns text.now) }
    ensures safe { IfOk result (λ fit. IsFit columns (string_bytes fit)) }
{
    let mut fit = String::new(alloc);
    let (mut left, mut room) = (columns, BYTES * columns);
    for c in text.chars() {
        let sign = sign_of(c);
        let (width, bytes) = (width_of(sign), sign.len_utf8());
        if width > left || bytes > room {
            break;
        }
        fit.push(sign)?;
        left -= width;
        room -= bytes;
    }
    Ok(fit)
}
