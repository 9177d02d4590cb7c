//! Characters as a terminal may get them: what it might obey, and what has no place of its own, is a question mark.
ghost use Rattle.std.specs.Prelude.{◌≡◌, IfOk, IsTrue, map, string_bytes};
ghost use Rattle.std.specs.List.{list_all};
ghost use Rattle.std.specs.Str.{chars};
ghost use Rattle.cue_words.specs.Signs as said;

use std::alloc::{AllocError, Global};

/// Whether a terminal shows the character as a sign of its own. It does not show a control, a mark that turns the
/// direction of a line, or a character that Unicode lets every screen ignore: those without width, and those that
/// choose a variant of the sign before them. An accent that stands over its letter is shown.
pub fn is_shown(c: char) -> bool
    ensures { result ≡ said.is_shown c }
{
    !matches!(
        c,
        '\0'..='\u{1f}'
            | '\u{7f}'..='\u{9f}'
            | '\u{ad}'
            | '\u{34f}'
            | '\u{61c}'
            | '\u{115f}'..='\u{1160}'
            | '\u{17b4}'..='\u{17b5}'
            | '\u{180b}'..='\u{180f}'
            | '\u{200b}'..='\u{200f}'
            | '\u{2028}'..='\u{202e}'
            | '\u{2060}'..='\u{206f}'
            | '\u{3164}'
            | '\u{fe00}'..='\u{fe0f}'
            | '\u{feff}'
            | '\u{ffa0}'
            | '\u{fff0}'..='\u{fffb}'
            | '\u{13430}'..='\u{1343f}'
            | '\u{1bca0}'..='\u{1bca3}'
            | '\u{1d173}'..='\u{1d17a}'
            | '\u{e0000}'..='\u{e0fff}'
    )
}

/// The character as a terminal may get it: a question mark in place of one that `is_shown` refuses. Whoever puts the
/// words of a file on a screen calls it.
pub fn shown(c: char) -> char
    ensures value { result ≡ said.shown c }
    ensures safe { IsTrue (said.is_shown result) }
{
    if is_shown(c) { c } else { '?' }
}

/// The text as a terminal may get it: `shown` of each of its characters, in order. So it is one line, which leaves the
/// rest of the screen as it is.
pub fn shown_text(alloc: Global, text: &str) -> Result<String, AllocError>
    ensures signs { IfOk result (λ t. chars (string_bytes t) ≡ map said.shown (chars text.now)) }
    ensures safe { IfOk result (λ t. IsTrue (list_all said.is_shown (chars (string_bytes t)))) }
{
    text.chars().map(|c| shown(c)).collect(alloc)
}
