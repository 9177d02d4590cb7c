//! What is said of a file or a folder that cannot be read.
ghost use Rattle.std.specs.Prelude.{◌≡◌, IsTrue, option_copied, string_bytes};
ghost use Rattle.std.specs.List.{list_all};
ghost use Rattle.std.specs.Str.{chars};
ghost use Rattle.cue_findings.specs.Words as said;
ghost use Rattle.cue_words.specs.Signs.{is_shown};

use cue_words::shown_text;
use std::alloc::Global;
use std::fmt::Display;
use std::io::ErrorKind;

/// What is said of a show file that cannot be read, where the system's own words help nobody: it is no text.
pub fn unread_words(kind: ErrorKind) -> Option<&'static str>
    ensures { option_copied result ≡ said.unread_words kind }
{
    match kind {
        ErrorKind::InvalidData => Some("this is no text in UTF-8: save it as UTF-8"),
        _ => None,
    }
}

// A text as a terminal may get it; empty if there is no memory for it.
fn safe(alloc: Global, text: &str) -> String
    ensures { IsTrue (list_all is_shown (chars (string_bytes result))) }
{
    match shown_text(alloc, text) {
        Ok(shown) => shown,
        Err(_) => String::new(alloc),
    }
}

/// What failed, and why, as one text that a terminal may get; empty if there is no memory for it.
pub fn words<D: Display + Drop>(alloc: Global, what: &str, why: D) -> String
    ensures { IsTrue (list_all is_shown (chars (string_bytes result))) }
{
    match format!(in alloc; "{what}: {why}") {
        Ok(text) => safe(alloc, text.as_str()),
        Err(_) => String::new(alloc),
    }
}
