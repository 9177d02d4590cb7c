//! What somebody else wrote, as a terminal may get it.
ghost use Rattle.std.specs.Fmt.{WritesOnOk};
ghost use Rattle.cue_saying.specs.Shown.{shown_name};

use cue_words::shown;
use std::fmt::{self, Write};

/// The name of a file or of a folder, as a terminal may get it: a question mark in place of what it might obey.
#[derive(Clone, Copy, Drop)]
pub struct Shown<'a> {
    pub text: &'a str,
}

// Writes each character as a terminal may get it.
fn write_shown<W: fmt::Write>(f: &mut fmt::Formatter<W>, text: &str) -> fmt::Result
    ensures { WritesOnOk W.write_str_gives f.old result (shown_name text.now) f.new }
{
    for c in text.chars() {
        f.write_char(shown(c))?;
    }
    Ok(())
}

impl fmt::Display for Shown<'_> {
    ghost use Rattle.std.specs.Prelude.{Some};
    ghost use Rattle.cue_saying.specs.Shown.{shown_name};

    ghost output = { λ name. Some (shown_name name.text.now) };

    fn fmt<W: fmt::Write>(&self, f: &mut fmt::Formatter<W>) -> fmt::Result {
        write_shown(f, self.text)
    }
}
