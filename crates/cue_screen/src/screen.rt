//! What is written so that a terminal shows the next lines.
ghost use Rattle.std.specs.Prelude.{◌≡◌, ◌++◌, ◌+◌, ◌-◌, ◌<◌, ◌≤◌, ◌^◌, IfOk, OnErr, OnOk, length, map, string_bytes};
ghost use Rattle.cue_screen.specs.Pictures as pictures;

use cue_words::shown_text;
use std::alloc::{AllocError, Global};
use std::fmt::Write;
use std::marker::Model;

/// After so many pictures all lines are drawn again, for a window that has got another size.
pub const WHOLE: u32 = 20;

/// A line that is longer than the window is cut at its edge, and does not go on in the next one.
const CUT: &str = "\x1b[?7l";

/// As it was.
const UNCUT: &str = "\x1b[?7h";

/// The cursor goes to the top left, and all that stands in the window is erased.
const WIPED: &str = "\x1b[H\x1b[J";

// The cursor goes to the beginning of the row with this number, from 1.
#[tactic(auto, unfolding(crate::specs::Pictures::place))]
fn push_place(text: &mut String, number: usize) -> Result<(), AllocError>
    ensures { OnOk result (string_bytes text.new ≡ string_bytes text.old ++ pictures.place number) }
{
    write!(text, "\x1b[{number};1H")
}

// Draws a line in its row, from 0.
#[tactic(auto, unfolding(crate::specs::Pictures::row_text))]
fn push_line(text: &mut String, row: usize, line: &str) -> Result<(), AllocError>
    requires { row + 1 < 2 ^ 64 }
    ensures { OnOk result (string_bytes text.new ≡ string_bytes text.old ++ pictures.row_text row line.now) }
{
    push_place(text, row + 1)?;
    text.push_str("\x1b[2K")?;
    text.push_str(line)
}

// Empties so many rows, from this one on.
fn push_empty(text: &mut String, row: usize, count: usize) -> Result<(), AllocError>
    requires { row + count < 2 ^ 64 }
    ensures { OnOk result (string_bytes text.new ≡ string_bytes text.old ++ pictures.emptied row count) }
{
    for at in 0..count {
        push_line(text, row + at, "")?;
    }
    Ok(())
}

// Whether the line stands in this row already.
fn stands(shown: &[String], row: usize, line: &str) -> bool
    ensures { result ≡ pictures.stands (map string_bytes shown.now) row line.now }
{
    match shown.get(row) {
        Some(shown) => shown.as_str() == line,
        None => false,
    }
}

// Draws a line in its row, if it does not stand there already.
fn push_changed(
    text: &mut String,
    shown: &[String],
    row: usize,
    line: &str,
) -> Result<(), AllocError>
    requires { row + 1 < 2 ^ 64 }
    ensures { OnOk result (string_bytes text.new
        ≡ string_bytes text.old ++ pictures.drawn_in (map string_bytes shown.now) row line.now) }
{
    if stands(shown, row, line) {
        Ok(())
    } else {
        push_line(text, row, line)
    }
}

// Draws each line that does not stand in its row already.
fn push_lines(text: &mut String, shown: &[String], lines: &[String]) -> Result<(), AllocError>
    ensures { OnOk result (string_bytes text.new
        ≡ string_bytes text.old ++ pictures.changed 0 (map string_bytes shown.now) (map string_bytes lines.now)) }
{
    for (row, line) in lines.iter().enumerate() {
        push_changed(text, shown, row, line.as_str())?;
    }
    Ok(())
}

// A line as a terminal may get it.
#[tactic(auto, using(crate::proofs::PlainLemmas::spelled))]
fn clean(alloc: Global, line: &str) -> Result<String, AllocError>
    ensures { IfOk result (λ text. string_bytes text ≡ pictures.clean line.now) }
{
    shown_text(alloc, line)
}

// Each line as a terminal may get it.
fn cleaned(alloc: Global, lines: Vec<String>) -> Result<Vec<String>, AllocError>
    ensures { IfOk result (λ all. map string_bytes all.items
        ≡ pictures.cleaned (map string_bytes lines.items)) }
{
    let mut all = Vec::new(alloc);
    for line in lines.iter() {
        all.push(clean(alloc, line.as_str())?)?;
    }
    Ok(all)
}

// Erases all, if all lines are drawn.
fn push_wiped(text: &mut String, is_whole: bool) -> Result<(), AllocError>
    ensures { OnOk result (string_bytes text.new ≡ string_bytes text.old ++ pictures.wiped is_whole) }
{
    if is_whole {
        text.push_str(WIPED)
    } else {
        Ok(())
    }
}

// The pictures since all lines were drawn, with one more.
fn counted(count: u32) -> u32
    ensures { result ≡ pictures.counted count }
{
    if count < WHOLE - 1 { count + 1 } else { 0 }
}

/// The lines that were drawn last.
///
/// Contracts see it as `Seen` of `specs/Pictures.antt`.
#[derive(Drop)]
pub struct Screen {
    shown: Vec<String>,
    // How many pictures there were since all lines were drawn.
    count: u32,
}

impl Model for Screen {
    ghost use Rattle.std.specs.Prelude.{map, string_bytes};
    ghost use Rattle.cue_screen.specs.Pictures.{Seen};

    ghost Value = { Seen };

    ghost view = { λ s. record { lines = map string_bytes s.shown.items; pictures = s.count } };
}

impl Screen {
    /// Nothing is drawn yet.
    pub fn new(alloc: Global) -> Screen
        ensures { result ≡ pictures.unseen }
    {
        Screen {
            shown: Vec::new(alloc),
            count: 0,
        }
    }

    // Whether all lines are drawn.
    fn is_whole(&self) -> bool
        ensures { result ≡ pictures.is_whole self.now }
    {
        self.count == 0
    }

    // The lines that stay, where those of the next picture are the same.
    fn kept(&self) -> &[String]
        ensures { map string_bytes result.now ≡ pictures.kept self.now }
    {
        if self.is_whole() { &[] } else { &self.shown }
    }

    // Draws the lines that are not there yet, and empties the rows below them.
    fn push_rows(&self, text: &mut String, lines: &[String]) -> Result<(), AllocError>
        ensures { OnOk result (string_bytes text.new
            ≡ string_bytes text.old ++ pictures.lines_text self.now (map string_bytes lines.now)) }
    {
        let gone = self.shown.len().saturating_sub(lines.len());
        push_lines(text, self.kept(), lines)?;
        push_empty(text, lines.len(), gone)
    }

    // Draws these lines, with the cursor after the last one.
    #[tactic(auto, unfolding(crate::specs::Pictures::picture_of))]
    fn push_picture(&self, text: &mut String, lines: &[String]) -> Result<(), AllocError>
        ensures { OnOk result (string_bytes text.new
            ≡ string_bytes text.old ++ pictures.picture_of self.now (map string_bytes lines.now)) }
    {
        text.push_str(CUT)?;
        push_wiped(text, self.is_whole())?;
        self.push_rows(text, lines)?;
        text.push_str(UNCUT)?;
        push_place(text, lines.len() + 1)
    }

    // These lines are drawn now.
    fn take(&mut self, lines: Vec<String>)
        ensures { self.new ≡ pictures.after self.old (map string_bytes lines.items) }
    {
        self.shown = lines;
        self.count = counted(self.count);
    }

    // The same of lines that are as a terminal may get them.
    fn drawn(&mut self, alloc: Global, lines: Vec<String>) -> Result<String, AllocError>
        ensures drawn { IfOk result (λ text. string_bytes text
            ≡ pictures.picture_of self.old (map string_bytes lines.items)) }
        ensures seen { OnOk result (self.new ≡ pictures.after self.old (map string_bytes lines.items)) }
        ensures lost { OnErr result (self.new ≡ self.old) }
    {
        let mut text = String::new(alloc);
        match self.push_picture(&mut text, &lines) {
            Ok(()) => {
                self.take(lines);
                Ok(text)
            }
            Err(why) => {
                drop(lines);
                drop(text);
                Err(why)
            }
        }
    }

    /// What a terminal is to be given so that it shows these lines, with the cursor after the last one. A character
    /// that it might obey is a question mark. If there is no memory for it, nothing is drawn, and the next picture may
    /// be.
    pub fn picture(&mut self, alloc: Global, lines: Vec<String>) -> Result<String, AllocError>
        ensures drawn { IfOk result (λ text. string_bytes text
            ≡ pictures.picture_of self.old (pictures.cleaned (map string_bytes lines.items))) }
        ensures seen { OnOk result (self.new
            ≡ pictures.after self.old (pictures.cleaned (map string_bytes lines.items))) }
        ensures lost { OnErr result (self.new ≡ self.old) }
    {
        let lines = cleaned(alloc, lines)?;
        self.drawn(alloc, lines)
    }
}
