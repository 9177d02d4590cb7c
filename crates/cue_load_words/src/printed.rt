//! The lines that a load prints.
ghost use Rattle.std.specs.Prelude.{◌≡◌};
ghost use Rattle.std.specs.Fmt.{WritesOnOk};
ghost use Rattle.cue_load_words.specs.Counted as words;

use crate::said::About;
use cue_load_machine::Counts;
use cue_saying::Shown;
use std::fmt;

/// What is counted.
#[derive(Clone, Copy, Debug, PartialEq, Eq)]
pub enum Kind {
    Devices,
    Cues,
}

/// A line that a load prints.
#[derive(Clone, Copy, Debug, PartialEq, Eq)]
pub enum Printed {
    /// What became of these, where what was there stayed.
    Added(Kind, Counts),
    /// What became of these, where what was there was replaced.
    Replaced(Kind, Counts),
    /// The store was not compared with the file.
    NotCompared,
}

/// A line, in words.
#[derive(Clone, Copy, Drop)]
pub struct PrintedWords<'a> {
    pub printed: &'a Printed,
    pub about: &'a About<'a>,
}

/// Where the copy of what the store had is, and the command that takes the load back.
#[derive(Clone, Copy, Drop)]
pub struct KeptWords<'a> {
    /// The copy.
    pub copy: &'a str,
    /// The folder of the store.
    pub dir: &'a str,
}

// What is counted, in words.
fn kind_words(kind: Kind) -> &'static str
    ensures { result.now ≡ words.kind_words kind }
{
    match kind {
        Kind::Devices => "devices",
        Kind::Cues => "cues",
    }
}

// Writes what became of those that were to be added.
fn write_added<W: fmt::Write>(f: &mut fmt::Formatter<W>, kind: Kind, counts: &Counts) -> fmt::Result
    ensures { WritesOnOk W.write_str_gives f.old result (words.added_words kind counts.now) f.new }
{
    let what = kind_words(kind);
    let (added, known, refused) = (counts.added, counts.known, counts.refused);
    write!(f, "{what}: {added} new, {known} known, {refused} refused")
}

// Writes what became of those of the file, and of those that it does not have.
fn write_replaced<W: fmt::Write>(
    f: &mut fmt::Formatter<W>,
    kind: Kind,
    counts: &Counts,
) -> fmt::Result
    ensures { WritesOnOk W.write_str_gives f.old result (words.replaced_words kind counts.now) f.new }
{
    let what = kind_words(kind);
    let (added, known) = (counts.added, counts.known);
    let (replaced, removed) = (counts.replaced, counts.removed);
    write!(
        f,
        "{what}: {added} new, {known} known, {replaced} replaced, {removed} removed"
    )
}

// Writes that the store was not compared with the file.
fn write_not_compared<W: fmt::Write>(f: &mut fmt::Formatter<W>, path: &str) -> fmt::Result
    ensures { WritesOnOk W.write_str_gives f.old result (words.not_compared_words path.now) f.new }
{
    let path = Shown { text: path };
    write!(
        f,
        "not compared with what else the store has, nor with its order: \
         cuedesk load {path} FOLDER does, with its folder"
    )
}

impl fmt::Display for PrintedWords<'_> {
    ghost use Rattle.std.specs.Prelude.{Some};
    ghost use Rattle.cue_load_words.specs.Counted.{printed_words};

    ghost output = { λ words. Some (printed_words words.printed.now words.about.now) };

    fn fmt<W: fmt::Write>(&self, f: &mut fmt::Formatter<W>) -> fmt::Result {
        match self.printed {
            Printed::Added(kind, counts) => write_added(f, *kind, counts),
            Printed::Replaced(kind, counts) => write_replaced(f, *kind, counts),
            Printed::NotCompared => write_not_compared(f, self.about.path),
        }
    }
}

impl fmt::Display for KeptWords<'_> {
    ghost use Rattle.std.specs.Prelude.{Some};
    ghost use Rattle.cue_load_words.specs.Counted.{kept_words};

    ghost output = { λ words. Some (kept_words words.copy.now words.dir.now) };

    fn fmt<W: fmt::Write>(&self, f: &mut fmt::Formatter<W>) -> fmt::Result {
        let (copy, dir) = (Shown { text: self.copy }, Shown { text: self.dir });
        write!(
            f,
            "what the store had is in {copy}; back: cuedesk load {copy} {dir} --exact"
        )
    }
}
