//! How the line of a finding begins.
ghost use Rattle.std.specs.Prelude.{◌≡◌};
ghost use Rattle.std.specs.Fmt.{WritesOnOk};
ghost use Rattle.cue_findings.specs.Words as words;

use cue_saying::Shown;
use cue_show_file::{Finding, Subject, cue_text};
use std::fmt;

/// What a finding is to whoever reads it.
#[derive(Clone, Copy, Debug, PartialEq, Eq)]
pub enum Kind {
    /// It has to be mended.
    Mistake,
    /// It may be meant so.
    Hint,
}

/// The line of a finding: the file, the line in it, what it is about, and what is wrong there.
#[derive(Clone, Copy, Drop)]
pub struct FindingWords<'a> {
    /// The show file.
    pub path: &'a str,
    pub kind: Kind,
    pub finding: &'a Finding,
}

impl<'a> FindingWords<'a> {
    /// The line of a finding in this show file.
    pub fn of(path: &'a str, kind: Kind, finding: &'a Finding) -> FindingWords<'a>
        ensures path { result.path ≡ path.entry }
        ensures kind { result.kind ≡ kind }
        ensures finding { result.finding ≡ finding.entry }
    {
        FindingWords {
            path,
            kind,
            finding,
        }
    }
}

// Writes what a finding is about.
fn write_subject<W: fmt::Write>(f: &mut fmt::Formatter<W>, subject: Subject) -> fmt::Result
    ensures { WritesOnOk W.write_str_gives f.old result (words.subject_words subject) f.new }
{
    match subject {
        Subject::File => f.write_str("the file"),
        Subject::Device(device) => {
            let number = device.number();
            write!(f, "device {number}")
        }
        Subject::Cue(cue) => {
            let number = cue_text(&cue);
            write!(f, "cue {number}")
        }
        Subject::DeviceAt(place) => write!(f, "device entry {place}"),
        Subject::CueAt(place) => write!(f, "cue entry {place}"),
    }
}

// Writes the file and the line in it, if it is known.
fn write_place<W: fmt::Write>(
    f: &mut fmt::Formatter<W>,
    path: &str,
    line: Option<usize>,
) -> fmt::Result
    ensures { WritesOnOk W.write_str_gives f.old result (words.place_words path.now line) f.new }
{
    let path = Shown { text: path };
    match line {
        Some(line) => write!(f, "{path}:{line}: "),
        None => write!(f, "{path}:"),
    }
}

// Writes that a finding is a hint, if it is one.
fn write_kind<W: fmt::Write>(f: &mut fmt::Formatter<W>, kind: Kind) -> fmt::Result
    ensures { WritesOnOk W.write_str_gives f.old result (words.kind_words kind) f.new }
{
    f.write_str(match kind {
        Kind::Mistake => "",
        Kind::Hint => "hint: ",
    })
}

// Writes all that stands before the words of a mistake.
fn write_head<W: fmt::Write>(
    f: &mut fmt::Formatter<W>,
    path: &str,
    kind: Kind,
    finding: &Finding,
) -> fmt::Result
    ensures { WritesOnOk W.write_str_gives f.old result (words.head_words path.now kind finding.now) f.new }
{
    write_place(f, path, finding.line)?;
    write_kind(f, kind)?;
    write_subject(f, finding.subject)?;
    f.write_str(": ")
}

impl fmt::Display for FindingWords<'_> {
    fn fmt<W: fmt::Write>(&self, f: &mut fmt::Formatter<W>) -> fmt::Result {
        write_head(f, self.path, self.kind, self.finding)?;
        let mistake = &self.finding.mistake;
        write!(f, "{mistake}")
    }
}
