//! What is asked for, and why it cannot be.
ghost use Rattle.std.specs.Prelude.{◌≡◌};
ghost use Rattle.cue_edit.specs.Editing as editing;

use cue_show::CueNo;
use cue_show_file::{Color, CueEntry, Finding, Flag};

/// What people see of a cue.
#[derive(Drop)]
pub enum Sign {
    /// What it is called; none takes the name away.
    Name(Option<String>),
    /// What the operator is to think of; none takes the note away.
    Note(Option<String>),
    Color(Option<Color>),
    Flag(Option<Flag>),
}

/// What becomes of a cue.
#[derive(Drop)]
pub enum Change {
    /// It has this sign in place of the one before.
    Sign(Sign),
    /// It comes before this cue; none: it is the last.
    Before(Option<CueNo>),
    /// A cue with this number comes after it, which has all that it has.
    Copy(CueNo),
}

/// One change of one cue.
#[derive(Drop)]
pub struct Edit {
    pub cue: CueNo,
    pub change: Change,
}

/// Why a show file stays as it is.
#[derive(Drop)]
pub enum EditFault {
    /// The file has no such cue.
    NoCue,
    /// The cue before which it is to come is not in the file, or is the cue itself.
    NoPlace,
    /// The number of the copy is that of another cue.
    Taken,
    /// The changed file would have these mistakes.
    Mistakes(Vec<Finding>),
    /// The change cannot be seen in the text: the cues have no header of their own, or the value has several lines.
    Form,
}

// Whether one of the cues has the number.
fn has_cue(cues: &[CueEntry], number: CueNo) -> bool
    ensures { result ≡ editing.has_cue cues.now number }
{
    cues.iter().any(|entry| entry.number == number)
}

// Whether a cue can come there.
fn is_place(cues: &[CueEntry], cue: CueNo, before: Option<CueNo>) -> bool
    ensures { result ≡ editing.is_place cues.now cue before }
{
    match before {
        None => true,
        Some(before) => has_cue(cues, before) && before != cue,
    }
}

/// Whether these cues stand in the way of a change, by their numbers alone, and how.
pub(crate) fn fault_of(edit: &Edit, cues: &[CueEntry]) -> Option<EditFault>
    ensures { result ≡ editing.fault_of edit.now cues.now }
{
    if !has_cue(cues, edit.cue) {
        return Some(EditFault::NoCue);
    }
    match &edit.change {
        Change::Sign(_) => None,
        Change::Before(before) => {
            if is_place(cues, edit.cue, *before) {
                None
            } else {
                Some(EditFault::NoPlace)
            }
        }
        Change::Copy(number) => {
            if has_cue(cues, *number) {
                Some(EditFault::Taken)
            } else {
                None
            }
        }
    }
}
