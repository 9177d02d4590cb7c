//! What is said of an edit.
ghost use Rattle.std.specs.Prelude.{◌≡◌, IfOk, string_bytes};
ghost use Rattle.cue_edit.specs.Words as words;
ghost use Rattle.cue_edit.specs.declared.edit.Change.TheVariants as change;

use crate::edit::{Change, Edit, EditFault, Sign};
use cue_show::CueNo;
use cue_show_file::cue_text;
use std::alloc::{AllocError, Global};

// A sign by its name.
fn sign_said(sign: &Sign) -> &'static str
    ensures { result.now ≡ words.sign_said sign.now }
{
    match sign {
        Sign::Name(_) => "name",
        Sign::Note(_) => "note",
        Sign::Color(_) => "colour",
        Sign::Flag(_) => "flag",
    }
}

// A cue that comes elsewhere.
fn carried_words(alloc: Global, cue: CueNo, before: Option<CueNo>) -> Result<String, AllocError>
    ensures { IfOk result (λ text. string_bytes text ≡ words.carried_said cue before) }
{
    let cue = cue_text(&cue);
    match before {
        None => format!(in alloc; "cue {cue} comes last"),
        Some(before) => {
            let before = cue_text(&before);
            format!(in alloc; "cue {cue} comes before cue {before}")
        }
    }
}

// A cue with another sign.
fn signed_words(alloc: Global, cue: CueNo, sign: &Sign) -> Result<String, AllocError>
    ensures { IfOk result (λ text. string_bytes text ≡ words.changed_said cue (change.Sign sign.now)) }
{
    let (cue, sign) = (cue_text(&cue), sign_said(sign));
    format!(in alloc; "cue {cue}: its {sign} is changed")
}

// A cue that was made of another one.
fn copied_words(alloc: Global, cue: CueNo, number: CueNo) -> Result<String, AllocError>
    ensures { IfOk result (λ text. string_bytes text ≡ words.changed_said cue (change.Copy number)) }
{
    let (cue, number) = (cue_text(&cue), cue_text(&number));
    format!(in alloc; "cue {number} is a copy of cue {cue}")
}

/// What an edit has done, as one line without its end.
pub fn done_words(alloc: Global, edit: &Edit) -> Result<String, AllocError>
    ensures { IfOk result (λ text. string_bytes text ≡ words.done_said edit.now) }
{
    match &edit.change {
        Change::Sign(sign) => signed_words(alloc, edit.cue, sign),
        Change::Before(before) => carried_words(alloc, edit.cue, *before),
        Change::Copy(number) => copied_words(alloc, edit.cue, *number),
    }
}

// A cue that cannot come there.
fn no_place_by(alloc: Global, cue: CueNo, before: Option<CueNo>) -> Result<String, AllocError>
    ensures { IfOk result (λ text. string_bytes text ≡ words.no_place_by cue before) }
{
    let cue = cue_text(&cue);
    match before {
        None => Ok(String::new(alloc)),
        Some(before) => {
            let before = cue_text(&before);
            format!(in alloc;
                "cue {cue} cannot come before cue {before}: that is itself, or not in the file"
            )
        }
    }
}

// The place that cannot be.
fn no_place_words(alloc: Global, cue: CueNo, change: &Change) -> Result<String, AllocError>
    ensures { IfOk result (λ text. string_bytes text ≡ words.no_place_said cue change.now) }
{
    match change {
        Change::Before(before) => no_place_by(alloc, cue, *before),
        Change::Sign(_) | Change::Copy(_) => Ok(String::new(alloc)),
    }
}

// The number that is taken.
fn taken_words(alloc: Global, change: &Change) -> Result<String, AllocError>
    ensures { IfOk result (λ text. string_bytes text ≡ words.taken_said change.now) }
{
    match change {
        Change::Copy(number) => {
            let number = cue_text(number);
            format!(in alloc; "cue {number} is in the file already: take another number")
        }
        Change::Sign(_) | Change::Before(_) => Ok(String::new(alloc)),
    }
}

/// Why an edit is refused, as one line without its end. What the mistakes are is said apart.
pub fn refused_words(alloc: Global, edit: &Edit, fault: &EditFault) -> Result<String, AllocError>
    ensures { IfOk result (λ text. string_bytes text ≡ words.refused_said edit.now fault.now) }
{
    let cue = cue_text(&edit.cue);
    match fault {
        EditFault::NoCue => format!(in alloc; "cue {cue} is not in the file"),
        EditFault::NoPlace => no_place_words(alloc, edit.cue, &edit.change),
        EditFault::Taken => taken_words(alloc, &edit.change),
        EditFault::Mistakes(_) => String::from_str(
            alloc,
            "the changed file would have mistakes, and stays as it is",
        ),
        EditFault::Form => format!(in alloc;
            "cue {cue} has no header of its own, or a value of several lines: change it with an editor"
        ),
    }
}
