//! Which lines are said and printed of a load, and in what order.
ghost use Rattle.std.specs.Prelude.{◌≡◌, ◌++◌, ◌∷◌, [], IfOk, OnOk, not};
ghost use Rattle.cue_loading.specs.Loaded.{is_same};
ghost use Rattle.cue_load_words.specs.Telling as telling;

use crate::printed::{Kind, Printed};
use crate::said::Said;
use cue_desk::answered::Answered;
use cue_load_machine::{
    Counts, Entry, LoadEnd, Planned, count_answers, count_cues, count_devices, is_left,
};
use cue_loading::{Difference, differences};
use cue_show::{CueNo, Show};
use cue_show_file::Subject;
use std::alloc::{AllocError, Global};

// Puts a line after the others.
fn push<L: Copy>(lines: &mut Vec<L>, line: L) -> Result<(), AllocError>
    ensures { OnOk result (lines.new.items ≡ lines.old.items ++ line ∷ []) }
{
    lines.push(line)?;
    Ok(())
}

// ---- what became of entries

// Puts the line of an entry after the others, if it was refused.
fn push_refusal(
    lines: &mut Vec<Said>,
    subject: Subject,
    answered: Answered,
) -> Result<(), AllocError>
    ensures { OnOk result (lines.new.items ≡ lines.old.items ++ telling.refusal subject answered) }
{
    match answered {
        Answered::Refused(code) => push(lines, Said::Refused(subject, code)),
        Answered::Made | Answered::Known => Ok(()),
    }
}

// Puts the lines of these after the others.
fn push_refusals<E: Entry>(
    lines: &mut Vec<Said>,
    entries: &[E],
    answers: &[Answered],
) -> Result<(), AllocError>
    ensures { OnOk result (lines.new.items
        ≡ lines.old.items ++ telling.refusals E.called entries.now answers.now) }
{
    match entries {
        [] => Ok(()),
        [entry, entries @ ..] => match answers {
            [] => Ok(()),
            [answered, answers @ ..] => {
                push_refusal(lines, entry.subject(), *answered)?;
                push_refusals(lines, entries, answers)
            }
        },
    }
}

/// A line for each entry that was refused, in the order of the file: its number, and the code of the reply to it.
pub fn lines_of_refusals<E: Entry>(
    alloc: Global,
    entries: &[E],
    answers: &[Answered],
) -> Result<Vec<Said>, AllocError>
    ensures { IfOk result (λ lines. lines.items ≡ telling.refusals E.called entries.now answers.now) }
{
    let mut lines = Vec::new(alloc);
    push_refusals(&mut lines, entries, answers)?;
    Ok(lines)
}

/// The line that counts what the replies to the devices, or to the cues, of a file say.
pub fn added_line(kind: Kind, answers: &[Answered]) -> Printed
    ensures { result ≡ telling.added_line kind answers.now }
{
    Printed::Added(kind, count_answers(Counts::NONE, answers))
}

/// The line that counts what a plan made of the devices, or of the cues, of a file and of a store.
pub fn replaced_line(kind: Kind, is_exact: bool, file: &Show, stored: &Show) -> Printed
    ensures { result ≡ telling.replaced_line kind is_exact file.now stored.now }
{
    match kind {
        Kind::Devices => Printed::Replaced(kind, count_devices(is_exact, file, stored)),
        Kind::Cues => Printed::Replaced(kind, count_cues(is_exact, file, stored)),
    }
}

// ---- what became of a plan

/// The lines of a plan that is over, in the order in which they are said.
#[derive(Clone, Copy, Debug, PartialEq, Eq)]
pub struct PlanLines {
    /// Why it ended.
    pub why: Option<Said>,
    /// That something may have been taken away that is not back.
    pub not_whole: Option<Said>,
    /// Where the place was.
    pub place: Option<Said>,
}

// Why a plan ended, where it was at this step.
fn why_of(end: Option<LoadEnd>, subject: Option<Subject>) -> Option<Said>
    ensures { result ≡ telling.why end subject }
{
    match (end, subject) {
        (Some(LoadEnd::Refused { code, .. }), Some(subject)) => Some(Said::Refused(subject, code)),
        (Some(LoadEnd::Silent { .. }), Some(subject)) => Some(Said::Unanswered(subject)),
        (Some(LoadEnd::Nobody { .. }), Some(subject)) => Some(Said::Unanswered(subject)),
        (Some(LoadEnd::NotKept), _) => Some(Said::NotReplaced),
        _ => None,
    }
}

// Where the place was.
fn place_line(place: Option<CueNo>) -> Option<Said>
    ensures { result ≡ telling.place_line place }
{
    match place {
        Some(cue) => Some(Said::PlaceWas(cue)),
        None => None,
    }
}

// The lines of a plan that ended early.
fn lines_of_end(why: Option<Said>, is_open: bool, place: Option<CueNo>) -> PlanLines
    ensures { result ≡ telling.lines_of_end why is_open place }
{
    if is_open {
        PlanLines {
            why,
            not_whole: Some(Said::NotWhole),
            place: place_line(place),
        }
    } else {
        PlanLines {
            why,
            not_whole: None,
            place: None,
        }
    }
}

/// The lines of a plan that is over: none if it is done. Else why it ended, and, if something may have been taken away
/// that is not back, that the stack is not whole and where the place of the store was.
pub fn lines_of_plan(planned: &Planned, place: Option<CueNo>) -> PlanLines
    ensures { result ≡ telling.lines_of_plan planned.now place }
{
    match planned.machine.end() {
        Some(LoadEnd::Done) => lines_of_end(None, false, None),
        end => lines_of_end(why_of(end, planned.subject()), planned.is_open(), place),
    }
}

// ---- what differs

/// What a comparison of a store with its file came to.
#[derive(Drop)]
pub struct Comparison {
    pub lines: Vec<Said>,
    pub differs: bool,
}

// Puts the line of a difference after the others, unless the replies have told it.
fn push_difference(
    lines: &mut Vec<Said>,
    is_told: bool,
    difference: &Difference,
) -> Result<(), AllocError>
    ensures { OnOk result (lines.new.items ≡ lines.old.items ++ telling.difference is_told difference.now) }
{
    if is_told && cue_load_machine::is_refused(difference) {
        return Ok(());
    }
    push(lines, Said::Differs(*difference))
}

// Puts the lines of these after the others.
fn push_differences(
    lines: &mut Vec<Said>,
    is_told: bool,
    found: &[Difference],
) -> Result<(), AllocError>
    ensures { OnOk result (lines.new.items ≡ lines.old.items ++ telling.differences is_told found.now) }
{
    match found {
        [] => Ok(()),
        [first, rest @ ..] => {
            push_difference(lines, is_told, first)?;
            push_differences(lines, is_told, rest)
        }
    }
}

// Whether the store has one of these, and the file does not.
fn some_left(found: &[Difference]) -> bool
    ensures { result ≡ telling.some_left found.now }
{
    match found {
        [] => false,
        [first, rest @ ..] => is_left(first) || some_left(rest),
    }
}

// Whether one of these is not of that kind.
fn some_other(found: &[Difference]) -> bool
    ensures { result ≡ telling.some_other found.now }
{
    match found {
        [] => false,
        [first, rest @ ..] => !is_left(first) || some_other(rest),
    }
}

// Puts a line after the others, if it is to be said.
fn push_if(lines: &mut Vec<Said>, is_wanted: bool, line: Said) -> Result<(), AllocError>
    ensures { OnOk result (lines.new.items ≡ lines.old.items ++ telling.if_so is_wanted line) }
{
    if is_wanted {
        return push(lines, line);
    }
    Ok(())
}

// The lines of these differences: each of them, and what to do.
fn lines_of(alloc: Global, is_told: bool, found: &[Difference]) -> Result<Vec<Said>, AllocError>
    ensures { IfOk result (λ lines. lines.items ≡ telling.lines_of is_told found.now) }
{
    let mut lines = Vec::new(alloc);
    push_differences(&mut lines, is_told, found)?;
    push_if(&mut lines, some_other(found), Said::ToReplace)?;
    push_if(&mut lines, some_left(found), Said::ToRemove)?;
    Ok(lines)
}

/// Compares a store with its file. It differs unless it has exactly the devices of the file, with their ports, and the
/// stack of the file. `is_told` says that the replies have told already which entries are there and differ: these are
/// not named again.
pub fn compare(
    alloc: Global,
    is_told: bool,
    file: &Show,
    stored: &Show,
) -> Result<Comparison, AllocError>
    ensures differs { IfOk result (λ found. found.differs ≡ not (is_same file.now stored.now)) }
    ensures lines { IfOk result (λ found. telling.TellsDifferences is_told file.now stored.now found.lines.items) }
{
    let found = differences(alloc, file, stored)?;
    let lines = lines_of(alloc, is_told, &found)?;
    let differs = !found.is_empty();
    Ok(Comparison { lines, differs })
}
