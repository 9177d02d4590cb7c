//! The stack around the place.
ghost use Rattle.std.specs.Prelude.{◌≡◌, ◌++◌, IfOk, OnOk, map, string_bytes};
ghost use Rattle.cue_board.specs.Board as board;
ghost use Rattle.cue_board.specs.Board.{said_of};
ghost use Rattle.cue_board.specs.Names as called;

use crate::line::{BoardLine, push_spaces};
use crate::names::Names;
use crate::together::with_words;
use cue_show::CueNo;
use cue_show_file::{Group, cue_text, others_of};
use cue_view::view::{LiveAttempt, Next, View};
use std::alloc::{AllocError, Global};

/// How many cues are shown at most.
pub(crate) const SHOWN: usize = 9;

/// How many lines a board has beside cues, live attempts, the alarm, the last attempt and the network: the next cue,
/// its note, the heading of the stack, and the age.
const ALWAYS: usize = 4;

/// The column at which the name of a cue of the stack stands.
const NAME_AT: usize = 25;

// How many cues stand before this one.
fn cues_before(cue: CueNo, cues: &[CueNo]) -> usize
    ensures { result ≡ board.cues_before cue cues.now }
{
    let mut before = 0;
    for other in cues {
        if *other == cue {
            return before;
        }
        before += 1;
    }
    before
}

// How many stand before the place.
fn before_place(place: Option<CueNo>, cues: &[CueNo]) -> usize
    ensures { result ≡ board.before_place place cues.now }
{
    match place {
        Some(cue) => cues_before(cue, cues),
        None => 0,
    }
}

// So many cues around the place.
fn around(shown: usize, place: Option<CueNo>, cues: &[CueNo]) -> &[CueNo]
    ensures { result.now ≡ board.around shown place cues.now }
{
    let first = before_place(place, cues)
        .saturating_sub(shown / 3)
        .min(cues.len());
    let rest = &cues[first..];
    &rest[..shown.min(rest.len())]
}

// The lines that the live attempts leave of so many.
fn room_after(room: usize, live: &[LiveAttempt]) -> usize
    ensures { result ≡ board.room_after room live.now }
{
    let mut left = room;
    for attempt in live {
        left = left
            .saturating_sub(1)
            .saturating_sub(attempt.devices.as_slice().len());
    }
    left
}

// The same, with the line that nothing is stood by if there is none.
fn room_beside_live(room: usize, live: &[LiveAttempt]) -> usize
    ensures { result ≡ board.room_beside_live room live.now }
{
    match live {
        [] => room.saturating_sub(1),
        _ => room_after(room, live),
    }
}

/// How many cues have room beside the live attempts, if a board has so many lines.
pub(crate) fn cues_within(room: usize, live: &[LiveAttempt]) -> usize
    ensures { result ≡ board.cues_within room live.now }
{
    let left = room_beside_live(room.saturating_sub(ALWAYS), live);
    if left >= SHOWN { SHOWN } else { left }
}

// What is said of the cue that is next.
#[tactic(auto, unfolding(crate::specs::Board::next_said))]
fn next_said(alloc: Global, next: Next, groups: &[Group]) -> Result<String, AllocError>
    ensures { IfOk result (λ text. string_bytes text ≡ board.next_said groups.now next) }
{
    match next {
        Next::Cue(cue) => {
            let with = with_words(alloc, others_of(groups, cue))?;
            let (cue, with) = (cue_text(&cue), with.as_str());
            Ok(format!(in alloc; "NEXT   cue {cue}{with}")?)
        }
        Next::Empty => String::from_str(alloc, "NEXT   the stack has no cue"),
        Next::End => String::from_str(alloc, "NEXT   no cue: the stack is at its end"),
        Next::Unknown => String::from_str(alloc, "NEXT   not known: move to a cue"),
    }
}

// What the file calls the cue that is next, and what it notes there.
fn next_texts<'a>(next: Next, names: &Names<'a>) -> (&'a str, &'a str)
    ensures name { result.0.now ≡ called.next_name names.now next }
    ensures note { result.1.now ≡ called.next_note names.now next }
{
    match next {
        Next::Cue(cue) => (names.cue_name(cue), names.cue_note(cue)),
        Next::Empty | Next::End | Next::Unknown => ("", ""),
    }
}

// The line of the next cue.
fn next_line(
    alloc: Global,
    next: Next,
    groups: &[Group],
    name: &str,
) -> Result<BoardLine, AllocError>
    ensures { IfOk result (λ line. said_of line ≡ board.next_said groups.now next) }
{
    let said = next_said(alloc, next, groups)?;
    let mut rest = String::from_str(alloc, "  ")?;
    rest.push_str(name)?;
    BoardLine::with_rest(alloc, said, rest.as_str())
}

// A cue of the stack, with a mark if it is the place.
#[tactic(auto, unfolding(crate::specs::Board::cue_said))]
fn cue_said(alloc: Global, place: Option<CueNo>, cue: CueNo) -> Result<String, AllocError>
    ensures { IfOk result (λ text. string_bytes text ≡ board.cue_said place cue) }
{
    let number = cue_text(&cue);
    if place == Some(cue) {
        Ok(format!(in alloc; " -->   {number}")?)
    } else {
        Ok(format!(in alloc; "       {number}")?)
    }
}

// The line of a cue of the stack.
fn cue_line(
    alloc: Global,
    place: Option<CueNo>,
    cue: CueNo,
    names: &Names<'_>,
) -> Result<BoardLine, AllocError>
    ensures { IfOk result (λ line. said_of line ≡ board.cue_said place cue) }
{
    let said = cue_said(alloc, place, cue)?;
    let mut rest = String::new(alloc);
    push_spaces(&mut rest, NAME_AT.saturating_sub(said.len()))?;
    rest.push_str(names.cue_name(cue))?;
    BoardLine::with_rest(alloc, said, rest.as_str())
}

// Puts the line of each cue after the lines.
fn push_cues(
    alloc: Global,
    lines: &mut Vec<BoardLine>,
    place: Option<CueNo>,
    cues: &[CueNo],
    names: &Names<'_>,
) -> Result<(), AllocError>
    ensures { OnOk result
        (map said_of lines.new.items ≡ map said_of lines.old.items ++ map (board.cue_said place) cues.now) }
{
    for cue in cues {
        lines.push(cue_line(alloc, place, *cue, names)?)?;
    }
    Ok(())
}

/// Puts the next cue, its note and so many cues around the place after the lines.
pub(crate) fn push_stack(
    alloc: Global,
    lines: &mut Vec<BoardLine>,
    view: &View,
    names: &Names<'_>,
    shown: usize,
) -> Result<(), AllocError>
    ensures { OnOk result
        (map said_of lines.new.items
        ≡ map said_of lines.old.items ++ board.stack_said shown names.now.together.now view.now) }
{
    let (name, note) = next_texts(view.next, names);
    lines.push(next_line(alloc, view.next, names.together, name)?)?;
    let margin = String::from_str(alloc, "       ")?;
    lines.push(BoardLine::with_rest(alloc, margin, note)?)?;
    lines.push(BoardLine::bare(alloc, String::from_str(alloc, "STACK")?))?;
    let cues = around(shown, view.place, &view.stack);
    push_cues(alloc, lines, view.place, cues, names)
}
