//! Which marks a page shows.
ghost use Rattle.std.specs.Prelude.{◌≡◌, IfOk};
ghost use Rattle.cue_curtain.specs.Shown as spec;

use cue_connection::CurtainMove;
use cue_page::board::CurtainMark;
use cue_report::marks::{Curtain, Mark, Marks};
use std::alloc::{AllocError, Global};

/// How long an evening is at most, in seconds: a mark that is older is of another one, and is not shown.
pub const EVENING: u64 = 43_200;

/// What a press of the page marks.
pub fn curtain_of(curtain: CurtainMove) -> Curtain
    ensures { result ≡ spec.curtain_of curtain }
{
    match curtain {
        CurtainMove::Up => Curtain::Up,
        CurtainMove::Down => Curtain::Down,
    }
}

// Whether a mark is of this evening, which is seen at this second.
fn is_of_evening(now: u64, mark: &Mark) -> bool
    ensures { result ≡ spec.is_of_evening now mark.now }
{
    mark.at <= now && now - mark.at <= EVENING
}

// The mark as the page has it.
fn page_mark(mark: &Mark) -> CurtainMark
    ensures { result ≡ spec.page_mark mark.now }
{
    let is_up = match mark.curtain {
        Curtain::Up => true,
        Curtain::Down => false,
    };
    CurtainMark { at: mark.at, is_up }
}

// The mark as the page has it, if it is of this evening.
fn shown_at(now: u64, mark: &Mark) -> Option<CurtainMark>
    ensures { result ≡ spec.shown_at now mark.now }
{
    if is_of_evening(now, mark) {
        Some(page_mark(mark))
    } else {
        None
    }
}

/// The marks that a page shows at this second since 1970, in the order of the file: those of the last half day.
pub fn shown(alloc: Global, marks: &[Mark], now: u64) -> Result<Vec<CurtainMark>, AllocError>
    ensures { IfOk result (λ shown. shown.items ≡ spec.shown_of now marks.now) }
{
    marks
        .iter()
        .filter_map(|mark| shown_at(now, mark))
        .collect(alloc)
}

/// The marks in the bytes of a file, in the order of its lines. A line that is none is counted; an empty line is not.
pub fn marks_in(alloc: Global, bytes: &[u8]) -> Result<Marks, AllocError> {
    let mut marks = Marks::new(alloc);
    for line in bytes.split(|byte| *byte == b'\n') {
        if !line.is_empty() {
            marks.read(line)?;
        }
    }
    Ok(marks)
}
