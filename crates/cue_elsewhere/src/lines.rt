//! The devices that stand elsewhere, each on a line of a board.
ghost use Rattle.std.specs.Prelude.{◌≡◌, ◌++◌, IfOk, OnOk, count_by, map, string_bytes};
ghost use Rattle.cue_columns.specs.Columns.{AreFit};
ghost use Rattle.cue_elsewhere.specs.Lines as lines;

use crate::words::{last_words, part_words};
use cue_board::Names;
use cue_columns::{COLUMNS, fitted};
use cue_show_file::cue_text;
use cue_whereabouts::{Difference, LastPart, PartBytes};
use std::alloc::{AllocError, Global};

// What is so of a device: its last part, and the cue that the stack supposes to be its last.
#[tactic(auto, unfolding(crate::specs::Lines::said))]
fn said(alloc: Global, difference: &Difference, last: &LastPart) -> Result<String, AllocError>
    ensures { IfOk result (λ text. string_bytes text
        ≡ lines.said difference.now.device last.now difference.now.supposed) }
{
    let last = last_words(alloc, last)?;
    let (device, last) = (difference.device.number(), last.as_str());
    let supposed = cue_text(&difference.supposed);
    Ok(format!(in alloc; "STANDS elsewhere: device {device}, {last}, supposed cue {supposed}")?)
}

// A text apart from what stands before it; nothing if it is empty.
fn apart(alloc: Global, text: &str) -> Result<String, AllocError>
    ensures { IfOk result (λ made. string_bytes made ≡ lines.apart text.now) }
{
    if text.is_empty() {
        return Ok(String::new(alloc));
    }
    format!(in alloc; "  {text}")
}

// The bytes of the last part, if they are known.
fn part_or_none(alloc: Global, bytes: Option<PartBytes>) -> Result<String, AllocError>
    ensures { IfOk result (λ text. string_bytes text ≡ lines.part_or_none bytes) }
{
    match bytes {
        Some(bytes) => part_words(alloc, bytes),
        None => Ok(String::new(alloc)),
    }
}

// What the file calls the device, and the bytes of its last part.
#[tactic(auto, unfolding(crate::specs::Lines::beside))]
fn beside(
    alloc: Global,
    difference: &Difference,
    last: &LastPart,
    names: &Names<'_>,
) -> Result<String, AllocError>
    ensures { IfOk result (λ text. string_bytes text
        ≡ lines.beside names.now difference.now.device last.now.bytes) }
{
    let name = apart(alloc, names.device_name(difference.device))?;
    let part = part_or_none(alloc, last.bytes())?;
    let part = apart(alloc, part.as_str())?;
    let (name, part) = (name.as_str(), part.as_str());
    Ok(format!(in alloc; "{name}{part}")?)
}

// The line of a device.
fn line_text(
    alloc: Global,
    difference: &Difference,
    last: &LastPart,
    names: &Names<'_>,
) -> Result<String, AllocError>
    ensures { IfOk result (λ text. string_bytes text ≡ lines.line_text names.now difference.now last.now) }
{
    let said = said(alloc, difference, last)?;
    let beside = beside(alloc, difference, last, names)?;
    let (said, beside) = (said.as_str(), beside.as_str());
    Ok(format!(in alloc; "{said}{beside}")?)
}

// Puts the line of a device after the others, if something was heard of it.
fn push_one(
    alloc: Global,
    all: &mut Vec<String>,
    difference: &Difference,
    names: &Names<'_>,
) -> Result<(), AllocError>
    ensures { OnOk result (map string_bytes all.new.items
        ≡ map string_bytes all.old.items ++ lines.line_of names.now difference.now) }
{
    if let Some(last) = &difference.last {
        let line = line_text(alloc, difference, last, names)?;
        all.push(line)?;
    }
    Ok(())
}

// The line of each device of which something was heard.
fn each_line(
    alloc: Global,
    differences: &[Difference],
    names: &Names<'_>,
) -> Result<Vec<String>, AllocError>
    ensures { IfOk result (λ all. map string_bytes all.items ≡ lines.each_line names.now differences.now) }
{
    let mut all = Vec::new(alloc);
    for difference in differences {
        push_one(alloc, &mut all, difference, names)?;
    }
    Ok(all)
}

// How many of so many lines have room: all of them, or all but one that says how many are left.
fn named_in(room: Option<usize>, count: usize) -> usize
    ensures { result ≡ lines.named_in room count }
{
    match room {
        Some(room) => {
            if count <= room {
                count
            } else {
                room.saturating_sub(1)
            }
        }
        None => count,
    }
}

// Puts a line after the others that says how many more devices stand elsewhere, if some do.
fn push_left(alloc: Global, all: &mut Vec<String>, left: usize) -> Result<(), AllocError>
    ensures { OnOk result (map string_bytes all.new.items ≡ map string_bytes all.old.items ++ lines.left_line left) }
{
    if left > 0 {
        let line = format!(in alloc; "STANDS elsewhere: and {left} more")?;
        all.push(line)?;
    }
    Ok(())
}

// As many of the lines as have room, and after them how many are left.
#[tactic(auto, using(crate::proofs::CountLemmas::cut_made))]
fn cut(alloc: Global, all: &mut Vec<String>, room: Option<usize>) -> Result<(), AllocError>
    ensures { OnOk result (map string_bytes all.new.items ≡ lines.cut room (map string_bytes all.old.items)) }
{
    let count = all.len();
    let named = named_in(room, count);
    all.truncate(named);
    push_left(alloc, all, count.saturating_sub(named))
}

// Of how many devices nothing was heard.
fn count_unheard(differences: &[Difference]) -> usize
    ensures { result ≡ count_by lines.is_unheard differences.now }
{
    differences
        .iter()
        .filter(|difference| !difference.is_elsewhere())
        .count()
}

// Puts a line after the others that says of how many devices nothing was heard, if there are such.
fn push_unheard(alloc: Global, all: &mut Vec<String>, count: usize) -> Result<(), AllocError>
    ensures { OnOk result
        (map string_bytes all.new.items ≡ map string_bytes all.old.items ++ lines.unheard_line count) }
{
    if count > 0 {
        let line = format!(in alloc;
            "STANDS unknown: devices of which nothing was heard: {count}"
        )?;
        all.push(line)?;
    }
    Ok(())
}

// All that is said of the devices, whether it fits into its line or not.
fn texts_in(
    alloc: Global,
    differences: &[Difference],
    names: &Names<'_>,
    room: Option<usize>,
) -> Result<Vec<String>, AllocError>
    ensures { IfOk result (λ all. map string_bytes all.items ≡ lines.texts_in names.now room differences.now) }
{
    let mut all = each_line(alloc, differences, names)?;
    cut(alloc, &mut all, room)?;
    push_unheard(alloc, &mut all, count_unheard(differences))?;
    Ok(all)
}

// As much of each text as fits into a line.
#[tactic(auto, using(cue_columns::proofs::ColumnLemmas::are_fit_push))]
fn fitted_each(alloc: Global, texts: &[String]) -> Result<Vec<String>, AllocError>
    ensures value { IfOk result (λ all. map string_bytes all.items
        ≡ map lines.fit_text (map string_bytes texts.now)) }
    ensures fit { IfOk result (λ all. AreFit all.items) }
{
    let mut all = Vec::new(alloc);
    for text in texts {
        all.push(fitted(alloc, text.as_str(), COLUMNS)?)?;
    }
    Ok(all)
}

/// The devices that stand elsewhere than the stack supposes, each on a line: which part ended last and which cue the
/// stack supposes to be the last, then what the show file calls the device, and the bytes of that part. What does not
/// fit into a line is cut off at its end. After them stands of how many devices nothing was heard, if there are such.
///
/// `room` is how many of these devices have room; none: as many as there are. If there are more, the last of these
/// lines says how many are left. What is said of those of which nothing was heard takes a line beside them.
pub fn elsewhere_lines(
    alloc: Global,
    differences: &[Difference],
    names: &Names<'_>,
    room: Option<usize>,
) -> Result<Vec<String>, AllocError>
    ensures said { IfOk result (λ all. map string_bytes all.items
        ≡ map lines.fit_text (lines.texts_in names.now room differences.now)) }
    ensures fit { IfOk result (λ all. AreFit all.items) }
{
    let texts = texts_in(alloc, differences, names, room)?;
    fitted_each(alloc, &texts)
}
