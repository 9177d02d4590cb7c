//! How an attempt ended, and a line for each of its devices that failed or that it went without.
ghost use Rattle.std.specs.Prelude.{◌≡◌, ◌-◌, ◌++◌, IfOk, OnOk, map, string_bytes};
ghost use Rattle.std.specs.List.{flat_map};
ghost use Rattle.cue_board.specs.Ends as ends;
ghost use Rattle.cue_board.specs.Board.{said_of};

use crate::claims::{count_said, push_says};
use crate::line::BoardLine;
use crate::names::Names;
use cue_columns::fitted;
use cue_exchange::{Outcome, Reason};
use cue_show::DeviceNo;
use cue_show_file::cue_text;
use cue_view::view::{Contacted, Told};
use cue_words::{outcome_words, reason_words};
use std::alloc::{AllocError, Global};

/// The room of a name within a line, in columns.
const NAME: usize = 28;

// A space and a name, as much of it as has room; nothing if there is none.
fn name_after(alloc: Global, name: &str) -> Result<String, AllocError>
    ensures { IfOk result (λ text. string_bytes text ≡ ends.name_after name.now) }
{
    if name.is_empty() {
        return Ok(String::new(alloc));
    }
    let name = fitted(alloc, name, NAME)?;
    let name = name.as_str();
    format!(in alloc; " {name}")
}

// A device with its name, after these words.
#[tactic(auto, unfolding(crate::specs::Ends::device_words))]
fn device_words(
    alloc: Global,
    words: &str,
    device: DeviceNo,
    names: &Names<'_>,
) -> Result<String, AllocError>
    ensures { IfOk result (λ text. string_bytes text ≡ ends.device_words names.now words.now device) }
{
    let name = name_after(alloc, names.device_name(device))?;
    let (number, name) = (device.number(), name.as_str());
    format!(in alloc; "{words} {number}{name}")
}

// What a device did that failed. After a GO one that was released failed, too: the store does not say which it was.
fn did_words(outcome: Outcome) -> &'static str
    ensures { result.now ≡ ends.did_words outcome }
{
    match outcome {
        Outcome::Failed => " aborted or released",
        Outcome::Cancelled | Outcome::Complete => " aborted",
    }
}

// Why it was given up; nothing if it was not.
fn why(alloc: Global, reason: Option<Reason>) -> Result<String, AllocError>
    ensures { IfOk result (λ text. string_bytes text ≡ ends.why reason) }
{
    match reason {
        Some(reason) => {
            let words = reason_words(reason);
            format!(in alloc; ": {words}")
        }
        None => Ok(String::new(alloc)),
    }
}

// The outcome, and why it was given up.
fn end_front(alloc: Global, told: &Told) -> Result<String, AllocError>
    ensures { IfOk result (λ text. string_bytes text ≡ ends.end_front told.now) }
{
    let outcome = outcome_words(told.outcome);
    let why = why(alloc, told.reason)?;
    let why = why.as_str();
    format!(in alloc; "{outcome}{why}")
}

// Which attempt ended: its cue with its name, or its number if the cue is not known any more.
#[tactic(auto, unfolding(crate::specs::Ends::last_front))]
fn last_front(alloc: Global, told: &Told, names: &Names<'_>) -> Result<String, AllocError>
    ensures { IfOk result (λ text. string_bytes text ≡ ends.last_front names.now told.now) }
{
    match told.cue {
        Some(cue) => {
            let name = name_after(alloc, names.cue_name(cue))?;
            let (cue, name) = (cue_text(&cue), name.as_str());
            format!(in alloc; "LAST   cue {cue}{name}")
        }
        None => {
            let seq = told.seq;
            format!(in alloc; "LAST   attempt {seq}")
        }
    }
}

// Which attempt ended, and how.
#[tactic(auto, unfolding(crate::specs::Ends::told_said))]
fn told_said(alloc: Global, told: &Told, names: &Names<'_>) -> Result<String, AllocError>
    ensures { IfOk result (λ text. string_bytes text ≡ ends.told_said names.now told.now) }
{
    let front = last_front(alloc, told, names)?;
    let end = end_front(alloc, told)?;
    let (front, end) = (front.as_str(), end.as_str());
    format!(in alloc; "{front}: {end}")
}

// The line of a device that failed.
#[tactic(auto, unfolding(crate::specs::Ends::failed_said))]
fn failed_line(
    alloc: Global,
    outcome: Outcome,
    device: DeviceNo,
    names: &Names<'_>,
) -> Result<BoardLine, AllocError>
    ensures { IfOk result (λ line. said_of line ≡ ends.failed_said names.now outcome device) }
{
    let mut said = device_words(alloc, "       device", device, names)?;
    said.push_str(did_words(outcome))?;
    Ok(BoardLine::bare(alloc, said))
}

// Puts the line of a device that failed after the lines, and why it did, if it says so.
fn push_one_failed(
    alloc: Global,
    lines: &mut Vec<BoardLine>,
    told: &Told,
    device: DeviceNo,
    names: &Names<'_>,
    network: &[Contacted],
) -> Result<(), AllocError>
    ensures { OnOk result (map said_of lines.new.items
        ≡ map said_of lines.old.items ++ ends.failed_lines names.now network.now told.now device) }
{
    lines.push(failed_line(alloc, told.outcome, device, names)?)?;
    push_says(alloc, lines, network, told.seq, device)
}

// Puts the lines of each device that failed after the lines.
fn push_failed(
    alloc: Global,
    lines: &mut Vec<BoardLine>,
    told: &Told,
    names: &Names<'_>,
    network: &[Contacted],
) -> Result<(), AllocError>
    ensures { OnOk result (map said_of lines.new.items ≡ map said_of lines.old.items
        ++ flat_map (ends.failed_lines names.now network.now told.now) told.now.failed) }
{
    for device in told.failed.as_slice() {
        push_one_failed(alloc, lines, told, *device, names, network)?;
    }
    Ok(())
}

// The line of a device that the cue went without.
fn excused_line(alloc: Global, device: DeviceNo, names: &Names<'_>) -> Result<BoardLine, AllocError>
    ensures { IfOk result (λ line. said_of line ≡ ends.excused_said names.now device) }
{
    let said = device_words(alloc, "       without device", device, names)?;
    Ok(BoardLine::bare(alloc, said))
}

// Puts the line of each of these after the lines.
fn push_excused(
    alloc: Global,
    lines: &mut Vec<BoardLine>,
    devices: &[DeviceNo],
    names: &Names<'_>,
) -> Result<(), AllocError>
    ensures { OnOk result (map said_of lines.new.items
        ≡ map said_of lines.old.items ++ map (ends.excused_said names.now) devices.now) }
{
    for device in devices {
        lines.push(excused_line(alloc, *device, names)?)?;
    }
    Ok(())
}

// Puts an attempt that ended after the lines: which one it is, and how it ended; then each device that failed, with why
// if it says so, and each that it went without.
fn push_told(
    alloc: Global,
    lines: &mut Vec<BoardLine>,
    told: &Told,
    names: &Names<'_>,
    network: &[Contacted],
) -> Result<(), AllocError>
    ensures { OnOk result (map said_of lines.new.items
        ≡ map said_of lines.old.items ++ ends.told_lines names.now network.now told.now) }
{
    let said = told_said(alloc, told, names)?;
    lines.push(BoardLine::bare(alloc, said))?;
    push_failed(alloc, lines, told, names, network)?;
    push_excused(alloc, lines, told.excused.as_slice(), names)
}

// The line that none has ended.
#[tactic(auto, unfolding(crate::specs::Ends::none_said))]
fn none_line(alloc: Global) -> Result<BoardLine, AllocError>
    ensures { IfOk result (λ line. said_of line ≡ ends.none_said) }
{
    let said = String::from_str(alloc, "LAST   no attempt has ended yet")?;
    Ok(BoardLine::bare(alloc, said))
}

/// Puts the attempt that ended last after the lines.
pub(crate) fn push_last(
    alloc: Global,
    lines: &mut Vec<BoardLine>,
    last: &Option<Told>,
    names: &Names<'_>,
    network: &[Contacted],
) -> Result<(), AllocError>
    ensures { OnOk result (map said_of lines.new.items
        ≡ map said_of lines.old.items ++ ends.last_said names.now network.now last.now) }
{
    match last {
        Some(told) => push_told(alloc, lines, told, names, network),
        None => {
            lines.push(none_line(alloc)?)?;
            Ok(())
        }
    }
}

/// What that leaves of so many lines.
pub(crate) fn room_beside_last(room: usize, last: &Option<Told>, network: &[Contacted]) -> usize
    ensures { result ≡ room - ends.last_takes network.now last.now }
{
    let left = room.saturating_sub(1);
    match last {
        Some(told) => left
            .saturating_sub(told.failed.as_slice().len())
            .saturating_sub(count_said(network, told.seq, told.failed.as_slice()))
            .saturating_sub(told.excused.as_slice().len()),
        None => left,
    }
}
