//! The live attempts, and what each of their devices has answered.
ghost use Rattle.std.specs.Prelude.{◌≡◌, ◌++◌, IfOk, OnOk, map, string_bytes};
ghost use Rattle.std.specs.List.{flat_map};
ghost use Rattle.cue_board.specs.Board as board;
ghost use Rattle.cue_board.specs.Board.{said_of};
ghost use Rattle.cue_board.specs.Progress.{progress_of};
ghost use Rattle.cue_view.specs.Sight.{is_in_sight};

use crate::line::{BoardLine, push_spaces};
use crate::names::Names;
use crate::progress::{Progress, progress_of};
use crate::times::seconds;
use cue_exchange::DeviceAnswer;
use cue_show_file::cue_text;
use cue_view::view::{LiveAttempt, View};
use cue_words::{answer_words, reason_words};
use std::alloc::{AllocError, Global};

/// The column at which the line of a device says whether it is optional.
const NAME_AT: usize = 30;

// Whether GO can be given for an attempt that prepares.
fn readiness(progress: Progress) -> &'static str
    ensures { result.now ≡ board.readiness progress }
{
    match progress {
        Progress::Ready => "ready, GO can be given",
        Progress::Held => "held, GO is dark",
        _ => "preparing",
    }
}

// An attempt that prepares, with what is left of its ten seconds.
fn preparing_at(alloc: Global, progress: Progress, left: u64) -> Result<String, AllocError>
    ensures { IfOk result (λ text. string_bytes text ≡ board.preparing_at progress left) }
{
    let words = readiness(progress);
    let left = seconds(alloc, left)?;
    let left = left.as_str();
    Ok(format!(in alloc; "{words}, {left} s left")?)
}

// An attempt that was given, and since when that is seen.
fn given_at(alloc: Global, at: u64, given: Option<u64>) -> Result<String, AllocError>
    ensures { IfOk result (λ text. string_bytes text ≡ board.given_at at given) }
{
    match given {
        Some(given) => {
            let ago = seconds(alloc, at.saturating_sub(given))?;
            let ago = ago.as_str();
            Ok(format!(in alloc; "given, at least {ago} s ago")?)
        }
        None => String::from_str(alloc, "given"),
    }
}

// How far an attempt has come at this moment.
fn stage_at(alloc: Global, attempt: &LiveAttempt, view: &View) -> Result<String, AllocError>
    ensures { IfOk result (λ text. string_bytes text
        ≡ board.stage_at view.now.at attempt.now (progress_of (is_in_sight view.now) attempt.now)) }
{
    let progress = progress_of(attempt, view.is_in_sight());
    match progress {
        Progress::Ready | Progress::Held | Progress::Preparing => preparing_at(
            alloc,
            progress,
            attempt.left,
        ),
        Progress::Over => String::from_str(alloc, "its ten seconds are over"),
        Progress::Unseen => String::from_str(alloc, "was preparing when this was read"),
        Progress::Given => given_at(alloc, view.at, attempt.given),
        Progress::GivenUp(reason) => {
            let words = reason_words(reason);
            Ok(format!(in alloc; "given up: {words}")?)
        }
    }
}

/// The line of an attempt.
#[tactic(auto, unfolding(crate::specs::Board::attempt_said))]
pub(crate) fn attempt_line(
    alloc: Global,
    attempt: &LiveAttempt,
    view: &View,
) -> Result<BoardLine, AllocError>
    ensures { IfOk result (λ line. said_of line ≡ board.attempt_said view.now attempt.now) }
{
    let cue = cue_text(&attempt.cue);
    let seq = attempt.seq;
    let stage = stage_at(alloc, attempt, view)?;
    let stage = stage.as_str();
    let said = format!(in alloc; "LIVE   cue {cue}, attempt {seq}: {stage}")?;
    Ok(BoardLine::bare(alloc, said))
}

// Whether the cue may go without the device.
fn kind_words(optional: bool) -> &'static str
    ensures { result.now ≡ board.kind_words optional }
{
    if optional { "optional  " } else { "          " }
}

// Which device it is, and what it has answered.
fn device_answered(alloc: Global, answer: &DeviceAnswer) -> Result<String, AllocError>
    ensures { IfOk result (λ text. string_bytes text ≡ board.device_answered answer.now) }
{
    let device = answer.device.number();
    let words = answer_words(answer.answer);
    Ok(format!(in alloc; "         device {device}: {words}")?)
}

// The same, and whether it is optional.
#[tactic(auto, unfolding(crate::specs::Board::device_said))]
fn device_said(alloc: Global, answer: &DeviceAnswer) -> Result<String, AllocError>
    ensures { IfOk result (λ text. string_bytes text ≡ board.device_said answer.now) }
{
    let mut said = device_answered(alloc, answer)?;
    let missing = NAME_AT.saturating_sub(said.len());
    push_spaces(&mut said, missing)?;
    said.push_str(kind_words(answer.optional))?;
    Ok(said)
}

// The line of a device.
fn device_line(
    alloc: Global,
    names: &Names<'_>,
    answer: &DeviceAnswer,
) -> Result<BoardLine, AllocError>
    ensures { IfOk result (λ line. said_of line ≡ board.device_said answer.now) }
{
    let said = device_said(alloc, answer)?;
    BoardLine::with_rest(alloc, said, names.device_name(answer.device))
}

// Puts the line of each device after the lines.
fn push_devices(
    alloc: Global,
    lines: &mut Vec<BoardLine>,
    answers: &[DeviceAnswer],
    names: &Names<'_>,
) -> Result<(), AllocError>
    ensures { OnOk result
        (map said_of lines.new.items ≡ map said_of lines.old.items ++ map board.device_said answers.now) }
{
    for answer in answers {
        lines.push(device_line(alloc, names, answer)?)?;
    }
    Ok(())
}

// Puts an attempt with its devices after the lines.
fn push_attempt(
    alloc: Global,
    lines: &mut Vec<BoardLine>,
    attempt: &LiveAttempt,
    names: &Names<'_>,
    view: &View,
) -> Result<(), AllocError>
    ensures { OnOk result
        (map said_of lines.new.items ≡ map said_of lines.old.items ++ board.attempt_lines view.now attempt.now) }
{
    lines.push(attempt_line(alloc, attempt, view)?)?;
    push_devices(alloc, lines, attempt.devices.as_slice(), names)
}

// Puts each attempt with its devices after the lines.
fn push_attempts(
    alloc: Global,
    lines: &mut Vec<BoardLine>,
    live: &[LiveAttempt],
    names: &Names<'_>,
    view: &View,
) -> Result<(), AllocError>
    ensures { OnOk result (map said_of lines.new.items
        ≡ map said_of lines.old.items ++ flat_map (board.attempt_lines view.now) live.now) }
{
    for attempt in live {
        push_attempt(alloc, lines, attempt, names, view)?;
    }
    Ok(())
}

/// Puts each live attempt of the view with its devices after the lines.
pub(crate) fn push_live(
    alloc: Global,
    lines: &mut Vec<BoardLine>,
    live: &[LiveAttempt],
    names: &Names<'_>,
    view: &View,
) -> Result<(), AllocError>
    ensures { OnOk result
        (map said_of lines.new.items ≡ map said_of lines.old.items ++ board.live_said view.now live.now) }
{
    match live {
        [] => {
            let said = String::from_str(alloc, "LIVE   nothing is stood by")?;
            lines.push(BoardLine::bare(alloc, said))?;
            Ok(())
        }
        _ => push_attempts(alloc, lines, live, names, view),
    }
}
