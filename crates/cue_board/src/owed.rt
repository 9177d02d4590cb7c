//! What may move by itself once what is missing is back: a cue that was given stays so while the controller or the
//! relay has stopped, and its devices get GO as soon as that has started again. Some may have had it before.
ghost use Rattle.std.specs.Prelude.{◌≡◌, ◌++◌, IfOk, OnOk, count_by, map, string_bytes};
ghost use Rattle.std.specs.List.{flat_map};
ghost use Rattle.cue_exchange.specs.Answers as answers;
ghost use Rattle.cue_board.specs.Board as board;
ghost use Rattle.cue_board.specs.Board.{said_of};

use crate::brief::numbers_of;
use crate::line::BoardLine;
use cue_exchange::{Answer, DeviceAnswer};
use cue_show_file::cue_text;
use cue_view::view::{Alarm, LiveAttempt};
use std::alloc::{AllocError, Global};

/// Whether no order reaches a device while there is this alarm.
pub(crate) fn holds_back(alarm: &Alarm) -> bool
    ensures { result ≡ board.holds_back alarm.now }
{
    match alarm {
        Alarm::NobodyListens | Alarm::Silent(_) | Alarm::RelayStopped(_) => true,
        Alarm::OtherStore(_) | Alarm::NotShown(_) | Alarm::Unread(_) | Alarm::Old(_) => false,
        Alarm::ClockPutBack(_) | Alarm::Failed(_) | Alarm::DeviceSilent(_) => false,
    }
}

// Whether a device has not answered.
fn some_waits(all: &[DeviceAnswer]) -> bool
    ensures { result ≡ answers.some_waits all.now }
{
    all.iter().any(|one| one.answer.is_waiting())
}

// Whether the cue was given, and waits for a device.
fn is_owed(attempt: &LiveAttempt) -> bool
    ensures { result ≡ board.is_owed attempt.now }
{
    attempt.stage.is_decided() && some_waits(attempt.devices.as_slice())
}

// That a cue may move these devices.
#[tactic(auto, unfolding(crate::specs::Board::owed_text))]
fn owed_text(alloc: Global, cue: &str, numbers: &str) -> Result<String, AllocError>
    ensures { IfOk result (λ text. string_bytes text ≡ board.owed_text cue.now numbers.now) }
{
    Ok(format!(in alloc; "OWED   once back, cue {cue} may move device{numbers}")?)
}

// What a cue may move.
#[tactic(auto, unfolding(crate::specs::Board::owed_words))]
fn owed_words(alloc: Global, attempt: &LiveAttempt) -> Result<String, AllocError>
    ensures { IfOk result (λ text. string_bytes text ≡ board.owed_words attempt.now) }
{
    let numbers = numbers_of(alloc, Answer::Waiting, attempt.devices.as_slice())?;
    let text = owed_text(alloc, cue_text(&attempt.cue), numbers.as_str())?;
    Ok(text)
}

// Puts the line of a cue that was given after the lines, if it waits for a device.
#[tactic(auto, unfolding(crate::specs::Board::owed_line))]
fn push_one(
    alloc: Global,
    lines: &mut Vec<BoardLine>,
    attempt: &LiveAttempt,
) -> Result<(), AllocError>
    ensures { OnOk result
        (map said_of lines.new.items ≡ map said_of lines.old.items ++ board.owed_line attempt.now) }
{
    if is_owed(attempt) {
        let said = owed_words(alloc, attempt)?;
        lines.push(BoardLine::bare(alloc, said))?;
    }
    Ok(())
}

// Puts the line of each of them after the lines.
fn push_each(
    alloc: Global,
    lines: &mut Vec<BoardLine>,
    live: &[LiveAttempt],
) -> Result<(), AllocError>
    ensures { OnOk result
        (map said_of lines.new.items ≡ map said_of lines.old.items ++ flat_map board.owed_line live.now) }
{
    for attempt in live {
        push_one(alloc, lines, attempt)?;
    }
    Ok(())
}

/// Puts what moves by itself once the alarm is over after the lines.
pub(crate) fn push_owed(
    alloc: Global,
    lines: &mut Vec<BoardLine>,
    alarm: &Alarm,
    live: &[LiveAttempt],
) -> Result<(), AllocError>
    ensures { OnOk result
        (map said_of lines.new.items ≡ map said_of lines.old.items ++ board.owed_said alarm.now live.now) }
{
    if holds_back(alarm) {
        push_each(alloc, lines, live)?;
    }
    Ok(())
}

// How many cues were given, and wait for a device.
fn count_owed(live: &[LiveAttempt]) -> usize
    ensures { result ≡ count_by board.is_owed live.now }
{
    live.iter().filter(|attempt| is_owed(attempt)).count()
}

/// How many lines that takes: one for each cue that was given and waits for a device.
pub(crate) fn owed_takes(alarm: &Alarm, live: &[LiveAttempt]) -> usize
    ensures { result ≡ board.owed_takes alarm.now live.now }
{
    if holds_back(alarm) {
        count_owed(live)
    } else {
        0
    }
}
