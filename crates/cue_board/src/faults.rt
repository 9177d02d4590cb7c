//! What goes wrong in a live attempt, in words.
ghost use Rattle.std.specs.Prelude.{◌≡◌, IfOk, string_bytes};
ghost use Rattle.std.specs.Option.{option_copied};
ghost use Rattle.cue_board.specs.Board as board;

use crate::alarms::alarm_words;
use crate::brief::numbers_of;
use cue_exchange::{Answer, DeviceAnswer, Stage};
use cue_show_file::cue_text;
use cue_view::view::{Alarm, LiveAttempt, View};
use cue_words::reason_words;
use std::alloc::{AllocError, Global};

/// The attempt, if it is live.
pub(crate) fn live_of(seq: u32, live: &[LiveAttempt]) -> Option<&LiveAttempt>
    ensures { option_copied result ≡ board.live_of seq live.now }
{
    live.iter().find(|attempt| attempt.seq == seq)
}

// What goes wrong in an attempt at this stage.
fn fault_at(alloc: Global, stage: Stage) -> Result<String, AllocError>
    ensures { IfOk result (λ text. string_bytes text ≡ board.fault_at stage) }
{
    match stage {
        Stage::Preparing => String::from_str(alloc, " prepares"),
        Stage::Decided => String::from_str(alloc, " fails"),
        Stage::Cancelling(reason) => {
            let words = reason_words(reason);
            Ok(format!(in alloc; " lost its standby: {words}")?)
        }
    }
}

// The devices that failed.
fn failed_devices(alloc: Global, answers: &[DeviceAnswer]) -> Result<String, AllocError>
    ensures { IfOk result (λ text. string_bytes text ≡ board.failed_devices answers.now) }
{
    let numbers = numbers_of(alloc, Answer::Failed, answers)?;
    if numbers.is_empty() {
        return Ok(String::new(alloc));
    }
    let numbers = numbers.as_str();
    Ok(format!(in alloc; ": device{numbers}")?)
}

// A live attempt in which something goes wrong: its cue, what, and by which devices.
#[tactic(auto, unfolding(crate::specs::Board::fault_words))]
fn fault_words(alloc: Global, attempt: &LiveAttempt) -> Result<String, AllocError>
    ensures { IfOk result (λ text. string_bytes text ≡ board.fault_words attempt.now) }
{
    let fault = fault_at(alloc, attempt.stage)?;
    let devices = failed_devices(alloc, attempt.devices.as_slice())?;
    let (cue, fault, devices) = (cue_text(&attempt.cue), fault.as_str(), devices.as_str());
    Ok(format!(in alloc; "cue {cue}{fault}{devices}")?)
}

/// What is wrong, in words: of an attempt that is live with its cue and its devices.
pub(crate) fn words_of(
    alloc: Global,
    view: &View,
    alarm: Alarm,
    port: u16,
) -> Result<String, AllocError>
    ensures { IfOk result (λ text. string_bytes text ≡ board.words_of port view.now alarm) }
{
    match alarm {
        Alarm::Failed(seq) => match live_of(seq, &view.live) {
            Some(attempt) => fault_words(alloc, attempt),
            None => alarm_words(alloc, alarm, view.at, port),
        },
        _ => alarm_words(alloc, alarm, view.at, port),
    }
}
