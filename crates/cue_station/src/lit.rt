//! The buttons that there are, and those of them that are lit.
ghost use Rattle.std.specs.Prelude.{◌≡◌, ◌++◌, IfOk, OnOk, filter, map};
ghost use Rattle.std.specs.List.{filter_map, flat_map};
ghost use Rattle.cue_station.specs.Lighting as lighting;
ghost use Rattle.cue_station.specs.Showing.{since_in, stack_of};
ghost use Rattle.cue_station.specs.Smaller as smaller;
ghost use Rattle.cue_view.specs.declared.button.Button.TheVariants as button;

use crate::following::next_in;
use crate::heard::Copied;
use crate::lighting::{Footing, may_in, stands_quiet};
use crate::memory::Seen;
use cue_core::State;
use cue_exchange::Attempt;
use cue_show::CueNo;
use cue_view::button::Button;
use cue_view::view::{Alarm, Next};
use std::alloc::{AllocError, Global};

// GO and CANCEL of an attempt.
fn go_and_cancel(alloc: Global, attempt: &Attempt) -> Result<Vec<Button>, AllocError>
    ensures { IfOk result (λ keys. keys.items ≡ lighting.go_and_cancel attempt.now) }
{
    let mut keys = Vec::with_capacity(alloc, 3)?;
    keys.push(Button::Go(attempt.cue, attempt.seq))?;
    keys.push(Button::Cancel(attempt.cue, attempt.seq))?;
    Ok(keys)
}

// GO and CANCEL of the attempt, if there is one and it is live.
fn keys_of_choice(
    alloc: Global,
    state: &State,
    chosen: Option<u32>,
) -> Result<Vec<Button>, AllocError>
    ensures { IfOk result (λ keys. keys.items ≡ lighting.keys_of_choice state.now.live chosen) }
{
    let Some(seq) = chosen else {
        return Ok(Vec::new(alloc));
    };
    match state.live().of_seq(seq) {
        Some(attempt) => go_and_cancel(alloc, attempt),
        None => Ok(Vec::new(alloc)),
    }
}

// Puts STANDBY of the cue that is next after the others.
fn push_standby(keys: &mut Vec<Button>, next: Next) -> Result<(), AllocError>
    ensures { OnOk result (keys.new.items ≡ keys.old.items ++ lighting.standby_of next) }
{
    match next {
        Next::Cue(cue) => {
            keys.push(Button::Standby(cue))?;
            Ok(())
        }
        Next::Empty | Next::End | Next::Unknown => Ok(()),
    }
}

// Puts the smaller buttons of a live attempt after the others.
fn push_attempt(buttons: &mut Vec<Button>, attempt: &Attempt) -> Result<(), AllocError>
    ensures { OnOk result (buttons.new.items ≡ buttons.old.items ++ smaller.of_attempt attempt.now) }
{
    buttons.push(Button::Choose(attempt.seq))?;
    let answers = attempt.answers.as_slice();
    for answer in answers {
        buttons.push(Button::Release(attempt.seq, answer.device))?;
    }
    Ok(())
}

// Puts those of each live attempt after the others.
fn push_attempts(buttons: &mut Vec<Button>, live: &[Attempt]) -> Result<(), AllocError>
    ensures { OnOk result (buttons.new.items ≡ buttons.old.items ++ flat_map smaller.of_attempt live.now) }
{
    for attempt in live {
        push_attempt(buttons, attempt)?;
    }
    Ok(())
}

// Puts a move to each of the cues after the others.
fn push_each(buttons: &mut Vec<Button>, cues: &[CueNo]) -> Result<(), AllocError>
    ensures { OnOk result (buttons.new.items ≡ buttons.old.items ++ map button.MoveTo cues.now) }
{
    for cue in cues {
        buttons.push(Button::MoveTo(*cue))?;
    }
    Ok(())
}

// Puts the moves to the cues of the stack after the others: each of them may be lit, or none.
fn push_moves(buttons: &mut Vec<Button>, cues: &[CueNo], footing: Footing) -> Result<(), AllocError>
    ensures { OnOk result (buttons.new.items ≡ buttons.old.items ++ smaller.moves_of footing cues.now) }
{
    if stands_quiet(footing) {
        push_each(buttons, cues)?;
    }
    Ok(())
}

// The failure of which it is the alarm.
fn failure_of(alarm: &Alarm) -> Option<u32>
    ensures { result ≡ smaller.failure_of alarm.now }
{
    match alarm {
        Alarm::Failed(seq) => Some(*seq),
        Alarm::NobodyListens | Alarm::Silent(_) | Alarm::OtherStore(_) => None,
        Alarm::NotShown(_) | Alarm::RelayStopped(_) => None,
        Alarm::Unread(_) | Alarm::Old(_) | Alarm::ClockPutBack(_) | Alarm::DeviceSilent(_) => None,
    }
}

// The failures of which there is an alarm.
fn failures_in(alloc: Global, alarms: &[Alarm]) -> Result<Vec<u32>, AllocError>
    ensures { IfOk result (λ numbers. numbers.items ≡ filter_map smaller.failure_of alarms.now) }
{
    alarms
        .iter()
        .filter_map(|alarm| failure_of(alarm))
        .collect(alloc)
}

// Puts the buttons of the failures after the others.
fn push_seen(buttons: &mut Vec<Button>, numbers: &[u32]) -> Result<(), AllocError>
    ensures { OnOk result (buttons.new.items ≡ buttons.old.items ++ map button.Seen numbers.now) }
{
    for seq in numbers {
        buttons.push(Button::Seen(*seq))?;
    }
    Ok(())
}

// Puts the buttons of the failures of which there is an alarm after the others.
fn push_failures(
    alloc: Global,
    buttons: &mut Vec<Button>,
    alarms: &[Alarm],
) -> Result<(), AllocError>
    ensures { OnOk result (buttons.new.items
        ≡ buttons.old.items ++ map button.Seen (filter_map smaller.failure_of alarms.now)) }
{
    let failures = failures_in(alloc, alarms)?;
    push_seen(buttons, &failures)
}

// GO and CANCEL of the attempt that is chosen, and of the one of an open GO.
fn keys_of_both(alloc: Global, state: &State, footing: Footing) -> Result<Vec<Button>, AllocError>
    ensures { IfOk result (λ keys. keys.items ≡ lighting.keys_of_choice state.now.live footing.chosen
        ++ lighting.keys_of_choice state.now.live footing.going) }
{
    let mut keys = keys_of_choice(alloc, state, footing.chosen)?;
    let going = keys_of_choice(alloc, state, footing.going)?;
    keys.extend_from_slice(&going)?;
    Ok(keys)
}

// The buttons of the attempts: the three great ones, and the smaller ones of each live attempt.
fn of_attempts(alloc: Global, copy: &Copied, footing: Footing) -> Result<Vec<Button>, AllocError>
    ensures { IfOk result (λ buttons. buttons.items
        ≡ lighting.keys_of footing copy.now ++ flat_map smaller.of_attempt copy.now.state.live) }
{
    let mut buttons = keys_of_both(alloc, &copy.state, footing)?;
    push_standby(&mut buttons, next_in(copy))?;
    push_attempts(&mut buttons, copy.state.live().as_slice())?;
    Ok(buttons)
}

// Of the buttons those that may be lit.
fn lit_among(
    alloc: Global,
    buttons: &[Button],
    copy: &Copied,
    seen: &[Seen],
    footing: Footing,
) -> Result<Vec<Button>, AllocError>
    ensures { IfOk result (λ lit. lit.items
        ≡ filter (lighting.may_in footing (since_in seen.now) copy.now) buttons.now) }
{
    buttons
        .iter()
        .copied()
        .filter(|button| may_in(*button, copy, seen, footing))
        .collect(alloc)
}

/// The buttons that are lit: of the three great ones and of the smaller ones, those that may be. `cues`: the whole
/// stack of the copy.
pub(crate) fn lit_of(
    alloc: Global,
    copy: &Copied,
    cues: &[CueNo],
    alarms: &[Alarm],
    seen: &[Seen],
    footing: Footing,
) -> Result<Vec<Button>, AllocError>
    requires { cues.now ≡ stack_of copy.now.state.show }
    ensures { IfOk result (λ lit. lit.items ≡ filter (lighting.may_in footing (since_in seen.now) copy.now)
        (lighting.keys_of footing copy.now ++ smaller.smaller_of copy.now.state.live cues.now alarms.now)) }
{
    let buttons = of_attempts(alloc, copy, footing)?;
    let mut lit = lit_among(alloc, &buttons, copy, seen, footing)?;
    push_moves(&mut lit, cues, footing)?;
    push_failures(alloc, &mut lit, alarms)?;
    Ok(lit)
}
