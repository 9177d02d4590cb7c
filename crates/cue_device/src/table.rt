//! The table of what a device makes of each order of the controller and of what its machine reports: by the place of
//! the number, and by the phase of the attempt.
ghost use Rattle.std.specs.Prelude.{◌≡◌};
ghost use Rattle.cue_device.specs.Hearing.{again};
ghost use Rattle.cue_device.specs.Table.{answer_over, new_number, cannot_in, gave_up_in, moved_in, new_standby};
ghost use Rattle.cue_device.specs.Table.{other_standby, prepared_in, same_cancel, same_go, same_standby};

use crate::asked::Command;
use crate::phase::{Attempt, Cell, Phase};
use crate::words::{Answer, Order};

// A standby of the attempt's own number, for the task that is known.
fn same_standby(seq: u32, phase: Phase) -> Cell
    ensures { result ≡ same_standby seq phase }
{
    match phase {
        Phase::Preparing | Phase::LettingGo => Cell::stay(phase),
        Phase::Done | Phase::Moving => Cell::stay(phase),
        Phase::Ready => Cell::say(phase, Answer::StandingBy(seq)),
        Phase::LetGo | Phase::Failed => Cell::say(phase, Answer::Abort(seq)),
    }
}

// A standby of the attempt's own number, for another task: the number came back with another meaning.
fn other_standby(seq: u32, phase: Phase) -> Cell
    ensures { result ≡ other_standby seq phase }
{
    match phase {
        Phase::Preparing | Phase::Ready => Cell {
            phase: Phase::Failed,
            order: Some(Order::GiveUp(seq)),
            answer: Some(Answer::Abort(seq)),
        },
        Phase::Moving | Phase::Done | Phase::LettingGo | Phase::LetGo | Phase::Failed => {
            Cell::say(Phase::Failed, Answer::Abort(seq))
        }
    }
}

// A go of the attempt's own number.
fn same_go(seq: u32, phase: Phase) -> Cell
    ensures { result ≡ same_go seq phase }
{
    match phase {
        Phase::Ready => Cell::act(Phase::Moving, Order::Move(seq)),
        Phase::Moving => Cell::stay(phase),
        Phase::Done => Cell::say(phase, Answer::Complete(seq)),
        Phase::Preparing | Phase::LettingGo | Phase::LetGo | Phase::Failed => {
            Cell::say(Phase::Failed, Answer::Abort(seq))
        }
    }
}

// A cancel of the attempt's own number.
fn same_cancel(seq: u32, phase: Phase) -> Cell
    ensures { result ≡ same_cancel seq phase }
{
    match phase {
        Phase::Preparing | Phase::Ready => Cell::act(Phase::LettingGo, Order::GiveUp(seq)),
        Phase::LettingGo | Phase::Moving => Cell::stay(phase),
        Phase::Done | Phase::LetGo | Phase::Failed => Cell::say(phase, Answer::Cancelled(seq)),
    }
}

// What the table says of an order of the controller with the attempt's own number.
pub(crate) fn again(command: &Command, attempt: Attempt) -> Cell
    ensures { result ≡ again attempt command.now }
{
    match command {
        Command::Standby { seq, task } => {
            if attempt.is_for(task) {
                same_standby(*seq, attempt.phase)
            } else {
                other_standby(*seq, attempt.phase)
            }
        }
        Command::Go { seq } => same_go(*seq, attempt.phase),
        Command::Cancel { seq } => same_cancel(*seq, attempt.phase),
    }
}

// An order of the controller with a new number, if the machine is free or still does what an earlier number asked
// for.
pub(crate) fn new_number(command: &Command, is_free: bool) -> Cell
    ensures { result ≡ new_number is_free command.now }
{
    match command {
        Command::Standby { seq, .. } => new_standby(*seq, is_free),
        Command::Go { seq } => Cell::say(Phase::Failed, Answer::Abort(*seq)),
        Command::Cancel { seq } => Cell::say(Phase::LetGo, Answer::Cancelled(*seq)),
    }
}

fn new_standby(seq: u32, is_free: bool) -> Cell
    ensures { result ≡ new_standby seq is_free }
{
    if is_free {
        Cell::act(Phase::Preparing, Order::Prepare(seq))
    } else {
        Cell::say(Phase::Failed, Answer::Abort(seq))
    }
}

// What is answered for a number that is over: nothing moves for it, and there is nothing to give up.
pub(crate) fn answer_over(command: &Command) -> Answer
    ensures { result ≡ answer_over command.now }
{
    match command {
        Command::Standby { seq, .. } | Command::Go { seq } => Answer::Abort(*seq),
        Command::Cancel { seq } => Answer::Cancelled(*seq),
    }
}

// The machine has prepared.
pub(crate) fn prepared_in(seq: u32, phase: Phase) -> Cell
    ensures { result ≡ prepared_in seq phase }
{
    match phase {
        Phase::Preparing => Cell::say(Phase::Ready, Answer::StandingBy(seq)),
        Phase::Ready | Phase::Moving | Phase::Done => Cell::stay(phase),
        Phase::LettingGo | Phase::LetGo | Phase::Failed => Cell::stay(phase),
    }
}

// The machine has moved.
pub(crate) fn moved_in(seq: u32, phase: Phase) -> Cell
    ensures { result ≡ moved_in seq phase }
{
    match phase {
        Phase::Moving => Cell::say(Phase::Done, Answer::Complete(seq)),
        Phase::Preparing | Phase::Ready | Phase::Done => Cell::stay(phase),
        Phase::LettingGo | Phase::LetGo | Phase::Failed => Cell::stay(phase),
    }
}

// The machine has given up what it prepared.
pub(crate) fn gave_up_in(seq: u32, phase: Phase) -> Cell
    ensures { result ≡ gave_up_in seq phase }
{
    match phase {
        Phase::LettingGo => Cell::say(Phase::LetGo, Answer::Cancelled(seq)),
        Phase::Preparing | Phase::Ready | Phase::Moving => Cell::stay(phase),
        Phase::Done | Phase::LetGo | Phase::Failed => Cell::stay(phase),
    }
}

// The machine cannot go on.
pub(crate) fn cannot_in(seq: u32, phase: Phase) -> Cell
    ensures { result ≡ cannot_in seq phase }
{
    match phase {
        Phase::Preparing | Phase::Ready | Phase::Moving => {
            Cell::say(Phase::Failed, Answer::Abort(seq))
        }
        Phase::LettingGo | Phase::Failed => Cell::say(Phase::Failed, Answer::Abort(seq)),
        Phase::Done | Phase::LetGo => Cell::stay(phase),
    }
}
