//! The line on a device, and the answer that it sends.
ghost use Rattle.std.specs.Prelude.{◌≡◌, ◌++◌, OnOk, is_some};
ghost use Rattle.cue_rehearsal_machine.specs.Steps.{IsPrinted, is_abort, is_said, sent_given};

use crate::seat::Due;
use cue_device::{Answer, Meaning, Order, Task};
use cue_machine::{Address, Output, Outputs};
use cue_rehearsal::{Deed, Line, Player};
use std::alloc::{AllocError, Global};

// The line on a device that does this, in the cue of this task.
fn line_of(player: &Player, task: Option<Task>, deed: Deed) -> Line {
    let cue = task.map(|task| task.cue);
    Line {
        cue,
        device: player.device().number(),
        deed,
    }
}

// What an order to the machine is for: it prepares for the task that came, and all else is for the one that is known.
fn ordered_task(player: &Player, meaning: &Meaning, order: Order) -> Option<Task> {
    match (order, meaning) {
        (Order::Prepare(_), Meaning::Order(command)) => command.task(),
        (Order::Prepare(_), Meaning::Reply | Meaning::Nothing) => None,
        (Order::Move(_) | Order::GiveUp(_), _) => player.device().task(),
    }
}

/// The line on a device whose machine is to begin with this order, to what came.
pub fn order_line(player: &Player, meaning: &Meaning, order: Option<Order>) -> Option<Line>
    ensures { is_some result ≡ is_some order }
{
    match order {
        Some(order) => Some(line_of(
            player,
            ordered_task(player, meaning, order),
            Deed::of_order(order),
        )),
        None => None,
    }
}

// Whether it is an abort.
fn is_abort(answer: Option<Answer>) -> bool
    ensures { result ≡ is_abort answer }
{
    match answer {
        Some(Answer::Abort(_)) => true,
        Some(Answer::StandingBy(_)) => false,
        Some(Answer::Complete(_)) => false,
        Some(Answer::Cancelled(_)) => false,
        None => false,
    }
}

// Whether a line says what is answered to what was due: the first time that it aborts.
fn is_said(due: Due, answer: Option<Answer>) -> bool
    ensures { result ≡ is_said due answer }
{
    match due {
        Due::Ends(_) => is_abort(answer),
        Due::Repeats => false,
    }
}

/// The line on a device of which this was due, and which answers this to it.
pub fn passed_line(player: &Player, due: Due, answer: Option<Answer>) -> Option<Line>
    ensures { is_some result ≡ is_said due answer }
{
    if is_said(due, answer) {
        Some(line_of(player, player.device().task(), Deed::Aborts))
    } else {
        None
    }
}

/// An answer leaves by the socket of this place, if it goes out.
pub fn push_answer(
    out: &mut Outputs,
    by: usize,
    to: Address,
    answer: &[u8],
    goes: bool,
) -> Result<(), AllocError>
    ensures { OnOk result (out.new ≡ out.old ++ sent_given by to answer.now goes) }
{
    if !goes {
        return Ok(());
    }
    out.push(Output::Send { by, to }, answer)
}

/// A line is printed, if there is something to say.
pub fn push_line(alloc: Global, out: &mut Outputs, line: Option<Line>) -> Result<(), AllocError>
    ensures { OnOk result (IsPrinted (is_some line) out.old out.new) }
{
    let Some(line) = line else {
        return Ok(());
    };
    let text = format!(in alloc; "{line}\n")?;
    out.push(Output::Print, text.as_bytes())
}
