//! How far a device has come in an attempt, and what one order of the controller makes of it.

ghost use Rattle.std.specs.Prelude.{◌≡◌};
ghost use Rattle.cue_device.specs.Hearing.{is_for};
ghost use Rattle.cue_device.specs.Table.{act, say, stay};

use crate::asked::Task;
use crate::words::{Answer, Order};

/// How far a device has come in its attempt.
#[derive(Clone, Copy, PartialEq, Eq, Debug)]
pub enum Phase {
    /// The machine was ordered to prepare.
    Preparing,
    /// The machine has prepared, and holds what it prepared.
    Ready,
    /// The machine was ordered to move.
    Moving,
    /// The machine has moved.
    Done,
    /// The machine was ordered to give up what it prepared.
    LettingGo,
    /// There is nothing left to give up.
    LetGo,
    /// The device cannot go on.
    Failed,
}

/// The attempt of the highest number that a device has heard of.
#[derive(Clone, Copy, PartialEq, Eq, Debug)]
pub struct Attempt {
    /// How far the device has come.
    pub phase: Phase,
    /// What it was asked to prepare for; none if no standby of this number came.
    pub task: Option<Task>,
}

impl Attempt {
    // Whether this is the task that the attempt is for.
    pub(crate) fn is_for(&self, task: &Task) -> bool
        ensures { result ≡ is_for task.now self.now.task }
    {
        match self.task {
            Some(known) => known == *task,
            None => false,
        }
    }
}

/// What an order of the controller, or what the machine reports, makes of an attempt: the phase from now on, what is
/// ordered and what is answered.
#[derive(Clone, Copy, PartialEq, Eq, Debug)]
pub struct Cell {
    pub phase: Phase,
    pub order: Option<Order>,
    pub answer: Option<Answer>,
}

impl Cell {
    // Nothing changes, and nothing is said.
    pub(crate) fn stay(phase: Phase) -> Cell
        ensures { result ≡ stay phase }
    {
        Cell {
            phase,
            order: None,
            answer: None,
        }
    }

    // The device answers, and orders nothing.
    pub(crate) fn say(phase: Phase, answer: Answer) -> Cell
        ensures { result ≡ say phase answer }
    {
        Cell {
            phase,
            order: None,
            answer: Some(answer),
        }
    }

    // The device orders its machine something, and answers later.
    pub(crate) fn act(phase: Phase, order: Order) -> Cell
        ensures { result ≡ act phase order }
    {
        Cell {
            phase,
            order: Some(order),
            answer: None,
        }
    }
}
