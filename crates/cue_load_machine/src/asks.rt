//! One message of a load: what asks it, how often it may be sent, and what it means if it is refused.
ghost use Rattle.std.specs.Prelude.{◌≡◌, ◌++◌, ◌∷◌, [], OnOk};
ghost use Rattle.cue_load_machine.specs.Asks as asking;

use cue_ask_machine::Letter;
use cue_desk::answered::{Answered, refusal_of_removal};
use cue_desk::replying::Replied;
use std::alloc::AllocError;

/// How often a message is sent at most that asks one thing.
pub const MAX_SENDINGS: u32 = 4;

/// How long the reply to such a one is waited for, in milliseconds, before it is sent again.
pub const PATIENCE: u64 = 250;

/// How long the next reply to a bundle is waited for, in milliseconds, since that left or since the last one came.
pub const PATIENCE_TOGETHER: u64 = 1_000;

/// What a message asks.
#[derive(Clone, Copy, Debug, PartialEq, Eq)]
pub enum Form {
    /// One thing. It may be sent again: what was carried out already is known then, or is not there to be removed.
    Alone,
    /// So many things, each replied to by itself; the same ones, one by one, stand after it. It is sent once.
    Together(usize),
}

/// What it means that the controller refuses it.
#[derive(Clone, Copy, Debug, PartialEq, Eq)]
pub enum Refusal {
    /// It is told, and the load goes on.
    GoesOn,
    /// The load stops.
    Stops,
    /// It asked to remove something: the load stops unless that is not there.
    StopsUnlessGone,
}

/// One message of a load.
#[derive(Drop)]
pub struct Ask {
    pub letter: Letter,
    pub form: Form,
    pub refusal: Refusal,
}

impl Form {
    /// Whether it asks one thing.
    pub fn is_alone(self) -> bool
        ensures { result ≡ asking.is_alone self }
    {
        match self {
            Form::Alone => true,
            Form::Together(_) => false,
        }
    }

    /// How often it is sent at most.
    pub fn sendings(self) -> u32
        ensures { result ≡ asking.sendings self }
    {
        match self {
            Form::Alone => MAX_SENDINGS,
            Form::Together(_) => 1,
        }
    }

    /// How many replies it has.
    pub fn replies(self) -> usize
        ensures { result ≡ asking.replies self }
    {
        match self {
            Form::Alone => 1,
            Form::Together(count) => count,
        }
    }

    /// How long the next of these is waited for, in milliseconds.
    pub fn patience(self) -> u64
        ensures { result ≡ asking.patience self }
    {
        match self {
            Form::Alone => PATIENCE,
            Form::Together(_) => PATIENCE_TOGETHER,
        }
    }

    /// How many of the messages after it ask the same, one by one.
    pub fn covers(self) -> usize
        ensures { result ≡ asking.covers self }
    {
        match self {
            Form::Alone => 0,
            Form::Together(count) => count,
        }
    }
}

/// Puts one more after the others.
pub(crate) fn push_ask(asks: &mut Vec<Ask>, ask: Ask) -> Result<(), AllocError>
    ensures { OnOk result (asks.new.items ≡ asks.old.items ++ ask ∷ []) }
{
    asks.push(ask)?;
    Ok(())
}

/// How many of these ask one thing.
pub(crate) fn alone_in(asks: &[Ask]) -> usize
    ensures { result ≡ asking.alone_in asks.now }
{
    match asks {
        [] => 0,
        [first, rest @ ..] => {
            let more = alone_in(rest);
            if first.form.is_alone() {
                more.saturating_add(1)
            } else {
                more
            }
        }
    }
}

// The code of what was refused.
fn code_of(replied: &Replied) -> Option<i32>
    ensures { result ≡ asking.code_of replied.now }
{
    match replied {
        Replied::Reply { refused, code, .. } => { if *refused == 0 { None } else { Some(*code) } }
        Replied::Status(_) => None,
    }
}

// The code of a removal that was refused, though what was to be removed is there.
fn code_unless_gone(replied: &Replied) -> Option<i32>
    ensures { result ≡ asking.code_unless_gone replied.now }
{
    match code_of(replied) {
        Some(code) => refusal_of_removal(Answered::Refused(code)),
        None => None,
    }
}

impl Refusal {
    /// By which code this reply stops a load; none if it goes on.
    pub fn stops_by(self, replied: &Replied) -> Option<i32>
        ensures { result ≡ asking.stops_by self replied.now }
    {
        match self {
            Refusal::GoesOn => None,
            Refusal::Stops => code_of(replied),
            Refusal::StopsUnlessGone => code_unless_gone(replied),
        }
    }
}
