//! What a machine reports, and what that makes of an order and of an attempt.
ghost use Rattle.std.specs.Prelude.{◌≡◌};
ghost use Rattle.cue_device.specs.Hearing.{ends, left_after, told_as, told_in, told_of, unheard_after};

use crate::hearing::Told;
use crate::phase::{Cell, Phase};
use crate::table::{cannot_in, gave_up_in, moved_in, prepared_in};
use crate::words::Order;

/// What a machine may report, each by the call of `Device` that has its name.
#[derive(Clone, Copy, PartialEq, Eq, Debug)]
pub enum Report {
    /// It has prepared.
    Prepared,
    /// It has carried the cue out.
    Moved,
    /// It has given up what it prepared.
    GaveUp,
    /// It cannot go on, and is at rest.
    Cannot,
}

impl Report {
    // The report of the attempt of this number.
    pub(crate) fn of_number(self, seq: u32) -> Told
        ensures { result ≡ told_as self seq }
    {
        match self {
            Report::Prepared => Told::Prepared(seq),
            Report::Moved => Told::Moved(seq),
            Report::GaveUp => Told::GaveUp(seq),
            Report::Cannot => Told::Cannot(seq),
        }
    }
}

impl Told {
    // The number of the attempt.
    pub(crate) fn seq(self) -> u32
        ensures { result ≡ told_of self }
    {
        match self {
            Told::Prepared(seq) | Told::Moved(seq) | Told::GaveUp(seq) | Told::Cannot(seq) => seq,
        }
    }

    // What it makes of the attempt.
    pub(crate) fn cell(self, phase: Phase) -> Cell
        ensures { result ≡ told_in self phase }
    {
        match self {
            Told::Prepared(seq) => prepared_in(seq, phase),
            Told::Moved(seq) => moved_in(seq, phase),
            Told::GaveUp(seq) => gave_up_in(seq, phase),
            Told::Cannot(seq) => cannot_in(seq, phase),
        }
    }

    // Whether it is the end of the order.
    pub(crate) fn ends(self, order: Order) -> bool
        ensures { result ≡ ends order self }
    {
        match (order, self) {
            (Order::Prepare(p), Told::Prepared(q) | Told::Cannot(q)) => p == q,
            (Order::Move(p), Told::Moved(q) | Told::Cannot(q)) => p == q,
            (Order::GiveUp(p), Told::GaveUp(q) | Told::Cannot(q)) => p == q,
            (Order::Prepare(_), Told::Moved(_) | Told::GaveUp(_)) => false,
            (Order::Move(_), Told::Prepared(_) | Told::GaveUp(_)) => false,
            (Order::GiveUp(_), Told::Prepared(_) | Told::Moved(_)) => false,
        }
    }

    // Whether an abort waits for its reply from now on.
    pub(crate) fn waits_for_reply(self, unheard: bool) -> bool
        ensures { result ≡ unheard_after self unheard }
    {
        match self {
            Told::Prepared(_) | Told::Moved(_) | Told::GaveUp(_) => unheard,
            Told::Cannot(_) => true,
        }
    }
}

// The order whose end is not reported, once this was reported.
pub(crate) fn left_after(told: Told, doing: Option<Order>) -> Option<Order>
    ensures { result ≡ left_after told doing }
{
    match doing {
        Some(order) => { if told.ends(order) { None } else { Some(order) } }
        None => None,
    }
}
