//! The lines of a rehearsal: one for each order, and one for each abort.
use cue_device::{Answer, Order};
use cue_show::{CueNo, DeviceNo};
use std::fmt;

/// What is said of a device.
#[derive(Clone, Copy, PartialEq, Eq, Debug)]
pub enum Deed {
    Prepares,
    Moves,
    GivesUp,
    /// It answered that it cannot go on.
    Aborts,
}

impl Deed {
    /// What an order has the machine do.
    pub fn of_order(order: Order) -> Deed {
        match order {
            Order::Prepare(_) => Deed::Prepares,
            Order::Move(_) => Deed::Moves,
            Order::GiveUp(_) => Deed::GivesUp,
        }
    }

    /// What is said of an answer: only an abort is.
    pub fn of_answer(answer: Answer) -> Option<Deed> {
        match answer {
            Answer::Abort(_) => Some(Deed::Aborts),
            Answer::StandingBy(_) | Answer::Complete(_) | Answer::Cancelled(_) => None,
        }
    }
}

impl fmt::Display for Deed {
    fn fmt<W: fmt::Write>(&self, f: &mut fmt::Formatter<W>) -> fmt::Result {
        f.write_str(match self {
            Deed::Prepares => "prepares",
            Deed::Moves => "moves",
            Deed::GivesUp => "gives up",
            Deed::Aborts => "aborts",
        })
    }
}

/// A line: `12.5 device 3 prepares`.
#[derive(Clone, Copy, PartialEq, Eq, Debug)]
pub struct Line {
    /// The cue; none if no standby came to the device.
    pub cue: Option<CueNo>,
    pub device: DeviceNo,
    pub deed: Deed,
}

impl fmt::Display for Line {
    fn fmt<W: fmt::Write>(&self, f: &mut fmt::Formatter<W>) -> fmt::Result {
        match self.cue {
            Some(cue) => write!(f, "{}", cue.text().escape_ascii())?,
            None => f.write_str("-")?,
        }
        write!(f, " device {} {}", self.device.number(), self.deed)
    }
}
