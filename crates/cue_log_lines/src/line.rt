//! What a line of the log can say.
use crate::text::Text;
use cue_exchange::{Outcome, Reason};
use cue_show::{CueNo, DeviceNo};

/// What a device is sent.
#[derive(Clone, Copy, PartialEq, Eq, Debug)]
pub enum OrderKind {
    Standby,
    Go,
    Cancel,
}

/// An attempt as a line names it.
#[derive(Clone, Copy, Debug)]
pub struct Try {
    pub number: u32,
    /// The cue, if the line has it.
    pub cue: Option<CueNo>,
}

/// An order to a device, sent for the first time, or for the first time after a start.
#[derive(Clone, Copy, Debug)]
pub struct Ordered {
    pub kind: OrderKind,
    pub attempt: Try,
    pub device: DeviceNo,
    pub port: u16,
    /// Whether it left this machine.
    pub is_sent: bool,
}

/// Why a preparation was given up.
#[derive(Clone, Copy, Debug)]
pub enum Why {
    /// This device aborted.
    Aborted(DeviceNo),
    /// This device was released.
    Released(DeviceNo),
    /// For this reason.
    Said(Reason),
}

/// A time in seconds and tenths.
#[derive(Clone, Copy, PartialEq, Eq, Debug)]
pub struct Span {
    pub seconds: u64,
    /// 0 to 9.
    pub tenths: u64,
}

/// What a reply made nothing of.
#[derive(Clone, Copy, Debug)]
pub enum Refused {
    /// It refused nothing.
    Nothing,
    /// It refused so many commands, the first one with this code.
    Some { count: u16, code: u16 },
    /// So many others did not apply: its address speaks to many.
    Aside(u16),
}

/// A reply.
#[derive(Drop)]
pub struct Asked<'a> {
    /// The port that asked.
    pub port: u16,
    /// The address, `-` if there is none. Signs that a terminal takes for orders are escaped.
    pub address: Text<'a>,
    /// How many commands were made, and were known.
    pub made: u16,
    pub known: u16,
    pub refused: Refused,
    /// What the log adds: what was made, or who keeps it from being made; empty if it adds nothing.
    pub more: Text<'a>,
    /// Whether the reply left this machine.
    pub is_sent: bool,
}

/// How often something was counted that has no lines of its own, and in which time.
#[derive(Clone, Copy, Debug)]
pub struct Count {
    pub times: u64,
    pub span: Span,
}

/// How an attempt ended.
#[derive(Drop)]
pub struct Ended<'a> {
    pub attempt: Try,
    pub outcome: Outcome,
    /// The devices that failed, each with a comma before it: `Failures` takes them apart.
    pub failures: Text<'a>,
    /// How long it was after the standby.
    pub span: Span,
}

/// A line of the log, without its date.
#[derive(Drop)]
pub enum Line<'a> {
    /// `serve` has begun: it serves a folder at a port.
    Ready { dir: Text<'a>, port: u16 },
    /// The service was stopped.
    Stopped,
    /// Something else that `cuectl` says of itself.
    Own(Text<'a>),
    /// What was live when `serve` began, with semicolons: `Recovered` takes it apart.
    Recovered(Text<'a>),
    /// For so long nothing was taken.
    HeldUp(Span),
    /// A reply that made or refused something, or did not leave; with a count, so many that are alike.
    Replied(Asked<'a>, Option<Count>),
    /// Refusals of several kinds.
    Kinds(Count),
    /// An order that was sent.
    Ordered(Ordered),
    /// An attempt that hangs on one device.
    Alone(Try, DeviceNo),
    /// An attempt that is given up.
    GivenUp(Try, Why),
    /// An attempt that has ended.
    Ended(Ended<'a>),
}
