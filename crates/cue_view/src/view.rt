//! What page and board draw, and nothing else. Each moment is one of the clock that never goes back, as `View::at` is.
ghost use Rattle.std.specs.Prelude.{◌≡◌};

use crate::button::Button;
use cue_exchange::{Answers, Outcome, Reason, Stage};
use cue_relay::status::Ordered;
use cue_relay::{Claims, Motion};
use cue_show::{CueNo, DeviceNo};
use std::marker::Model;

/// The cue that is next.
#[derive(Clone, Copy, PartialEq, Eq, Debug)]
pub enum Next {
    Cue(CueNo),
    /// The stack has no cue.
    Empty,
    /// The last cue was given.
    End,
    /// The copy does not say whether a cue was given: move to one.
    Unknown,
}

/// A live attempt.
#[derive(Drop)]
pub struct LiveAttempt {
    pub seq: u32,
    pub cue: CueNo,
    pub stage: Stage,
    pub devices: Answers,
    /// GO can be given: each device may go, the ten seconds are not over by either clock, and the copy stands.
    pub ready: bool,
    /// How much is left of its ten seconds, in milliseconds, by the clock that says less. 0: they are over.
    pub left: u64,
    /// Since when it is seen to be given.
    pub given: Option<u64>,
    /// Another cue was given since it was stood by, as far as the events of the store tell.
    pub passed: bool,
}

/// Devices, in the order of the events that name them.
#[derive(Debug, Drop)]
pub struct Devices {
    items: Vec<DeviceNo>,
}

impl Model for Devices {
    ghost use Rattle.std.specs.Prelude.{ℕ, List};

    ghost Value = { List ℕ };

    ghost view = { λ d. d.items.items };
}

impl Devices {
    /// The devices, kept in the memory that they have.
    pub fn of(items: Vec<DeviceNo>) -> Devices
        ensures { result ≡ items.items }
    {
        Devices { items }
    }

    /// The devices.
    pub fn as_slice(&self) -> &[DeviceNo]
        ensures { result.now ≡ self.now }
    {
        &self.items
    }
}

/// An attempt that has ended, by the events of the store. Without a cue: its start is no longer among them.
#[derive(Drop)]
pub struct Told {
    pub seq: u32,
    pub cue: Option<CueNo>,
    pub outcome: Outcome,
    pub reason: Option<Reason>,
    pub failed: Devices,
    pub excused: Devices,
}

/// What a desk keeps of what went wrong, so that another desk, or the same one once it is started again, knows it.
#[derive(Drop)]
pub struct Kept {
    /// The failures that nobody has said he saw: the newest first.
    pub failed: Vec<Told>,
    /// The attempts whose failure somebody has said he saw.
    pub seen: Vec<u32>,
}

/// What became of a press.
#[derive(Clone, Copy, PartialEq, Eq, Debug)]
pub enum Became {
    /// Nobody has replied, and the store does not say yet.
    Open,
    /// It was carried out, and a copy of the store shows it.
    Made,
    /// It was so already, and a copy of the store shows it.
    Known,
    /// The reply says that it was carried out, or was so already; no copy of the store shows it yet.
    Unshown,
    /// A STANDBY that was made, of a cue that stands by no more.
    Over,
    Refused(i32),
    /// Of several cues some were stood by, and others not, by this code.
    Partly(i32),
    /// Nobody listens at the port: it was not carried out.
    Nobody,
    /// No reply came; the store shows that it was carried out: of several cues at least the first was stood by.
    Carried,
    /// No reply came; the store shows that it was not carried out.
    Lost,
    /// No reply came, and the store does not show it.
    Unknown,
}

/// The last press that was sent, and what became of it.
#[derive(Clone, Copy)]
pub struct Said {
    pub ask: u64,
    pub button: Button,
    pub became: Became,
}

/// Why a press was not sent.
#[derive(Clone, Copy, PartialEq, Eq, Debug)]
pub enum Unsent {
    /// The view that it names is more than a second old, or was never shown.
    Old,
    /// The view did not have it lit.
    Dark,
    /// It is no longer lit.
    Changed,
    /// It is a GO within a second of one that was sent: the second tap of one finger.
    Again,
}

/// Why the store could not be read.
#[derive(Clone, Copy, PartialEq, Eq, Debug)]
pub enum Trouble {
    Missing,
    Refused,
    Changing,
    Memory,
}

/// What is wrong, the loudest first.
#[derive(Clone, Copy, PartialEq, Eq, Debug)]
pub enum Alarm {
    /// Nobody listens at the port.
    NobodyListens,
    /// No status is answered that was asked after this moment; none: none ever was.
    Silent(Option<u64>),
    /// What is served is not what the store shows, since this moment.
    OtherStore(u64),
    /// The reply of this moment says that the last press was carried out, and a copy that was begun a second later does
    /// not show it.
    NotShown(u64),
    /// The relay has written nothing new since this moment.
    RelayStopped(u64),
    /// The store is old, and cannot be read.
    Unread(Trouble),
    /// The store is old: it was read last at this moment; none: never.
    Old(Option<u64>),
    /// The ten seconds of the attempt are over by the clock that never goes back, and not by that of the wall.
    ClockPutBack(u32),
    /// A device failed in the attempt, or its standby was lost, and nobody has said that it was seen. It may be live.
    Failed(u32),
    /// The relay calls the device silent.
    DeviceSilent(DeviceNo),
}

/// When a device was heard.
#[derive(Clone, Copy, PartialEq, Eq, Debug)]
pub enum LastHeard {
    Never,
    /// So many milliseconds ago.
    Ago(u64),
    /// The relay's clock was put back since: nobody knows.
    Unknown,
}

/// What the relay says of one device.
#[derive(Clone, Copy, PartialEq, Eq, Debug)]
pub struct Contacted {
    pub device: DeviceNo,
    pub heard: LastHeard,
    /// The order that it was sent and has not answered.
    pub ordered: Option<Ordered>,
    /// What the relay knows of its motions.
    pub motion: Motion,
    /// Whether the relay calls it silent.
    pub silent: bool,
    /// What it told of itself last. That is shown as told by it, and nothing is decided by it. Its position is one of
    /// the last two seconds.
    pub claims: Claims,
}

/// What is shown.
#[derive(Drop)]
pub struct View {
    /// It rises by one with each view.
    pub number: u64,
    /// When it was made.
    pub at: u64,
    /// The moment for which the copy of the store stands; none if nothing was read.
    pub read: Option<u64>,
    /// The moment at which the status was asked that was answered last.
    pub served: Option<u64>,
    /// The moment since which the relay has written nothing new; none if none is watched.
    pub stamped: Option<u64>,
    pub next: Next,
    pub place: Option<CueNo>,
    /// If the last press moved the place from, as long as the place is the cue that it moved to.
    pub back: Option<CueNo>,
    /// All cues, in order.
    pub stack: Vec<CueNo>,
    pub live: Vec<LiveAttempt>,
    pub chosen: Option<u32>,
    /// Whether the attempt of the last STANDBY is not shown yet: it is chosen as soon as it is.
    pub awaits: bool,
    /// Whether the status that was answered last is not of the store that was read last, as for a moment after each
    /// change.
    pub differs: bool,
    pub lit: Vec<Button>,
    pub said: Option<Said>,
    /// The press before the last one, and what became of it.
    pub before: Option<Said>,
    pub unsent: Option<Unsent>,
    pub last: Option<Told>,
    /// The attempts that ended, as far as the events tell of their starts; the newest first.
    pub past: Vec<Told>,
    /// The failures that nobody has said he saw, each as a copy told of it that knew its cue. Each has its alarm.
    pub failed: Vec<Told>,
    /// What the relay says of its devices; empty if none is watched, or it has stopped.
    pub network: Vec<Contacted>,
    pub alarms: Vec<Alarm>,
}
