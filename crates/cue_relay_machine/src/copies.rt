//! A GO is said four times: at once, twice more within a fiftieth of a second, and once after it.
ghost use Rattle.std.specs.Prelude.{◌≡◌, ◌++◌, OnOk, if◌then◌else◌, map};
ghost use Rattle.cue_relay_machine.specs.Copies as copies;

use crate::places::machine_address;
use cue_machine::{Address, Output, Outputs};
use cue_relay::status::Ordered;
use cue_relay::{Going, Message};
use cue_show::ShortBytes;
use std::alloc::AllocError;

/// The time from a GO to its first copy, in milliseconds.
pub const FIRST_COPY: u64 = 7;

/// The time from a GO to its second copy, in milliseconds.
pub const SECOND_COPY: u64 = 14;

/// The time from a GO to its third copy, in milliseconds.
pub const THIRD_COPY: u64 = 28;

/// How long after it came a GO may be said at the latest, in milliseconds: what is late then is not said any more.
pub const LAST_COPY: u64 = 40;

/// The bytes of a GO.
pub const GO_BYTES: usize = 24;

/// How often a GO was said of which a copy is still to be said.
#[derive(Clone, Copy, Debug, PartialEq, Eq)]
pub enum Said {
    Once,
    Twice,
    Thrice,
}

/// A GO of which a copy is still to be said.
#[derive(Clone, Copy, Debug)]
pub struct Waiting {
    /// When it came, in milliseconds since 1970.
    pub came: u64,
    pub said: Said,
    /// Whom it is for.
    pub to: Address,
    pub bytes: ShortBytes<GO_BYTES>,
}

impl Said {
    // The time from the GO to the copy that is to be said next.
    fn pause(self) -> u64
        ensures { result ≡ copies.pause self }
    {
        match self {
            Said::Once => FIRST_COPY,
            Said::Twice => SECOND_COPY,
            Said::Thrice => THIRD_COPY,
        }
    }

    // How often it was said once a copy was said, if another one is to follow.
    fn once_more(self) -> Option<Said>
        ensures { result ≡ copies.said_once_more self }
    {
        match self {
            Said::Once => Some(Said::Twice),
            Said::Twice => Some(Said::Thrice),
            Said::Thrice => None,
        }
    }
}

impl Waiting {
    // Whether its time is over, or the clock was put back before it.
    fn is_late(&self, now: u64) -> bool
        ensures { result ≡ copies.is_late self.now now }
    {
        now < self.came || now - self.came > LAST_COPY
    }

    // Whether a copy of it is said now.
    fn is_said(&self, now: u64) -> bool
        ensures { result ≡ copies.is_said self.now now }
    {
        !self.is_late(now) && now.saturating_sub(self.came) >= self.said.pause()
    }

    // What is still to be said of it, once a copy was said.
    fn once_more(&self) -> Option<Waiting>
        ensures { result ≡ copies.once_more self.now }
    {
        let said = self.said.once_more()?;
        Some(Waiting {
            came: self.came,
            said,
            to: self.to,
            bytes: self.bytes,
        })
    }

    // When its next copy is due, or the last moment that there is.
    fn due(&self) -> u64
        ensures { result ≡ copies.due self.now }
    {
        self.came.saturating_add(self.said.pause())
    }
}

// What waits once this GO went on, to this device.
fn go_waits(now: u64, to: Address, bytes: &[u8]) -> Option<Waiting>
    ensures { result ≡ copies.go_waits now to bytes.now }
{
    match ShortBytes::read(bytes) {
        Some(bytes) => Some(Waiting {
            came: now,
            said: Said::Once,
            to,
            bytes,
        }),
        None => None,
    }
}

// What waits at a route once this went on by it: a GO is to be said again, and after another order none is.
fn after_going(before: &Option<Waiting>, now: u64, going: Going, bytes: &[u8]) -> Option<Waiting>
    ensures { result ≡ copies.after_going before.now now going bytes.now }
{
    match going.message {
        Message::Order { order, .. } => match order {
            Ordered::Go => go_waits(now, machine_address(going.way.to), bytes),
            Ordered::Standby | Ordered::Cancel => None,
        },
        Message::Reply | Message::Answer(_) => *before,
    }
}

/// What waits, once this went on by the route, if it goes on now.
pub fn settle_waiting(
    waiting: &mut Vec<Option<Waiting>>,
    route: usize,
    now: u64,
    going: Going,
    bytes: &[u8],
    goes: bool,
)
    ensures { waiting.new.items
        ≡ if goes then copies.taken_at waiting.old.items route now going bytes.now else waiting.old.items }
{
    if goes && route < waiting.len() {
        waiting[route] = after_going(&waiting[route], now, going, bytes);
    }
}

// The copy that is said now of what waits at a route, by this socket.
fn push_copy(
    out: &mut Outputs,
    by: usize,
    one: &Option<Waiting>,
    now: u64,
) -> Result<(), AllocError>
    ensures { OnOk result (out.new ≡ out.old ++ copies.copy_given by one.now now) }
{
    match one {
        Some(waiting) if waiting.is_said(now) => out.push(
            Output::Send { by, to: waiting.to },
            waiting.bytes.as_slice(),
        ),
        _ => Ok(()),
    }
}

/// The copies that are said now, of what waits at each route.
pub fn push_copies(
    out: &mut Outputs,
    waiting: &[Option<Waiting>],
    now: u64,
) -> Result<(), AllocError>
    ensures { OnOk result (out.new ≡ out.old ++ copies.copies_given 0 waiting.now now) }
{
    for (route, one) in waiting.iter().enumerate() {
        push_copy(out, 2 * route + 1, one, now)?;
    }
    Ok(())
}

// What waits at a route after a wake.
fn pass_one(one: &mut Option<Waiting>, now: u64)
    ensures { one.new ≡ copies.after_wake now one.old }
{
    if let Some(waiting) = *one {
        if waiting.is_late(now) {
            *one = None;
        } else if waiting.is_said(now) {
            *one = waiting.once_more();
        }
    }
}

/// What waits at each route after a wake.
pub fn pass_copies(waiting: &mut Vec<Option<Waiting>>, now: u64)
    ensures { waiting.new.items ≡ map (copies.after_wake now) waiting.old.items }
{
    for one in waiting.iter_mut() {
        pass_one(one, now);
    }
}

// The earlier one of a moment and of when a copy is due.
fn sooner(first: u64, one: &Option<Waiting>) -> u64
    ensures { result ≡ copies.sooner first one.now }
{
    match one {
        Some(waiting) => waiting.due().min(first),
        None => first,
    }
}

/// The earliest of a moment and of when copies are due.
pub fn earliest(first: u64, waiting: &[Option<Waiting>]) -> u64
    ensures { result ≡ copies.earliest first waiting.now }
{
    let mut found = first;
    for one in waiting {
        found = sooner(found, one);
    }
    found
}
