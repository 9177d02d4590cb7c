//! A rehearsed device at its socket, and what is due of it.
ghost use Rattle.std.specs.Prelude.{◌≡◌, IfOk, map};
ghost use Rattle.cue_rehearsal_machine.specs.Seats as seats;

use cue_device::{Answer, Meaning, Order};
use cue_machine::Address;
use cue_rehearsal::{Manner, Player, Work};
use cue_show::DeviceNo;
use std::alloc::{AllocError, Global};

/// The time from one abort that nobody asked for to the next, in milliseconds: some four come in a second.
pub const REPEAT: u64 = 250;

/// Who is rehearsed: a device, how its machine behaves, and where its socket is.
#[derive(Clone, Copy)]
pub struct Role {
    pub device: DeviceNo,
    pub manner: Manner,
    pub address: Address,
}

/// A rehearsed device at its socket. Moments are milliseconds since the rehearsal began.
#[derive(Drop)]
pub struct Seat {
    pub player: Player,
    /// Who sent the order that its machine began with last; its own address before the first one.
    pub controller: Address,
    /// When its machine came to the end of an order last, or its abort was repeated.
    pub said: u64,
}

/// What is due of a device.
#[derive(Clone, Copy)]
pub enum Due {
    /// Its machine has come to the end of this order.
    Ends(Order),
    /// An abort to which no reply came is sent again.
    Repeats,
}

// Who ordered the machine last, once this came from there.
fn ordered_by(from: Address, order: Option<Order>, before: Address) -> Address
    ensures { result ≡ seats.ordered_by from order before }
{
    match order {
        Some(_) => from,
        None => before,
    }
}

// When the machine comes to an end, or the last moment that there is.
fn end_of(work: Option<Work>) -> Option<u64>
    ensures { result ≡ seats.end_of work }
{
    match work {
        Some(work) => Some(work.since.saturating_add(work.takes)),
        None => None,
    }
}

/// The earlier of two moments, of which each may be none.
pub fn earlier(one: Option<u64>, other: Option<u64>) -> Option<u64>
    ensures { result ≡ seats.earlier one other }
{
    match one {
        Some(first) => match other {
            Some(second) => {
                if second < first {
                    Some(second)
                } else {
                    Some(first)
                }
            }
            None => Some(first),
        },
        None => other,
    }
}

impl Seat {
    /// The seat of a device that has heard of no attempt, with its machine at rest.
    pub fn of(role: &Role) -> Seat
        ensures { result ≡ seats.seat_in role.now }
    {
        Seat {
            player: Player::new(role.device, role.manner),
            controller: role.address,
            said: 0,
        }
    }

    // Whether it has an abort to send again.
    fn is_unheard(&self) -> bool
        ensures { result ≡ self.now.player.device.unheard }
    {
        match self.player.tick() {
            Some(_) => true,
            None => false,
        }
    }

    // An abort that is to be sent again now.
    fn repeats(&self, now: u64) -> Option<Due>
        ensures { result ≡ seats.repeats_of now self.now }
    {
        if self.is_unheard() && REPEAT <= now.saturating_sub(self.said) {
            Some(Due::Repeats)
        } else {
            None
        }
    }

    /// What is due of it now.
    pub fn due(&self, now: u64) -> Option<Due>
        ensures { result ≡ seats.due_of now self.now }
    {
        match self.player.due(now) {
            Some(order) => Some(Due::Ends(order)),
            None => self.repeats(now),
        }
    }

    // When its abort is to be sent again, if it has one.
    fn repeat_of(&self) -> Option<u64>
        ensures { result ≡ seats.repeat_of self.now }
    {
        if self.is_unheard() {
            Some(self.said.saturating_add(REPEAT))
        } else {
            None
        }
    }

    /// When something is due of it at the latest, if nothing comes.
    pub fn wakes(&self) -> Option<u64>
        ensures { result ≡ seats.wakes_of self.now }
    {
        earlier(end_of(self.player.work()), self.repeat_of())
    }

    /// A datagram came from there that is this to the device: its machine begins with what that orders, which takes so
    /// much longer than always.
    pub fn hear(&mut self, now: u64, longer: u32, from: Address, meaning: &Meaning)
        ensures { self.new ≡ seats.seat_heard now longer from (seats.what_of meaning.now) self.old }
    {
        let heard = self.player.hear(meaning, now, longer);
        self.controller = ordered_by(from, heard.order, self.controller);
    }

    /// What is answered to what is due. Nothing changes before `pass`.
    pub fn foresee(&self, due: Due) -> Option<Answer>
        ensures { result ≡ seats.answer_passed due self.now }
    {
        match due {
            Due::Ends(order) => self.player.foresee_end(order),
            Due::Repeats => self.player.tick(),
        }
    }

    /// This is due now, and `foresee` has said what is answered.
    pub fn pass(&mut self, due: Due, now: u64)
        ensures { self.new ≡ seats.seat_passed now due self.old }
    {
        self.said = now;
        match due {
            Due::Ends(order) => {
                let _ = self.player.end(order);
            }
            Due::Repeats => {}
        }
    }
}

/// The seats of these.
pub fn seats_of(alloc: Global, roles: &[Role]) -> Result<Vec<Seat>, AllocError>
    ensures { IfOk result (λ found. found.items ≡ map seats.seat_in roles.now) }
{
    roles.iter().map(Seat::of).collect(alloc)
}
