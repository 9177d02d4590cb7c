//! How the machine of a rehearsed device behaves.
ghost use Rattle.std.specs.Prelude.{◌≡◌};
ghost use Rattle.cue_rehearsal.specs.Playing.{breaks_at, is_silent, time_for};

use cue_device::Order;

/// What a rehearsed device makes of an evening.
#[derive(Clone, Copy, PartialEq, Eq, Debug)]
pub enum Behaviour {
    /// It does what it is ordered to.
    Plays,
    /// It hears nothing and answers nothing.
    Silent,
    /// It cannot prepare: each order to prepare ends in an abort.
    Refuses,
    /// It cannot move: it prepares, and each order to move ends in an abort.
    Fails,
}

impl Behaviour {
    /// Whether the device hears nothing.
    pub fn is_silent(self) -> bool
        ensures { result ≡ is_silent self }
    {
        match self {
            Behaviour::Silent => true,
            Behaviour::Plays | Behaviour::Refuses | Behaviour::Fails => false,
        }
    }

    /// Whether the machine cannot carry this order out.
    pub fn breaks_at(self, order: Order) -> bool
        ensures { result ≡ breaks_at self order }
    {
        match (self, order) {
            (Behaviour::Refuses, Order::Prepare(_)) | (Behaviour::Fails, Order::Move(_)) => true,
            (Behaviour::Refuses, Order::Move(_) | Order::GiveUp(_)) => false,
            (Behaviour::Fails, Order::Prepare(_) | Order::GiveUp(_)) => false,
            (Behaviour::Plays | Behaviour::Silent, _) => false,
        }
    }
}

/// How long a machine takes, in milliseconds, and what becomes of it.
#[derive(Clone, Copy, PartialEq, Eq, Debug)]
pub struct Manner {
    /// For preparing, and for giving up.
    pub prepare: u32,
    /// For moving.
    pub moving: u32,
    /// What becomes of the device.
    pub behaviour: Behaviour,
}

impl Manner {
    /// How long the machine takes for an order, in milliseconds, if it takes so much longer than it always does.
    pub fn time_for(self, order: Order, longer: u32) -> u64
        ensures { result ≡ time_for self order longer }
    {
        let least = match order {
            Order::Prepare(_) | Order::GiveUp(_) => self.prepare,
            Order::Move(_) => self.moving,
        };
        u64::from(least) + u64::from(longer)
    }
}
