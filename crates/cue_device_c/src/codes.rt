//! The numbers that stand in C for phases and orders.
ghost use Rattle.std.specs.Prelude.{◌≡◌};
ghost use Rattle.cue_device_c.specs.Codes.{order_code, order_number, order_of, phase_code, phase_of};

use cue_device::{Order, Phase};

/// What a call gives if it was no call: `CUE_BAD_CALL`.
pub const BAD_CALL: u32 = 4;

/// The orders to the machine, as `doing` has them: `CUE_PREPARE`, `CUE_MOVE`, `CUE_GIVE_UP`.
pub const PREPARE: u32 = 1;

pub const MOVE: u32 = 2;

pub const GIVE_UP: u32 = 3;

// `enum cue_phase`: the phase of an attempt, 0 if there is none.
pub(crate) fn phase_code(phase: Option<Phase>) -> u32
    ensures { result ≡ phase_code phase }
{
    match phase {
        None => 0,
        Some(Phase::Preparing) => 1,
        Some(Phase::Ready) => 2,
        Some(Phase::Moving) => 3,
        Some(Phase::Done) => 4,
        Some(Phase::LettingGo) => 5,
        Some(Phase::LetGo) => 6,
        Some(Phase::Failed) => 7,
    }
}

// The phase of a number, none for 0 and if the number is no phase.
pub(crate) fn phase_of(code: u32) -> Option<Phase>
    ensures { result ≡ phase_of code }
{
    match code {
        1 => Some(Phase::Preparing),
        2 => Some(Phase::Ready),
        3 => Some(Phase::Moving),
        4 => Some(Phase::Done),
        5 => Some(Phase::LettingGo),
        6 => Some(Phase::LetGo),
        7 => Some(Phase::Failed),
        _ => None,
    }
}

// `enum cue_order`: 0 if nothing is ordered.
pub(crate) fn order_code(order: Option<Order>) -> u32
    ensures { result ≡ order_code order }
{
    match order {
        None => 0,
        Some(Order::Prepare(_)) => 1,
        Some(Order::Move(_)) => 2,
        Some(Order::GiveUp(_)) => 3,
    }
}

// The number of the attempt of an order, 0 if there is none.
pub(crate) fn order_number(order: Option<Order>) -> u32
    ensures { result ≡ order_number order }
{
    match order {
        None => 0,
        Some(order) => order.seq(),
    }
}

// The order of a number, none for 0 and if the number is no order.
pub(crate) fn order_of(code: u32, number: u32) -> Option<Order>
    ensures { result ≡ order_of code number }
{
    match code {
        1 => Some(Order::Prepare(number)),
        2 => Some(Order::Move(number)),
        3 => Some(Order::GiveUp(number)),
        _ => None,
    }
}
