// The orders that an input sends, as values.
ghost use Rattle.std.specs.Prelude.{◌≡◌, ◌++◌, ℕ, List, IfOk, OnOk};
ghost use Rattle.std.specs.List.Sorted.{IsStrictlyIncreasing};
ghost use Rattle.std.specs.Option.{option_map};
ghost use Rattle.cue_core.specs.Pending.{order_at, order_for};
ghost use Rattle.cue_show.specs.Devices.{is_among};
ghost use Rattle.cue_engine.specs.Accounts.{order_view, orders_for, orders_of, all_orders};

use crate::account::{Order, OrderKind};
use cue_core::{Event, State};
use cue_exchange::{Attempt, DeviceAnswer, Stage};
use cue_outbox::numbers_asked;
use cue_show::DeviceNo;
use std::alloc::{AllocError, Global};

// The order of a stage to a device of an attempt.
fn order_at(stage: Stage, attempt: u32, device: DeviceNo, port: u16, is_new: bool) -> Order
    ensures { (cue bytes : List ℕ) → result ≡ order_view is_new (port, order_at stage attempt device cue bytes) }
{
    let kind = match stage {
        Stage::Preparing => OrderKind::Standby,
        Stage::Decided => OrderKind::Go,
        Stage::Cancelling(_) => OrderKind::Cancel,
    };
    Order {
        kind,
        attempt,
        device,
        port,
        is_new,
    }
}

// The order to a device of an attempt, if it is still to answer.
fn order_for(state: &State, attempt: &Attempt, answer: DeviceAnswer, is_new: bool) -> Option<Order>
    ensures { result ≡ option_map (order_view is_new) (order_for state.now attempt.now answer) }
{
    if !answer.answer.is_waiting() {
        return None;
    }
    let port = state.show().port(answer.device).unwrap_or(0);
    Some(order_at(attempt.stage, attempt.seq, answer.device, port, is_new))
}

// Puts the orders to the devices of an attempt after the others.
fn push_orders(
    orders: &mut Vec<Order>,
    state: &State,
    attempt: &Attempt,
    is_new: bool,
) -> Result<(), AllocError>
    ensures { OnOk result (orders.new.items
        ≡ orders.old.items ++ orders_for is_new state.now attempt.now attempt.now.answers) }
{
    for answer in attempt.answers.as_slice() {
        if let Some(order) = order_for(state, attempt, *answer, is_new) {
            orders.push(order)?;
        }
    }
    Ok(())
}

// Whether the number is one of them.
fn is_among(numbers: &[u32], number: u32) -> bool
    requires { IsStrictlyIncreasing numbers.now }
    ensures { result ≡ is_among number numbers.now }
{
    numbers.binary_search(&number).is_ok()
}

/// The orders to the devices of the attempts with these numbers, in the order in which they are sent: all are new.
pub(crate) fn orders_of(
    alloc: Global,
    state: &State,
    numbers: &[u32],
) -> Result<Vec<Order>, AllocError>
    requires { IsStrictlyIncreasing numbers.now }
    ensures { IfOk result (λ orders. orders.items ≡ orders_of numbers.now state.now state.now.live) }
{
    let mut orders = Vec::new(alloc);
    for attempt in state.live().as_slice() {
        if is_among(numbers, attempt.seq) {
            push_orders(&mut orders, state, attempt, true)?;
        }
    }
    Ok(orders)
}

/// All orders that are pending, in the order in which they are sent; new are those of the attempts that the events
/// start, decide or cancel.
#[tactic(auto, unfolding(crate::specs::Accounts::all_orders))]
pub(crate) fn all_orders(
    alloc: Global,
    state: &State,
    batch: &[Event],
) -> Result<Vec<Order>, AllocError>
    ensures { IfOk result (λ orders. orders.items ≡ all_orders batch.now state.now) }
{
    let numbers = numbers_asked(alloc, batch)?;
    let mut orders = Vec::new(alloc);
    for attempt in state.live().as_slice() {
        push_orders(&mut orders, state, attempt, is_among(&numbers, attempt.seq))?;
    }
    Ok(orders)
}
