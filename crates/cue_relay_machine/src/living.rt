//! A whole life of a relay.
ghost use Rattle.std.specs.Prelude.{◌≡◌, IfOk, OnErr};
ghost use Rattle.cue_relay_machine.specs.Lives.{IsNew, Relayed};
ghost use Rattle.cue_relay_machine.specs.Steps.{state_of};

use crate::machine::RelayMachine;
use cue_machine::{Ears, Ended, Post, Room, live};
use std::alloc::{AllocError, Global};

/// The most bytes of a datagram that are read. The longest datagram has fewer, so one that is too long is seen to be
/// so.
const MAX_RECEIVED: usize = 4_100;

/// How many outputs of a turn there is room for at first.
const OUTPUTS: usize = 128;

/// And for how many bytes of them: those of a status of all devices.
const BYTES: usize = 32_768;

// Relays so many datagrams and wakes at most, in this room.
fn relay_in<E: Ears, P: Post>(
    machine: &mut RelayMachine<'_>,
    ears: &mut E,
    post: &mut P,
    room: &mut Room,
    turns: u64,
) -> Ended
    requires { IsNew (state_of machine.old) }
    ensures { Relayed turns result machine.old machine.new (E.told ears.old) (E.told ears.new) (P.left post.old)
        (P.left post.new) }
{
    live(machine, ears, post, room, turns)
}

/// Relays so many datagrams and wakes at most, from the first on: of all that comes, what is handed on as it comes is
/// what the definition of the relay makes of it, and what else is sent is copies of a GO. What it works with it takes
/// before its first turn.
pub fn run<E: Ears, P: Post>(
    alloc: Global,
    machine: &mut RelayMachine<'_>,
    ears: &mut E,
    post: &mut P,
    turns: u64,
) -> Result<Ended, AllocError>
    requires { IsNew (state_of machine.old) }
    ensures relayed { IfOk result (λ ended. Relayed turns ended machine.old machine.new (E.told ears.old)
        (E.told ears.new) (P.left post.old) (P.left post.new)) }
    ensures untold { OnErr result (E.told ears.new ≡ E.told ears.old) }
    ensures unsent { OnErr result (P.left post.new ≡ P.left post.old) }
{
    let mut room = Room::new(alloc, MAX_RECEIVED, OUTPUTS, BYTES)?;
    Ok(relay_in(machine, ears, post, &mut room, turns))
}
