//! A whole rehearsal.
ghost use Rattle.std.specs.Prelude.{◌≡◌, IfOk, OnErr};
ghost use Rattle.cue_rehearsal_machine.specs.Lives.{rehearsal_machine};
ghost use Rattle.cue_machine.specs.Living.{Lived};

use crate::machine::RehearsalMachine;
use cue_machine::{Ears, Ended, Post, Room, live};
use std::alloc::{AllocError, Global};

/// The most bytes of a datagram that are read. No order and no reply has as many, so one that is cut is none either.
const MAX_RECEIVED: usize = 4_100;

/// How many outputs of a turn there is room for: an answer and a line.
const OUTPUTS: usize = 2;

/// And for how many bytes of them.
const BYTES: usize = 256;

/// Rehearses so many datagrams and wakes at most. What it works with it takes before its first turn.
pub fn run<E: Ears, P: Post>(
    alloc: Global,
    machine: &mut RehearsalMachine,
    ears: &mut E,
    post: &mut P,
    turns: u64,
) -> Result<Ended, AllocError>
    ensures rehearsed { IfOk result (λ ended. Lived rehearsal_machine turns ended machine.old machine.new
        (E.told ears.old) (E.told ears.new) (P.left post.old) (P.left post.new)) }
    ensures untold { OnErr result (E.told ears.new ≡ E.told ears.old) }
    ensures unsent { OnErr result (P.left post.new ≡ P.left post.old) }
{
    let mut room = Room::new(alloc, MAX_RECEIVED, OUTPUTS, BYTES)?;
    Ok(live(machine, ears, post, &mut room, turns))
}
