//! The one loop: what comes is fed to a machine, and what it gives is posted.
ghost use Rattle.std.specs.Prelude.{◌≡◌, [], IfErr, IfOk, OnErr, OnOk, length};
ghost use Rattle.cue_machine.specs.Hearing.{heard_as};
ghost use Rattle.cue_machine.specs.Living.{Lived};
ghost use Rattle.cue_machine.specs.Posting.{given_as};
ghost use Rattle.cue_machine.specs.Turning.{Posts, PostsOne, Stopped, Takes, Turned};

use crate::ears::{Ears, Input, Turn};
use crate::machine::Machine;
use crate::outputs::Outputs;
use crate::post::{Output, Post};
use std::alloc::{AllocError, Global};

/// Why a life ended.
#[derive(Clone, Copy, Debug, PartialEq, Eq)]
pub enum Why {
    /// It had all the turns that were asked for.
    Turns,
    /// The machine was over.
    Over,
    /// Nothing came any more.
    End,
    /// The ears failed.
    Ears,
    /// There was no memory for what came last, which the machine has not heard.
    Memory,
}

/// How a life ended.
#[derive(Clone, Copy, Debug, PartialEq, Eq)]
pub struct Ended {
    /// How many turns it had.
    pub turns: u64,
    pub why: Why,
}

/// What a life works with: the buffer for what comes, and the outputs of a turn.
#[derive(Drop)]
pub struct Room {
    pub buffer: Vec<u8>,
    pub out: Outputs,
}

impl Room {
    /// A buffer of so many bytes, and room for so many outputs with so many bytes, which grows if they have more.
    pub fn new(
        alloc: Global,
        buffer: usize,
        outputs: usize,
        bytes: usize,
    ) -> Result<Room, AllocError>
        ensures { IfOk result (λ room. length room.buffer.items ≡ buffer) }
    {
        let buffer = vec![in alloc; 0u8; buffer]?;
        let out = Outputs::with_room(alloc, outputs, bytes)?;
        Ok(Room { buffer, out })
    }
}

// Posts this, and tells the machine if it is lost.
fn post_one<M: Machine, P: Post>(machine: &mut M, post: &mut P, output: Output, bytes: &[u8])
    ensures { PostsOne M.after_loss (given_as output bytes.now) machine.old machine.new (P.left post.old)
        (P.left post.new) }
{
    if post.post(output, bytes).is_err() {
        machine.lose(output);
    }
}

// Posts all of these in order, and tells the machine of each that is lost.
fn post_all<M: Machine, P: Post>(machine: &mut M, post: &mut P, out: &Outputs)
    ensures { Posts M.after_loss out.now machine.old machine.new (P.left post.old) (P.left post.new) }
{
    for nth in 0..out.len() {
        let (output, bytes) = out.at(nth);
        post_one(machine, post, output, bytes);
    }
}

// Feeds the machine what came, and posts what it gives.
fn take<M: Machine, P: Post>(
    machine: &mut M,
    post: &mut P,
    out: &mut Outputs,
    now: u64,
    input: Input,
    bytes: &[u8],
) -> Result<(), AllocError>
    ensures took { OnOk result (Takes M.Machine (heard_as now input bytes.now) machine.old machine.new
        (P.left post.old) (P.left post.new)) }
    ensures err { OnErr result (machine.new ≡ machine.old) }
    ensures nothing { OnErr result (P.left post.new ≡ P.left post.old) }
{
    out.clear();
    machine.step(now, input, bytes, out)?;
    post_all(machine, post, out);
    Ok(())
}

// One turn.
fn turn_once<M: Machine, E: Ears, P: Post>(
    machine: &mut M,
    ears: &mut E,
    post: &mut P,
    buffer: &mut [u8],
    out: &mut Outputs,
) -> Result<(), Why>
    ensures turned { OnOk result (Turned M.Machine machine.old machine.new (E.told ears.old) (E.told ears.new)
        (P.left post.old) (P.left post.new)) }
    ensures stopped { IfErr result (λ why. Stopped M.Machine why machine.old machine.new (E.told ears.old)
        (E.told ears.new) (P.left post.old) (P.left post.new)) }
{
    if machine.is_over() {
        return Err(Why::Over);
    }
    match ears.hear(machine.wakes(), buffer) {
        Ok(Turn::Comes { now, input, n }) => {
            match take(machine, post, out, now, input, &buffer[..n]) {
                Ok(()) => Ok(()),
                Err(AllocError) => Err(Why::Memory),
            }
        }
        Ok(Turn::End) => Err(Why::End),
        Err(_) => Err(Why::Ears),
    }
}

/// Feeds a machine what comes, each once, in order and with its moment, so many times at most; what it gives is posted,
/// each once and in order, before the next is heard, and of what is lost the machine is told. It ends at its turns, if
/// the machine is over, if nothing comes any more, if the ears fail, or at a step for which there is no memory.
pub fn live<M: Machine, E: Ears, P: Post>(
    machine: &mut M,
    ears: &mut E,
    post: &mut P,
    room: &mut Room,
    turns: u64,
) -> Ended
    ensures lived { Lived M.Machine turns result machine.old machine.new (E.told ears.old) (E.told ears.new)
        (P.left post.old) (P.left post.new) }
{
    for taken in 0..turns {
        if let Err(why) = turn_once(machine, ears, post, &mut room.buffer, &mut room.out) {
            return Ended { turns: taken, why };
        }
    }
    Ended {
        turns,
        why: Why::Turns,
    }
}
