//! A whole life of a question.
ghost use Rattle.std.specs.Prelude.{◌≡◌, IfOk, IsErrOf, OnErr};
ghost use Rattle.cue_ask_machine.specs.Lives.{Asked, IsNew, IsUnaskable, Ran};
ghost use Rattle.cue_desk.specs.declared.asking.AskFault.TheVariants.{Unwritable};

use crate::machine::AskMachine;
use crate::question::Question;
use crate::stage::AskEnd;
use cue_desk::asking::AskFault;
use cue_machine::{Ears, Ended, Post, Room, live};
use std::alloc::{AllocError, Global};

/// The most bytes of a datagram that are read. The longest datagram has fewer, so one that is too long is seen to be
/// so.
const MAX_RECEIVED: usize = 4_100;

/// How many outputs of a turn there is room for: it has one at most.
const OUTPUTS: usize = 1;

/// And for how many bytes of them at first.
const BYTES: usize = 256;

// Asks in this room, until it is over.
fn run_in<E: Ears, P: Post>(
    machine: &mut AskMachine,
    ears: &mut E,
    post: &mut P,
    room: &mut Room,
) -> Ended
    requires { IsNew machine.old }
    ensures { Ran result machine.old machine.new (E.told ears.old) (E.told ears.new) (P.left post.old)
        (P.left post.new) }
{
    live(machine, ears, post, room, u64::MAX)
}

/// Asks a question from its first turn on, until it is over: what it sends, and what it comes to. What it works with it
/// takes before its first turn.
pub fn run<E: Ears, P: Post>(
    alloc: Global,
    machine: &mut AskMachine,
    ears: &mut E,
    post: &mut P,
) -> Result<Ended, AllocError>
    requires { IsNew machine.old }
    ensures ran { IfOk result (λ ended. Ran ended machine.old machine.new (E.told ears.old) (E.told ears.new)
        (P.left post.old) (P.left post.new)) }
    ensures untold { OnErr result (E.told ears.new ≡ E.told ears.old) }
    ensures unsent { OnErr result (P.left post.new ≡ P.left post.old) }
{
    let mut room = Room::new(alloc, MAX_RECEIVED, OUTPUTS, BYTES)?;
    Ok(run_in(machine, ears, post, &mut room))
}

/// Asks one thing of the controller, once: how that ended; none if nothing could be heard any more, or memory ran out
/// once it was sent. `Unwritable` if OSC has no datagram for what is asked, or for who asks.
pub fn ask<E: Ears, P: Post>(
    alloc: Global,
    question: &Question<'_>,
    ears: &mut E,
    post: &mut P,
) -> Result<Option<AskEnd>, AskFault>
    ensures asked { IfOk result (λ end. Asked question.now end (E.told ears.old) (E.told ears.new) (P.left post.old)
        (P.left post.new)) }
    ensures untold { OnErr result (E.told ears.new ≡ E.told ears.old) }
    ensures unsent { OnErr result (P.left post.new ≡ P.left post.old) }
    ensures unwritable { IsErrOf result Unwritable → IsUnaskable question.now }
{
    let mut machine = AskMachine::new(alloc, question)?;
    let _ = run(alloc, &mut machine, ears, post)?;
    Ok(machine.end())
}
