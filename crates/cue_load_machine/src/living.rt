//! A part of the life of a load.
ghost use Rattle.cue_machine.specs.Living.{Lived};
ghost use Rattle.cue_load_machine.specs.Lives.{load_machine};

use crate::machine::LoadMachine;
use cue_machine::{Ears, Ended, Post, Room, live};

/// Lets a load have so many turns at most: what was heard in them and what was posted. One part of a life after the
/// other is a life, of which `laws` speaks.
pub fn advance<E: Ears, P: Post>(
    machine: &mut LoadMachine,
    ears: &mut E,
    post: &mut P,
    room: &mut Room,
    turns: u64,
) -> Ended
    ensures { Lived load_machine turns result machine.old machine.new (E.told ears.old) (E.told ears.new)
        (P.left post.old) (P.left post.new) }
{
    live(machine, ears, post, room, turns)
}
