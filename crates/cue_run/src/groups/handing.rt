// Committing a group, and handing out what its inputs owe.
ghost use Rattle.std.specs.Prelude.{◌≡◌, ◌≤◌, [], get_or, length, MatchResult, IsErrOf};
ghost use Rattle.std.specs.Result.{result_err};
ghost use Rattle.cue_keeper.specs.Accepting.{Accepts};
ghost use Rattle.cue_keeper.specs.Groups.{batches_view};
ghost use Rattle.cue_engine.specs.Taking.{IsOffered};
ghost use Rattle.cue_engine.specs.Observed.{keeper_of, queue_of, offered_of, offered_sends_of, HasRoomForAll};
ghost use Rattle.cue_engine.specs.Observed.{last_batches_of};
ghost use Rattle.cue_run.specs.Grouping.{HandedCounted};
ghost use Rattle.cue_run.specs.Watching.{Saw};

use crate::watch::Watch;
use cue_core::Event;
use cue_disk::Disk;
use cue_engine::{Engine, Wire};
use cue_keeper::Fault;

// The batch of the input at this place of the group.
fn batch_at(batches: &[Vec<Event>], place: usize) -> &[Event]
    ensures { result.now ≡ get_or (batches_view batches.now) place [] }
{
    match batches.get(place) {
        Some(batch) => batch.as_slice(),
        None => &[],
    }
}

// Hands out what each input of a group owes, in order, and after each lets the watch look at its batch. So many
// datagrams are sent up to each input. Answers how many sends were refused; it stops at `u64::MAX`.
fn hand_out_each<D: Disk, W: Wire, V: Watch<W>>(
    engine: &mut Engine<D>,
    wire: &mut W,
    watch: &mut V,
    ends: &[usize],
) -> u64
    requires { length ends.now ≡ length (last_batches_of engine.old) }
    ensures keeper { keeper_of engine.new ≡ keeper_of engine.old }
    ensures emptied { queue_of engine.new ≡ [] }
    ensures handed { HandedCounted (W.told wire.old) (queue_of engine.old) result (W.told wire.new) }
    ensures offered { (offered_of engine.new ≡ offered_of engine.old)
        × (offered_sends_of engine.new ≡ offered_sends_of engine.old) }
    ensures saw { Saw (V.seen watch.old) (last_batches_of engine.old) (V.seen watch.new) }
{
    let mut unsent: u64 = 0;
    let mut handed = 0;
    for (place, end) in ends.iter().enumerate() {
        let refused = engine.hand_out_first(wire, end.saturating_sub(handed));
        unsent = unsent.saturating_add(refused);
        handed = *end;
        let batch = batch_at(engine.last_batches(), place);
        let account = engine.last_accounts().get(place);
        watch.look(engine.state(), batch, account, wire);
    }
    unsent.saturating_add(engine.hand_out(wire))
}

/// Commits what was offered and hands it out, input by input; answers how many sends were refused. If the commit is
/// refused nothing is handed out.
pub(crate) fn take_group<D: Disk, W: Wire, V: Watch<W>>(
    engine: &mut Engine<D>,
    wire: &mut W,
    watch: &mut V,
    ends: &[usize],
) -> Result<u64, Fault>
    requires emptied { queue_of engine.old ≡ [] }
    requires some { 1 ≤ length ends.now }
    requires each { length ends.now ≡ length (offered_of engine.old) }
    ensures accepts { Accepts (offered_of engine.old) (result_err result)
        (keeper_of engine.old) (keeper_of engine.new) }
    ensures handed { MatchResult result
        (λ unsent. HandedCounted (W.told wire.old) (offered_sends_of engine.old) unsent (W.told wire.new))
        (λ _. W.told wire.new ≡ W.told wire.old) }
    ensures no_full { HasRoomForAll engine.old → IsErrOf result Fault.Full → ⊥ }
    ensures emptied { queue_of engine.new ≡ [] }
    ensures dropped { IsOffered [] engine.new }
    ensures saw { MatchResult result
        (λ _. Saw (V.seen watch.old) (offered_of engine.old) (V.seen watch.new))
        (λ _. V.seen watch.new ≡ V.seen watch.old) }
{
    match engine.commit() {
        Ok(()) => Ok(hand_out_each(engine, wire, watch, ends)),
        Err(fault) => Err(fault),
    }
}
