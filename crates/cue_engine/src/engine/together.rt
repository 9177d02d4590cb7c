// Inputs that are offered one after the other and then committed together, with the two writes and two syncs of one.
ghost use Rattle.std.specs.Prelude.{◌≡◌, ◌⊎◌, ◌↔◌, ◌≤◌, ◌++◌, [], ◌∷◌, true, length};
ghost use Rattle.std.specs.Prelude.{IfOk, IfErr, OnOk, OnErr, IsErrOf, IsTrue};
ghost use Rattle.std.specs.Result.{result_err};
ghost use Rattle.cue_keeper.specs.Accepting.{Accepts};
ghost use Rattle.cue_keeper.specs.Groups.{batches_view};
ghost use Rattle.cue_keeper.specs.Observed as kept;
ghost use Rattle.cue_engine.specs.Given.{given_of};
ghost use Rattle.cue_engine.specs.Inputs.{input_view};
ghost use Rattle.cue_engine.specs.Accounts.{accounts_view};

use super::{Engine, drop_offered};
use crate::account::Account;
use crate::drafts::follow;
use crate::input::Input;
use crate::keeping::keep;
use crate::offers::{offer_first, offer_next};
use crate::taken::Taken;
use cue_core::Event;
use cue_disk::Disk;
use cue_keeper::Fault;

impl<D: Disk> Engine<D> {
    ghost use Rattle.cue_engine.specs.Taking.{Offers, IsOffered, TakesUp};
    ghost use Rattle.cue_engine.specs.Observed.{keeper_of, state_of, queue_of, latest_of, has_room, last_batches_of};
    ghost use Rattle.cue_engine.specs.Observed.{offered_of, offered_sends_of, HasRoomForAll};
    ghost use Rattle.cue_engine.specs.Observed.{offered_accounts_of, last_accounts_of};
    ghost use Rattle.cue_engine.specs.Given.{account_of};

    /// Judges what came after all that was offered before, and keeps what it gives until `commit`; it answers how many
    /// commands are made, known and refused then. It makes no device call, and state and queue stay as they are. If
    /// it answers Broken or Memory, what was offered before stays as it was.
    pub fn offer(&mut self, now: u64, input: Input<'_>) -> Result<Taken, Fault>
        ensures offers { IfOk result
            (λ counts. Offers (given_of (latest_of self.old) now (input_view input.entry)) counts self.old self.new) }
        // Its account goes after those of what was offered before.
        ensures account { OnOk result (offered_accounts_of self.new ≡ offered_accounts_of self.old
            ++ account_of (given_of (latest_of self.old) now (input_view input.entry)) ∷ []) }
        ensures keeper { keeper_of self.new ≡ keeper_of self.old }
        ensures queue { queue_of self.new ≡ queue_of self.old }
        ensures refused { OnErr result ((offered_of self.new ≡ offered_of self.old)
            × (offered_sends_of self.new ≡ offered_sends_of self.old)) }
        ensures refused_account { OnErr result (offered_accounts_of self.new ≡ offered_accounts_of self.old) }
        ensures broken { IsErrOf result Fault.Broken ↔ (kept.is_broken (keeper_of self.old) ≡ true) }
        ensures memory { IfErr result (λ fault. (fault ≡ Fault.Broken) ⊎ (fault ≡ Fault.Memory)) }
        // If `has_room` was asked before, `commit` has room for all of them.
        ensures room { IsTrue (has_room self.old) → OnOk result (HasRoomForAll self.new) }
    {
        if self.keeper.is_broken() {
            return Err(Fault::Broken);
        }
        match &mut self.offered {
            Some(offered) => Ok(offer_next(
                self.alloc,
                now,
                offered,
                &mut self.draft,
                &mut self.spare,
                input,
            )?),
            None => {
                let (first, counts) = offer_first(
                    self.alloc,
                    now,
                    self.keeper.state(),
                    &mut self.draft,
                    &mut self.spare,
                    input,
                )?;
                self.offered = Some(first);
                Ok(counts)
            }
        }
    }

    /// Whether one input more can be offered, whatever it is, and all be committed together. If it cannot, a caller
    /// commits what was offered first: `commit` may answer Full otherwise.
    pub fn has_room(&self) -> bool
        ensures { result ≡ has_room self.now }
    {
        match &self.offered {
            Some(offered) => self.keeper.has_room_beside(&offered.group),
            None => true,
        }
    }

    /// How many datagrams are sent for all that was offered.
    pub fn offered_sends(&self) -> usize
        ensures { result ≡ length (offered_sends_of self.now) }
    {
        match &self.offered {
            Some(offered) => offered.sends.len(),
            None => 0,
        }
    }

    /// Drops what was offered. It makes no device call, and state and queue stay as they are.
    pub fn withdraw(&mut self)
        ensures keeper { keeper_of self.new ≡ keeper_of self.old }
        ensures queue { queue_of self.new ≡ queue_of self.old }
        ensures dropped { IsOffered [] self.new }
        ensures no_account { offered_accounts_of self.new ≡ [] }
        ensures last { last_batches_of self.new ≡ last_batches_of self.old }
    {
        drop_offered(&mut self.offered, &mut self.spare);
    }

    /// Takes all that was offered together: the batch of each input is on both disks, each its own record, and what
    /// they owe at the end of the queue, in order; or nothing has changed, and what was offered is dropped. A stop
    /// within it leaves the state before all of them, or after all. If several change something it makes two writes
    /// and two syncs; if none was offered it makes no device call.
    pub fn commit(&mut self) -> Result<(), Fault>
        // State and queue are what the inputs give, one after the other.
        ensures gives { OnOk result
            (TakesUp (offered_of self.old) (offered_sends_of self.old) self.old self.new) }
        // On a fault state and queue are as they were.
        ensures same { OnErr result
            ((state_of self.new ≡ state_of self.old) × (queue_of self.new ≡ queue_of self.old)) }
        // Their batches are on both disks, each whole, or the fault says why not.
        ensures accepts { Accepts (offered_of self.old) (result_err result)
            (keeper_of self.old) (keeper_of self.new) }
        // And what each came to can be read.
        ensures accounts { OnOk result (1 ≤ length (offered_of self.old)
            → last_accounts_of self.new ≡ offered_accounts_of self.old) }
        // It answers Full only if several inputs change something and the live area lacks room for them.
        ensures no_full { HasRoomForAll self.old → IsErrOf result Fault.Full → ⊥ }
        ensures dropped { IsOffered [] self.new }
    {
        let offered = self.offered.take();
        if self.keeper.is_broken() {
            drop(offered);
            self.spare.is_valid = false;
            return Err(Fault::Broken);
        }
        match offered {
            None => Ok(()),
            Some(offered) => {
                let kept = keep(&mut self.keeper, &mut self.draft, &mut self.queue, offered);
                if kept.is_err() {
                    self.spare.is_valid = false;
                }
                kept
            }
        }
    }

    /// Does what can wait until all that was owed is sent, so that nobody waits for it: the draft catches up with the
    /// state, and the last batches and their accounts are forgotten. It makes no device call.
    pub fn rest(&mut self)
        ensures keeper { keeper_of self.new ≡ keeper_of self.old }
        ensures queue { queue_of self.new ≡ queue_of self.old }
        ensures offered { (offered_of self.new ≡ offered_of self.old)
            × (offered_sends_of self.new ≡ offered_sends_of self.old) }
    {
        if self.offered.is_none() {
            follow(self.alloc, &mut self.draft, &[]);
        }
    }

    /// The batches that were accepted last, one for each input of the last `commit`, in order, for whoever writes a
    /// log. One is empty if its input changed nothing. After `take` and `recover` it is the one batch of that call, and
    /// after `rest` there may be none.
    pub fn last_batches(&self) -> &[Vec<Event>]
        ensures { batches_view result.now ≡ last_batches_of self.now }
    {
        &self.draft.missing
    }

    /// The account of each input whose batch is among `last_batches`, in their order. After `recover` it has the orders
    /// that are pending.
    pub fn last_accounts(&self) -> &[Account]
        ensures { accounts_view result.now ≡ last_accounts_of self.now }
    {
        &self.draft.accounts
    }
}
