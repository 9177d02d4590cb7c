// What a recovery from power loss gives up: each attempt that is undecided is cancelled, in one batch.
ghost use Rattle.std.specs.Prelude.{◌≡◌, [], ◌∷◌, false, IsTrue, IfOk, OnOk};
ghost use Rattle.std.specs.Result.{result_err};
ghost use Rattle.cue_core.specs.Happenings.{events_at, recovered};
ghost use Rattle.cue_core.specs.Steps.{are_acceptable};
ghost use Rattle.cue_keeper.specs.Accepting.{Accepts};
ghost use Rattle.cue_keeper.specs.Groups.{batches_view};
ghost use Rattle.cue_keeper.specs.Observed.{state_of, is_broken};
ghost use Rattle.cue_outbox.specs.Sending.{datagrams, all_pending};
ghost use Rattle.cue_core.specs.Batches.{closed_state};
ghost use Rattle.cue_outbox.specs.Views.{outs_view};
ghost use Rattle.cue_engine.specs.Accounts.{accounts_view};
ghost use Rattle.cue_engine.specs.Given.{account_of, given_recovery};
ghost use Rattle.cue_engine.specs.Takes.{FitsRecord, CanFollow, Follows, InStep, IsAhead};

use crate::account::Account;
use crate::drafts::{Draft, sync_to};
use crate::keeping::keep;
use crate::offers::Offered;
use crate::ordering::all_orders;
use crate::ticking::cancels;
use cue_core::{Event, State, undecided};
use cue_disk::Disk;
use cue_exchange::Reason;
use cue_keeper::{Fault, Keeper};
use cue_outbox::{Queue, pending};
use std::alloc::{AllocError, Global};

// What is undecided is cancelled.
fn cancels_undecided(alloc: Global, kept: &State) -> Result<Vec<Event>, AllocError>
    ensures batch { IfOk result (λ batch. batch.items ≡ events_at kept.now recovered) }
    ensures acceptable { IfOk result (λ batch. IsTrue (are_acceptable kept.now batch.items)) }
    ensures fits { IfOk result (λ batch. FitsRecord batch.items) }
{
    // Called for its clause that the state keeps its rules.
    let _last = kept.last_seq();
    let seqs = undecided(alloc, kept)?;
    cancels(alloc, &seqs, Reason::Power)
}

// Closes the state on the draft: the cancels, and what is owed then, as one input offers them.
#[tactic(auto, unfolding(cue_core::specs::Batches::closed_state))]
fn close_on(alloc: Global, kept: &State, draft: &mut Draft) -> Result<Offered, AllocError>
    requires can_follow { CanFollow draft.old }
    requires follows { Follows kept.now draft.old }
    ensures ahead { IfOk result (λ offered. IsAhead kept.now draft.new offered) }
    ensures marked { draft.new.is_valid ≡ false }
    ensures group { IfOk result (λ offered. offered.group ≡ events_at kept.now recovered ∷ []) }
    ensures sends { IfOk result (λ offered. outs_view offered.sends.items
        ≡ datagrams (all_pending (closed_state kept.now))) }
    ensures account { IfOk result (λ offered. accounts_view offered.accounts.items
        ≡ account_of (given_recovery kept.now) ∷ []) }
{
    // Called for its clause that the state keeps its rules.
    let _last = kept.last_seq();
    sync_to(kept, draft)?;
    let batch = cancels_undecided(alloc, kept)?;
    draft.state.apply_all(&batch)?;
    let sends = pending(alloc, &draft.state)?;
    let account = Account {
        replies: Vec::new(alloc),
        orders: all_orders(alloc, &draft.state, &batch)?,
    };
    Offered::of_one(alloc, batch, sends, account)
}

/// Cancels what is undecided, and answers what is owed then. All memory is taken before the first device call; if
/// nothing is undecided none is made.
#[tactic(auto, unfolding(cue_core::specs::Batches::closed_state))]
pub(crate) fn close_undecided<D: Disk>(
    alloc: Global,
    keeper: &mut Keeper<D>,
    draft: &mut Draft,
) -> Result<Queue, Fault>
    requires works { is_broken keeper.old ≡ false }
    requires can_follow { CanFollow draft.old }
    requires follows { Follows (state_of keeper.old) draft.old }

    ensures accepts { Accepts (events_at (state_of keeper.old) recovered ∷ []) (result_err result)
        keeper.old keeper.new }
    ensures queue { IfOk result (λ queue. queue ≡ datagrams (all_pending (closed_state (state_of keeper.old)))) }
    ensures draft { InStep (state_of keeper.new) draft.new }
    ensures last { OnOk result
        (batches_view draft.new.missing.items ≡ events_at (state_of keeper.old) recovered ∷ []) }
    ensures account { OnOk result
        (accounts_view draft.new.accounts.items ≡ account_of (given_recovery (state_of keeper.old)) ∷ []) }
{
    // Called for its clause that a keeper that is not broken stands for its state.
    let _broken = keeper.is_broken();
    let offered = close_on(alloc, keeper.state(), draft)?;
    let mut queue = Queue::new(alloc);
    keep(keeper, draft, &mut queue, offered)?;
    Ok(queue)
}
