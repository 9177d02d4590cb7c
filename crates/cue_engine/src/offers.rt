// Inputs that are offered before they are committed together.
ghost use Rattle.std.specs.Prelude.{◌≡◌, ◌≤◌, ◌++◌, ◌∷◌, [], false, length};
ghost use Rattle.std.specs.Prelude.{IfOk, OnOk, OnErr, MatchResult, IsTrue};
ghost use Rattle.cue_core.specs.Steps.{after_events, are_acceptable};
ghost use Rattle.cue_outbox.specs.Sending.{datagrams};
ghost use Rattle.cue_outbox.specs.Views.{outs_view};
ghost use Rattle.cue_engine.specs.Accounts.{account_view, accounts_view};
ghost use Rattle.cue_engine.specs.Given.{account_of, given_of};
ghost use Rattle.cue_engine.specs.Hearing.{accounted};
ghost use Rattle.cue_engine.specs.Inputs.{input_view};
ghost use Rattle.cue_engine.specs.Takes.{FitsRecord, CanFollow, Follows, InStep, IsAhead};
ghost use Rattle.cue_records.specs.Batch.{is_batch};

use crate::account::Account;
use crate::drafts::{Draft, follow, last_batch, set_missing};
use crate::heard::Heard;
use crate::input::Input;
use crate::taken::Taken;
use crate::taking::judge_input;
use cue_core::{Event, State};
use cue_keeper::BatchGroup;
use cue_outbox::Out;
use std::alloc::{AllocError, Global};
use std::mem;

/// What was offered and is not committed yet.
#[derive(Drop)]
pub(crate) struct Offered {
    /// The batch of each input.
    pub(crate) group: BatchGroup,
    /// What is sent for them, in order.
    pub(crate) sends: Vec<Out>,
    /// The account of each input.
    pub(crate) accounts: Vec<Account>,
}

impl Offered {
    /// This batch alone, what is sent for it, and its account.
    pub(crate) fn of_one(
        alloc: Global,
        batch: Vec<Event>,
        sends: Vec<Out>,
        account: Account,
    ) -> Result<Offered, AllocError>
        requires batch { 1 ≤ length batch.items → IsTrue (is_batch batch.items) }
        requires fits { FitsRecord batch.items }
        ensures group { IfOk result (λ offered. offered.group ≡ batch.items ∷ []) }
        ensures sends { IfOk result (λ offered. outs_view offered.sends.items ≡ outs_view sends.items) }
        ensures account { IfOk result (λ offered. accounts_view offered.accounts.items ≡ account_view account ∷ []) }
    {
        let mut group = BatchGroup::new(alloc)?;
        group.push(batch)?;
        let mut accounts = Vec::new(alloc);
        accounts.push(account)?;
        Ok(Offered {
            group,
            sends,
            accounts,
        })
    }

    // What an input gives, alone.
    fn of_heard(alloc: Global, heard: Heard) -> Result<Offered, AllocError>
        requires batch { 1 ≤ length heard.batch.items → IsTrue (is_batch heard.batch.items) }
        requires fits { FitsRecord heard.batch.items }
        ensures group { IfOk result (λ first. first.group ≡ heard.batch.items ∷ []) }
        ensures sends { IfOk result (λ first. outs_view first.sends.items ≡ outs_view heard.sends.items) }
        ensures account { IfOk result (λ first. accounts_view first.accounts.items ≡ accounted heard ∷ []) }
    {
        let Heard {
            batch,
            sends,
            replies,
            orders,
            ..
        } = heard;
        Offered::of_one(alloc, batch, sends, Account { replies, orders })
    }

    // Adds what an input gives after all that was offered before. If memory runs out nothing changes.
    fn add(&mut self, heard: Heard) -> Result<Taken, AllocError>
        requires batch { 1 ≤ length heard.batch.items → IsTrue (is_batch heard.batch.items) }
        requires fits { FitsRecord heard.batch.items }
        ensures group { OnOk result (self.new.group ≡ self.old.group ++ heard.batch.items ∷ []) }
        ensures sends { OnOk result (outs_view self.new.sends.items
            ≡ outs_view self.old.sends.items ++ outs_view heard.sends.items) }
        ensures counts { IfOk result (λ counts. counts ≡ heard.counts) }
        ensures accounts { OnOk result (accounts_view self.new.accounts.items
            ≡ accounts_view self.old.accounts.items ++ accounted heard ∷ []) }
        ensures same { OnErr result ((self.new.group ≡ self.old.group)
            × (outs_view self.new.sends.items ≡ outs_view self.old.sends.items)) }
        ensures same_accounts { OnErr result (self.new.accounts.items ≡ self.old.accounts.items) }
    {
        let Heard {
            batch,
            mut sends,
            counts,
            replies,
            orders,
            ..
        } = heard;
        self.accounts.reserve(1)?;
        let before = self.sends.len();
        self.sends.append(&mut sends)?;
        if let Err(refused) = self.group.push(batch) {
            self.sends.truncate(before);
            return Err(refused);
        }
        self.accounts.push_reserved(Account { replies, orders });
        Ok(counts)
    }
}

/// Judges the first input of a group on the draft, which is ahead of the kept state from then on.
pub(crate) fn offer_first(
    alloc: Global,
    now: u64,
    kept: &State,
    draft: &mut Draft,
    spare: &mut Draft,
    input: Input<'_>,
) -> Result<(Offered, Taken), AllocError>
    requires can_follow { CanFollow draft.old }
    requires follows { Follows kept.now draft.old }
    requires spare { InStep kept.now spare.old }
    ensures marked { draft.new.is_valid ≡ false }
    ensures ahead { IfOk result (λ first. IsAhead kept.now draft.new first.0) }
    ensures group { IfOk result (λ first. first.0.group
        ≡ (given_of kept.now now (input_view input.entry)).batch ∷ []) }
    ensures sends { IfOk result (λ first. outs_view first.0.sends.items
        ≡ datagrams (given_of kept.now now (input_view input.entry)).sends) }
    ensures counts { IfOk result (λ first. first.1 ≡ (given_of kept.now now (input_view input.entry)).counts) }
    ensures account { IfOk result (λ first. accounts_view first.0.accounts.items
        ≡ account_of (given_of kept.now now (input_view input.entry)) ∷ []) }
    ensures spare { MatchResult result (λ _. InStep draft.new.state spare.new) (λ _. InStep kept.now spare.new) }
{
    // Called for its clause that the state keeps its rules.
    let _last = kept.last_seq();
    let heard = judge_input(alloc, now, kept, draft, input)?;
    let counts = heard.counts;
    let first = Offered::of_heard(alloc, heard)?;
    follow(alloc, spare, last_batch(first.group.batches()));
    Ok((first, counts))
}

/// Judges one input more on the spare draft, after all that was offered; then the two drafts change places. If
/// memory runs out, what was offered stays as it was.
pub(crate) fn offer_next(
    alloc: Global,
    now: u64,
    offered: &mut Offered,
    draft: &mut Draft,
    spare: &mut Draft,
    input: Input<'_>,
) -> Result<Taken, AllocError>
    requires marked { draft.old.is_valid ≡ false }
    requires spare { InStep draft.old.state spare.old }
    ensures marked { draft.new.is_valid ≡ false }
    ensures draft { MatchResult result
        (λ _. draft.new.state ≡ after_events draft.old.state
        (given_of draft.old.state now (input_view input.entry)).batch)
        (λ _. draft.new.state ≡ draft.old.state) }
    ensures in_turn { OnOk result (IsTrue (are_acceptable draft.old.state
        (given_of draft.old.state now (input_view input.entry)).batch)) }
    ensures group { OnOk result (offered.new.group
        ≡ offered.old.group ++ (given_of draft.old.state now (input_view input.entry)).batch ∷ []) }
    ensures sends { OnOk result (outs_view offered.new.sends.items
        ≡ outs_view offered.old.sends.items
        ++ datagrams (given_of draft.old.state now (input_view input.entry)).sends) }
    ensures counts { IfOk result (λ counts. counts ≡ (given_of draft.old.state now (input_view input.entry)).counts) }
    ensures account { OnOk result (accounts_view offered.new.accounts.items
        ≡ accounts_view offered.old.accounts.items
        ++ account_of (given_of draft.old.state now (input_view input.entry)) ∷ []) }
    ensures fits { OnOk result (FitsRecord (given_of draft.old.state now (input_view input.entry)).batch) }
    ensures same { OnErr result ((offered.new.group ≡ offered.old.group)
        × (outs_view offered.new.sends.items ≡ outs_view offered.old.sends.items)) }
    ensures same_accounts { OnErr result (offered.new.accounts.items ≡ offered.old.accounts.items) }
    ensures spare { InStep draft.new.state spare.new }
{
    // Called for its clause that the state keeps its rules.
    let _last = draft.state.last_seq();
    let heard = judge_input(alloc, now, &draft.state, spare, input)?;
    let counts = offered.add(heard)?;
    mem::swap(&mut draft.state, &mut spare.state);
    set_missing(spare, Vec::new(alloc), Vec::new(alloc));
    follow(alloc, spare, last_batch(offered.group.batches()));
    Ok(counts)
}
