// Batches that are accepted together: each is framed as it comes, so that accepting several takes no memory.
ghost use Rattle.std.specs.Prelude.{◌≡◌, ◌≤◌, ◌+◌, true, [], ◌∷◌, ◌++◌, length, sum_by};
ghost use Rattle.std.specs.Prelude.{IfOk, OnOk, OnErr, IsTrue};
ghost use Rattle.cue_log.specs.declared.area.TheConstants.{MAX_PAYLOAD};
ghost use Rattle.cue_records.specs.Batch.{is_batch, batch_text};
ghost use Rattle.cue_keeper.specs.Groups.{with_events, records_of, are_records, batches_view};

use crate::framing::frame_batch;
use cue_core::Event;
use cue_log::RecordGroup;
use std::alloc::{AllocError, Global};
use std::marker::Model;

/// Batches that are accepted together, by `Keeper::accept_group`: a stop leaves none of them or all. Contracts see the
/// list of them. A batch without an event is no record.
#[derive(Drop)]
pub struct BatchGroup {
    alloc: Global,
    batches: Vec<Vec<Event>>,
    records: RecordGroup,
    // how long the payloads of the records are together
    bytes: u64,
}

impl Model for BatchGroup {
    ghost use Rattle.std.specs.Prelude.{List};
    ghost use Rattle.cue_core.specs.declared.event.Event.{Event};
    ghost use Rattle.cue_keeper.specs.Groups.{IsGroup, batches_view};

    ghost Value = { List (List Event) };

    ghost view = { λ group. batches_view group.batches.items };

    ghost invariant = { λ group. IsGroup (batches_view group.batches.items) group.records group.bytes };
}

impl BatchGroup {
    /// A group without a batch.
    pub fn new(alloc: Global) -> Result<BatchGroup, AllocError>
        ensures { IfOk result (λ group. group ≡ []) }
    {
        let records = RecordGroup::new(alloc)?;
        Ok(BatchGroup {
            alloc,
            batches: Vec::new(alloc),
            records,
            bytes: 0,
        })
    }

    /// Adds a batch after the others, and frames it if it has an event. If memory runs out the group stays as it
    /// was.
    pub fn push(&mut self, batch: Vec<Event>) -> Result<(), AllocError>
        requires batch { 1 ≤ length batch.items → IsTrue (is_batch batch.items) }
        requires short { length (batch_text batch.items) ≤ MAX_PAYLOAD }
        ensures ok { OnOk result (self.new ≡ self.old ++ batch.items ∷ []) }
        ensures err { OnErr result (self.new ≡ self.old) }
    {
        self.batches.reserve(1)?;
        self.bytes = add_framed(self.alloc, &mut self.records, self.bytes, batch.as_slice())?;
        self.batches.push_reserved(batch);
        Ok(())
    }

    /// The batches, in order.
    pub fn batches(&self) -> &[Vec<Event>]
        ensures { batches_view result.now ≡ self.now }
    {
        self.batches.as_slice()
    }

    /// The batches themselves, in order.
    pub fn into_batches(self) -> Vec<Vec<Event>>
        ensures { batches_view result.items ≡ self }
    {
        let BatchGroup {
            batches,
            records,
            ..
        } = self;
        drop(records);
        batches
    }

    /// What is appended of them.
    #[tactic(auto, using(crate::proofs::GroupLemmas::as_many))]
    pub(crate) fn records(&self) -> &RecordGroup
        ensures records { result.now ≡ records_of self.now }
        ensures many { length result.now ≡ length (with_events self.now) }
        ensures each { are_records self.now ≡ true }
    {
        &self.records
    }

    /// How long the payloads of the records are together.
    pub(crate) fn bytes(&self) -> u64
        ensures { result ≡ sum_by length (records_of self.now) }
    {
        self.bytes
    }
}

// Frames a batch after the records if it has an event, and answers how long their payloads are together then.
fn add_framed(
    alloc: Global,
    records: &mut RecordGroup,
    bytes: u64,
    batch: &[Event],
) -> Result<u64, AllocError>
    requires batch { 1 ≤ length batch.now → IsTrue (is_batch batch.now) }
    requires short { length (batch_text batch.now) ≤ MAX_PAYLOAD }
    ensures ok { OnOk result (records.new ≡ records.old ++ records_of (batch.now ∷ [])) }
    ensures bytes { IfOk result (λ all. all ≡ bytes + sum_by length (records_of (batch.now ∷ []))) }
    ensures err { OnErr result (records.new ≡ records.old) }
{
    if batch.is_empty() {
        return Ok(bytes);
    }
    let added = frame_batch(alloc, batch)?;
    let Some(all) = bytes.checked_add(added.payload().len() as u64) else {
        return Err(AllocError);
    };
    records.push(&added)?;
    Ok(all)
}
