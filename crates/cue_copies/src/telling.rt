//! What the records of a store tell: the events that have happened since its snapshot, and since the one before.
ghost use Rattle.std.specs.Prelude.{◌≡◌, ◌++◌, IfOk, OnOk};
ghost use Rattle.cue_snap.specs.Opened.{live_area_read};
ghost use Rattle.cue_snap.specs.Pair.{PairReads};
ghost use Rattle.cue_copies.specs.Telling.{AreBothTold, AreTold, Tells, TellsOne, batch_fault, or_none, pair_fault};

use crate::copying::{Copies, disks};
use crate::earlier::earlier_records;
use cue_core::Event;
use cue_disk::MemDisk;
use cue_keeper::StoreFault;
use cue_log::Records;
use cue_records::{ReadFault, read_batch};
use cue_snap::{OpenFault, Opened2, Snap};
use std::alloc::{AllocError, Global};

// Why a batch is not read, as a fault of the store.
fn batch_fault(fault: ReadFault) -> StoreFault
    ensures { result ≡ batch_fault fault }
{
    match fault {
        ReadFault::Malformed => StoreFault::Malformed,
        ReadFault::Memory => StoreFault::Memory,
    }
}

// Why two disks in memory are not opened, as a fault of the store: these fail only if memory runs out.
fn pair_fault(fault: OpenFault) -> StoreFault
    ensures { result ≡ pair_fault fault }
{
    match fault {
        OpenFault::Damaged => StoreFault::Damaged,
        OpenFault::Unformed => StoreFault::Unformed,
        OpenFault::Disk | OpenFault::Memory => StoreFault::Memory,
    }
}

// Puts these events after the others.
fn push_events(events: &mut Vec<Event>, batch: &[Event]) -> Result<(), AllocError>
    ensures { OnOk result (events.new.items ≡ events.old.items ++ batch.now) }
{
    for event in batch {
        events.push(event.clone()?)?;
    }
    Ok(())
}

// Puts the events of the batch whose encoding a payload is after the others.
fn push_batch(alloc: Global, events: &mut Vec<Event>, payload: &[u8]) -> Result<(), ReadFault>
    ensures { OnOk result (TellsOne payload.now events.old.items events.new.items) }
{
    let batch = read_batch(alloc, payload)?;
    push_events(events, batch.as_slice())?;
    Ok(())
}

// The events of these records, the oldest first.
fn events_of(alloc: Global, tail: &Records) -> Result<Vec<Event>, ReadFault>
    ensures { IfOk result (λ events. AreTold tail.now events.items) }
{
    let mut events = Vec::new(alloc);
    let mut rest = tail.payloads();
    while let Some(payload) = rest.next() {
        push_batch(alloc, &mut events, payload)?;
    }
    Ok(events)
}

// The events of the earlier records, if there are any.
fn earlier_events(alloc: Global, earlier: &Option<Records>) -> Result<Vec<Event>, ReadFault>
    ensures { IfOk result (λ events. AreTold (or_none earlier.now) events.items) }
{
    match earlier {
        Some(records) => events_of(alloc, records),
        None => Ok(Vec::new(alloc)),
    }
}

// The events of the earlier records, and then those of the later ones.
fn events_of_both(
    alloc: Global,
    earlier: &Option<Records>,
    later: &Records,
) -> Result<Vec<Event>, ReadFault>
    ensures { IfOk result (λ events. AreBothTold (or_none earlier.now) later.now events.items) }
{
    let mut events = earlier_events(alloc, earlier)?;
    let mut more = events_of(alloc, later)?;
    events.append(&mut more)?;
    Ok(events)
}

// The events that the pair tells which was opened of two files of these bytes.
fn told_by(
    alloc: Global,
    opened: &Opened2<MemDisk>,
    first: &[u8],
    second: &[u8],
) -> Result<Vec<Event>, StoreFault>
    requires { PairReads (live_area_read opened.now) first.now second.now }
    ensures { IfOk result (λ events. Tells first.now second.now events.items) }
{
    let earlier = earlier_records(alloc, first, second, opened.snap.generation())?;
    match events_of_both(alloc, &earlier, &opened.tail) {
        Ok(events) => Ok(events),
        Err(fault) => Err(batch_fault(fault)),
    }
}

// The events that two files of these bytes tell.
fn events_in(alloc: Global, first: &[u8], second: &[u8]) -> Result<Vec<Event>, StoreFault>
    ensures { IfOk result (λ events. Tells first.now second.now events.items) }
{
    let Ok((one, other)) = disks(alloc, first, second) else {
        return Err(StoreFault::Memory);
    };
    match Snap::open(alloc, one, other) {
        Ok(opened) => told_by(alloc, &opened, first, second),
        Err((fault, _, _)) => Err(pair_fault(fault)),
    }
}

impl Copies {
    /// The events of the records that follow the snapshot, and before them those of the area before, if that is still
    /// there: the oldest first.
    pub fn events(&self, alloc: Global) -> Result<Vec<Event>, StoreFault>
        ensures { IfOk result (λ events. Tells self.now.first.items self.now.second.items events.items) }
    {
        events_in(alloc, &self.first, &self.second)
    }
}
