//! What is kept of what went wrong, until somebody says that it was seen.
ghost use Rattle.std.specs.Prelude.{◌≡◌, IfOk, filter, take};
ghost use Rattle.cue_station.specs.Alarms.{is_acknowledged};
ghost use Rattle.cue_station.specs.Keeping as keeping;
ghost use Rattle.cue_station.specs.declared.limits.TheConstants.{KEPT_FAILURES};

use crate::failing::told_by;
use crate::heard::Heard;
use crate::limits::KEPT_FAILURES;
use crate::memory::{Acknowledged, Reading};
use cue_view::view::{Devices, Kept, Told};
use std::alloc::{AllocError, Global};

// ---- what is kept

// Whether one of them has the number.
fn has_number(seq: u32, all: &[Told]) -> bool
    ensures { result ≡ keeping.has_number seq all.now }
{
    all.iter().any(|told| seq == told.seq)
}

// Whether a press said that this failure was seen.
fn is_acknowledged(acknowledged: &[u32], seq: u32) -> bool
    ensures { result ≡ is_acknowledged acknowledged.now seq }
{
    acknowledged.iter().any(|other| seq == *other)
}

// Whether it is told anew.
#[tactic(auto, unfolding(crate::specs::Keeping::is_fresh))]
fn is_fresh(acknowledged: &[u32], kept: &[Told], told: &Told) -> bool
    ensures { result ≡ keeping.is_fresh acknowledged.now kept.now told.now }
{
    !is_acknowledged(acknowledged, told.seq) && (told.cue.is_some() || !has_number(told.seq, kept))
}

// Whether the number is of the store that was copied.
fn is_of_store(seq: u32, reading: &Option<Reading>) -> bool
    ensures { result ≡ keeping.is_of_store seq reading.now }
{
    match reading {
        Some(reading) => seq <= reading.copy.state.last_seq(),
        None => true,
    }
}

// Whether what was kept of an attempt stays.
#[tactic(auto, unfolding(crate::specs::Keeping::stays))]
fn stays(acknowledged: &[u32], reading: &Option<Reading>, fresh: &[Told], told: &Told) -> bool
    ensures { result ≡ keeping.stays acknowledged.now reading.now fresh.now told.now }
{
    !is_acknowledged(acknowledged, told.seq)
        && (is_of_store(told.seq, reading) && !has_number(told.seq, fresh))
}

// The same of what is told, in memory of its own.
fn told_copy(alloc: Global, told: &Told) -> Result<Told, AllocError>
    ensures { IfOk result (λ copy. copy ≡ told.now) }
{
    let failed = Vec::from_slice(alloc, told.failed.as_slice())?;
    let excused = Vec::from_slice(alloc, told.excused.as_slice())?;
    Ok(Told {
        seq: told.seq,
        cue: told.cue,
        outcome: told.outcome,
        reason: told.reason,
        failed: Devices::of(failed),
        excused: Devices::of(excused),
    })
}

/// The same of each, in memory of its own.
pub(crate) fn told_copies(alloc: Global, all: &[Told]) -> Result<Vec<Told>, AllocError>
    ensures { IfOk result (λ copies. copies.items ≡ all.now) }
{
    let mut copies = Vec::with_capacity(alloc, all.len())?;
    for told in all {
        copies.push(told_copy(alloc, told)?)?;
    }
    Ok(copies)
}

// Whether nothing is kept of the attempt.
fn is_other(old: &[Told], told: &Told) -> bool
    ensures { result ≡ keeping.is_other old.now told.now }
{
    !has_number(told.seq, old)
}

// Leaves those of which nothing is kept.
fn leave_others(all: &mut Vec<Told>, old: &[Told])
    ensures { all.new.items ≡ filter (keeping.is_other old.now) all.old.items }
{
    all.retain(|told| is_other(old, told));
}

// What was kept elsewhere of other attempts.
fn kept_elsewhere(alloc: Global, more: &[Told], old: &[Told]) -> Result<Vec<Told>, AllocError>
    ensures { IfOk result (λ rest. rest.items ≡ filter (keeping.is_other old.now) more.now) }
{
    let mut rest = told_copies(alloc, more)?;
    leave_others(&mut rest, old);
    Ok(rest)
}

// What was kept, with what was kept elsewhere, if that was heard.
fn with_kept(alloc: Global, heard: &Heard, old: &[Told]) -> Result<Vec<Told>, AllocError>
    ensures { IfOk result (λ all. all.items ≡ keeping.with_kept heard.now old.now) }
{
    let mut all = told_copies(alloc, old)?;
    match heard {
        Heard::Kept(kept) => {
            let mut more = kept_elsewhere(alloc, &kept.failed, old)?;
            all.append(&mut more)?;
            Ok(all)
        }
        Heard::Copied(_) | Heard::Same(_) | Heard::Unread(_) | Heard::Replied(_, _) => Ok(all),
        Heard::Nobody(_) | Heard::Pressed(_, _) | Heard::Relay(_) | Heard::Tick => Ok(all),
    }
}

// Leaves what is told anew.
fn leave_fresh(all: &mut Vec<Told>, acknowledged: &[u32], kept: &[Told])
    ensures { all.new.items ≡ filter (keeping.is_fresh acknowledged.now kept.now) all.old.items }
{
    all.retain(|told| is_fresh(acknowledged, kept, told));
}

// What the newest copy tells anew.
fn told_anew(
    alloc: Global,
    acknowledged: &[u32],
    reading: &Option<Reading>,
    kept: &[Told],
) -> Result<Vec<Told>, AllocError>
    ensures { IfOk result (λ fresh. fresh.items
        ≡ filter (keeping.is_fresh acknowledged.now kept.now) (keeping.told_by reading.now)) }
{
    let mut fresh = told_by(alloc, reading)?;
    leave_fresh(&mut fresh, acknowledged, kept);
    Ok(fresh)
}

// Leaves what stays.
fn leave_staying(
    all: &mut Vec<Told>,
    acknowledged: &[u32],
    reading: &Option<Reading>,
    fresh: &[Told],
)
    ensures { all.new.items ≡ filter (keeping.stays acknowledged.now reading.now fresh.now) all.old.items }
{
    all.retain(|told| stays(acknowledged, reading, fresh, told));
}

// What stays of what was kept.
fn staying(
    acknowledged: &[u32],
    reading: &Option<Reading>,
    fresh: &[Told],
    kept: Vec<Told>,
) -> Vec<Told>
    ensures { result.items
        ≡ take KEPT_FAILURES (filter (keeping.stays acknowledged.now reading.now fresh.now) kept.items) }
{
    let mut rest = kept;
    leave_staying(&mut rest, acknowledged, reading, fresh);
    rest.truncate(KEPT_FAILURES);
    rest
}

/// What is kept once this was heard: what the newest copy tells anew, and what stays of what was kept.
pub(crate) fn failed_after(
    alloc: Global,
    acknowledged: &[u32],
    heard: &Heard,
    reading: &Option<Reading>,
    old: &[Told],
) -> Result<Vec<Told>, AllocError>
    ensures { IfOk result (λ all. all.items
        ≡ keeping.failed_after acknowledged.now reading.now (keeping.with_kept heard.now old.now)) }
{
    let kept = with_kept(alloc, heard, old)?;
    let mut all = told_anew(alloc, acknowledged, reading, &kept)?;
    let mut rest = staying(acknowledged, reading, &all, kept);
    all.append(&mut rest)?;
    Ok(all)
}

// ---- what is shown of it, and handed on

/// What is shown: nothing before a copy was read.
pub(crate) fn shown_failures(
    alloc: Global,
    reading: &Option<Reading>,
    kept: &[Told],
) -> Result<Vec<Told>, AllocError>
    ensures { IfOk result (λ all. all.items ≡ keeping.shown_failures reading.now kept.now) }
{
    match reading {
        Some(_) => told_copies(alloc, kept),
        None => Ok(Vec::new(alloc)),
    }
}

/// The numbers of the attempts.
pub fn numbers_of(alloc: Global, all: &[Told]) -> Result<Vec<u32>, AllocError>
    ensures { IfOk result (λ numbers. numbers.items ≡ keeping.numbers_of all.now) }
{
    all.iter().map(|told| told.seq).collect(alloc)
}

// The attempts that were seen.
fn numbers_seen(alloc: Global, acknowledged: &[u32]) -> Result<Vec<u32>, AllocError>
    ensures { IfOk result (λ numbers. numbers.items ≡ keeping.numbers_seen acknowledged.now) }
{
    acknowledged
        .iter()
        .copied()
        .filter(|seq| !(*seq == 0))
        .collect(alloc)
}

/// What is handed on to another desk, or to this one once it is started again.
pub(crate) fn handed_on(
    alloc: Global,
    failed: &[Told],
    acknowledged: &Acknowledged,
) -> Result<Kept, AllocError>
    ensures failed { IfOk result (λ kept. kept.failed.items ≡ failed.now) }
    ensures seen { IfOk result (λ kept. kept.seen.items ≡ keeping.numbers_seen acknowledged.now) }
{
    let failed = told_copies(alloc, failed)?;
    let seen = numbers_seen(alloc, acknowledged)?;
    Ok(Kept { failed, seen })
}
