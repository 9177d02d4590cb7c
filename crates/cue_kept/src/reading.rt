//! Reads the text of what is kept.
ghost use Rattle.std.specs.Prelude.{◌≡◌, IfOk};
ghost use Rattle.std.specs.Option.{option_map};
ghost use Rattle.cue_kept.specs.Alarms.{alarms_of};
ghost use Rattle.cue_kept.specs.Reading as spec;

use crate::lines::{
    attempt_in, count_in, cue_in, device_in, number_in, outcome_in, reason_in, version_in,
};
use cue_exchange::{Outcome, Reason};
use cue_show::{CueNo, DeviceNo};
use cue_view::view::{Devices, Kept, Told};
use std::alloc::{AllocError, Global};

// So many attempts.
fn attempts_in(
    alloc: Global,
    count: u32,
    text: &[u8],
) -> Result<Option<(Vec<u32>, &[u8])>, AllocError>
    ensures { IfOk result (λ found. option_map (λ x. (x.0.items, x.1.now)) found
        ≡ spec.items_at spec.attempt_at count text.now) }
{
    let mut attempts = Vec::new(alloc);
    let mut rest = text;
    for _ in 0..count {
        let Some((attempt, more)) = attempt_in(rest) else {
            return Ok(None);
        };
        attempts.push(attempt)?;
        rest = more;
    }
    Ok(Some((attempts, rest)))
}

// So many devices.
fn each_device_in(
    alloc: Global,
    count: u32,
    text: &[u8],
) -> Result<Option<(Vec<DeviceNo>, &[u8])>, AllocError>
    ensures { IfOk result (λ found. option_map (λ x. (x.0.items, x.1.now)) found
        ≡ spec.items_at spec.device_at count text.now) }
{
    let mut devices = Vec::new(alloc);
    let mut rest = text;
    for _ in 0..count {
        let Some((device, more)) = device_in(rest) else {
            return Ok(None);
        };
        devices.push(device)?;
        rest = more;
    }
    Ok(Some((devices, rest)))
}

// Devices, under these words.
#[tactic(auto, unfolding(crate::specs::Reading::devices_at))]
fn devices_in<'a>(
    alloc: Global,
    words: &[u8],
    text: &'a [u8],
) -> Result<Option<(Devices, &'a [u8])>, AllocError>
    ensures { IfOk result (λ found. option_map (λ x. (x.0, x.1.now)) found
        ≡ spec.devices_at words.now text.now) }
{
    let Some((count, rest)) = number_in(words, text) else {
        return Ok(None);
    };
    match each_device_in(alloc, count, rest)? {
        Some((devices, rest)) => Ok(Some((Devices::of(devices), rest))),
        None => Ok(None),
    }
}

// The devices that failed, and those that were excused.
#[tactic(auto, unfolding(crate::specs::Reading::parts_at))]
fn parts_in(alloc: Global, text: &[u8]) -> Result<Option<((Devices, Devices), &[u8])>, AllocError>
    ensures { IfOk result (λ found. option_map (λ x. (x.0, x.1.now)) found ≡ spec.parts_at text.now) }
{
    let Some((failed, rest)) = devices_in(alloc, b"failed ", text)? else {
        return Ok(None);
    };
    match devices_in(alloc, b"excused ", rest)? {
        Some((excused, rest)) => Ok(Some(((failed, excused), rest))),
        None => Ok(None),
    }
}

// How an attempt ended, and why.
#[tactic(auto, unfolding(crate::specs::Reading::end_at))]
fn end_in(text: &[u8]) -> Option<((Outcome, Option<Reason>), &[u8])>
    ensures { option_map (λ x. (x.0, x.1.now)) result ≡ spec.end_at text.now }
{
    let (outcome, rest) = outcome_in(text)?;
    let (reason, rest) = reason_in(rest)?;
    Some(((outcome, reason), rest))
}

// An attempt and its cue.
#[tactic(auto, unfolding(crate::specs::Reading::head_at))]
fn head_in(text: &[u8]) -> Option<((u32, Option<CueNo>), &[u8])>
    ensures { option_map (λ x. (x.0, x.1.now)) result ≡ spec.head_at text.now }
{
    let (attempt, rest) = attempt_in(text)?;
    match cue_in(rest) {
        Some((cue, rest)) => Some(((attempt, cue), rest)),
        None => None,
    }
}

// An attempt that ended.
#[tactic(auto, unfolding(crate::specs::Reading::told_at))]
fn told_in(alloc: Global, text: &[u8]) -> Result<Option<(Told, &[u8])>, AllocError>
    ensures { IfOk result (λ found. option_map (λ x. (x.0, x.1.now)) found ≡ spec.told_at text.now) }
{
    let Some(((seq, cue), rest)) = head_in(text) else {
        return Ok(None);
    };
    let Some(((outcome, reason), rest)) = end_in(rest) else {
        return Ok(None);
    };
    let Some(((failed, excused), rest)) = parts_in(alloc, rest)? else {
        return Ok(None);
    };
    let told = Told {
        seq,
        cue,
        outcome,
        reason,
        failed,
        excused,
    };
    Ok(Some((told, rest)))
}

// So many attempts that ended.
fn each_told_in(
    alloc: Global,
    count: u32,
    text: &[u8],
) -> Result<Option<(Vec<Told>, &[u8])>, AllocError>
    ensures { IfOk result (λ found. option_map (λ x. (x.0.items, x.1.now)) found
        ≡ spec.items_at spec.told_at count text.now) }
{
    let mut failures = Vec::new(alloc);
    let mut rest = text;
    for _ in 0..count {
        let Some((told, more)) = told_in(alloc, rest)? else {
            return Ok(None);
        };
        failures.push(told)?;
        rest = more;
    }
    Ok(Some((failures, rest)))
}

// The attempts that were seen.
#[tactic(auto, unfolding(crate::specs::Reading::seen_at))]
fn seen_in(alloc: Global, text: &[u8]) -> Result<Option<(Vec<u32>, &[u8])>, AllocError>
    ensures { IfOk result (λ found. option_map (λ x. (x.0.items, x.1.now)) found ≡ spec.seen_at text.now) }
{
    match count_in(b"seen ", text) {
        Some((count, rest)) => attempts_in(alloc, count, rest),
        None => Ok(None),
    }
}

// The failures.
#[tactic(auto, unfolding(crate::specs::Reading::failures_at))]
fn failures_in(alloc: Global, text: &[u8]) -> Result<Option<(Vec<Told>, &[u8])>, AllocError>
    ensures { IfOk result (λ found. option_map (λ x. (x.0.items, x.1.now)) found ≡ spec.failures_at text.now) }
{
    match count_in(b"failures ", text) {
        Some((count, rest)) => each_told_in(alloc, count, rest),
        None => Ok(None),
    }
}

// What is kept, and what follows it.
#[tactic(auto, unfolding(crate::specs::Reading::alarms_at))]
fn alarms_in(alloc: Global, text: &[u8]) -> Result<Option<(Kept, &[u8])>, AllocError>
    ensures { IfOk result (λ found. option_map (λ x. (alarms_of x.0, x.1.now)) found ≡ spec.alarms_at text.now) }
{
    let Some((_, rest)) = version_in(text) else {
        return Ok(None);
    };
    let Some((seen, rest)) = seen_in(alloc, rest)? else {
        return Ok(None);
    };
    match failures_in(alloc, rest)? {
        Some((failed, rest)) => Ok(Some((Kept { failed, seen }, rest))),
        None => Ok(None),
    }
}

/// What a text says; none if it is no such text: a wrong one, one that was cut off, one of another version, or one with
/// more than 128 of a kind.
#[tactic(auto, unfolding(crate::specs::Reading::read))]
pub fn read(alloc: Global, text: &str) -> Result<Option<Kept>, AllocError>
    ensures { IfOk result (λ found. option_map alarms_of found ≡ spec.read text.now) }
{
    match alarms_in(alloc, text.as_bytes())? {
        Some((kept, rest)) if rest.is_empty() => Ok(Some(kept)),
        _ => Ok(None),
    }
}
