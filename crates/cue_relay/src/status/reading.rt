//! Reads the text of a status: what it may say first, and then whether that is written so.
ghost use Rattle.std.specs.Prelude.{◌≡◌, ◌≢◌, IfNone, IfOk, IfSome, IsTrue, length};
ghost use Rattle.std.specs.Option.{option_map};
ghost use Rattle.cue_relay.specs.Fitting.{FitsStatus};
ghost use Rattle.cue_relay.specs.Reading as spec;
ghost use Rattle.cue_relay.specs.Status.{Said, is_seen, is_status, said_of, status_text};

use crate::pieces::{after, number_after};
use crate::relaying::Counts;
use crate::status::line::seen_in;
use crate::status::writing::write;
use crate::status::{Seen, Status};
use std::alloc::{AllocError, Global};

// The counts.
#[tactic(auto, unfolding(crate::specs::Reading::counts_at))]
fn counts_in(text: &[u8]) -> Option<(Counts, &[u8])>
    ensures { option_map (λ x. (x.0, x.1.now)) result ≡ spec.counts_at text.now }
{
    let (passed, rest) = number_after(b"\npassed ", text)?;
    let (lost, rest) = number_after(b" lost ", rest)?;
    let (dropped, rest) = number_after(b" dropped ", rest)?;
    let counts = Counts {
        passed,
        lost,
        dropped,
    };
    Some((counts, rest))
}

// When it was written, and the counts.
#[tactic(auto, unfolding(crate::specs::Reading::head_at))]
fn head_in(text: &[u8]) -> Option<((u64, Counts), &[u8])>
    ensures { option_map (λ x. (x.0, x.1.now)) result ≡ spec.head_at text.now }
{
    let (now, rest) = number_after(b"relay 4 ", text)?;
    let (counts, rest) = counts_in(rest)?;
    let rest = after(b"\n", rest)?;
    Some(((now, counts), rest))
}

// As many devices as there are.
fn devices_in(alloc: Global, text: &[u8]) -> Result<Vec<Seen>, AllocError>
    ensures { IfOk result (λ devices. devices.items ≡ spec.devices_at (length text.now) text.now) }
{
    let mut devices = Vec::new(alloc);
    let mut rest = text;
    for _ in 0..text.len() {
        let Some((seen, more)) = seen_in(rest) else {
            return Ok(devices);
        };
        devices.push(seen)?;
        rest = more;
    }
    Ok(devices)
}

// What a text may say.
#[tactic(auto, unfolding(crate::specs::Reading::said_at))]
fn said_in(alloc: Global, text: &[u8]) -> Result<Option<Status>, AllocError>
    ensures { IfOk result (λ said. option_map said_of said ≡ spec.said_at text.now) }
{
    let Some(((now, counts), rest)) = head_in(text) else {
        return Ok(None);
    };
    let devices = devices_in(alloc, rest)?;
    Ok(Some(Status {
        now,
        counts,
        devices,
    }))
}

impl Seen {
    // Whether it is a device at an address, with what a device may tell of itself.
    fn is_fit(&self) -> bool
        ensures { result ≡ is_seen self.now }
    {
        self.address.is_fit() && self.claims.are_fit()
    }
}

impl Status {
    // Whether each device is one.
    fn is_fit(&self) -> bool
        ensures { result ≡ is_status (said_of self.entry.now) }
    {
        self.devices.iter().all(|seen| seen.is_fit())
    }
}

// Whether the status is written so.
fn is_written(alloc: Global, text: &[u8], status: &Status) -> Result<bool, AllocError>
    ensures { IfOk result (λ yes. yes ≡ spec.is_written text.now (said_of status.entry.now)) }
{
    let again = write(alloc, status)?;
    Ok(status.is_fit() && again.as_slice() == text)
}

// What a text says.
#[tactic(auto, unfolding(crate::specs::Reading::read))]
fn status_in(alloc: Global, text: &[u8]) -> Result<Option<Status>, AllocError>
    ensures { IfOk result (λ status. option_map said_of status ≡ spec.read text.now) }
{
    let Some(status) = said_in(alloc, text)? else {
        return Ok(None);
    };
    if is_written(alloc, text, &status)? {
        Ok(Some(status))
    } else {
        Ok(None)
    }
}

/// Reads the status that a text is, byte for byte; None if it is none, as if it is cut off. The desk calls it for each
/// text that the relay's file has. Err: no memory is left.
pub fn read(alloc: Global, text: &str) -> Result<Option<Status>, AllocError>
    ensures found { IfOk result (λ status. IfSome status (λ s. text.now ≡ status_text (said_of s))) }
    ensures fit { IfOk result (λ status. IfSome status (λ s. IsTrue (is_status (said_of s)))) }
    ensures none { IfOk result (λ status. IfNone status ((s : Said) → FitsStatus s → text.now ≢ status_text s)) }
{
    status_in(alloc, text.as_bytes())
}
