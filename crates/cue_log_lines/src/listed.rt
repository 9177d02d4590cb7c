//! The lists within a line: devices that failed, and attempts that were live when `serve` began.
ghost use Rattle.std.specs.Prelude.{◌≡◌, ◌++◌, ◌∷◌, [], OnOk, codes, decimal, find, nat_eq};
ghost use Rattle.std.specs.List.{starts_with};
ghost use Rattle.std.specs.Option.{option_map};
ghost use Rattle.cue_log_lines.specs.Listed as list;

use crate::line::Try;
use crate::reading::{after, device_in, try_in};
use crate::writing::{put, put_device, put_try};
use cue_show::DeviceNo;
use std::alloc::AllocError;

/// Why a device failed to carry its part out.
#[derive(Clone, Copy, PartialEq, Eq, Debug)]
pub enum Cause {
    /// It aborted.
    Aborted,
    /// The operator waits no longer for it.
    Released,
    /// The log has not seen which.
    Unseen,
}

/// A device that failed to carry its part out, and why.
#[derive(Clone, Copy, Debug)]
pub struct Failure {
    pub device: DeviceNo,
    pub cause: Cause,
}

/// All of them.
const CAUSES: [Cause; 3] = [Cause::Aborted, Cause::Released, Cause::Unseen];

// How a device failed.
fn cause_words(cause: Cause) -> &'static [u8]
    ensures { result.now ≡ list.cause_words cause }
{
    match cause {
        Cause::Aborted => b" aborted",
        Cause::Released => b" was released",
        Cause::Unseen => b" failed",
    }
}

/// Writes a device that failed after what stands there.
#[tactic(auto, unfolding(crate::specs::Listed::failure_text))]
pub fn put_failure(out: &mut Vec<u8>, failure: &Failure) -> Result<(), AllocError>
    ensures { OnOk result (out.new.items ≡ out.old.items ++ list.failure_text failure.now) }
{
    put_device(
        out,
        b", device ",
        failure.device,
        cause_words(failure.cause),
    )
}

// Which of these causes the text begins with.
fn cause_among(causes: &[Cause], text: &[u8]) -> Option<Cause>
    ensures { result ≡ find (λ c. starts_with nat_eq text.now (list.cause_words c)) causes.now }
{
    causes
        .iter()
        .copied()
        .find(|cause| text.starts_with(cause_words(*cause)))
}

// The cause at the front of a text, and what follows it.
#[tactic(auto, unfolding(crate::specs::Listed::cause_at))]
fn cause_in(text: &[u8]) -> Option<(Cause, &[u8])>
    ensures { option_map (λ x. (x.0, x.1.now)) result ≡ list.cause_at text.now }
{
    let cause = cause_among(&CAUSES, text)?;
    let rest = after(cause_words(cause), text)?;
    Some((cause, rest))
}

/// The device at the front of a text of those that failed, and the others.
#[tactic(auto, unfolding(crate::specs::Listed::failure_at))]
pub fn first_failure(text: &[u8]) -> Option<(Failure, &[u8])>
    ensures { option_map (λ x. (x.0, x.1.now)) result ≡ list.failure_at text.now }
{
    let Some((device, rest)) = device_in(after(b", device ", text)?) else {
        return None;
    };
    let (cause, rest) = cause_in(rest)?;
    Some((Failure { device, cause }, rest))
}

/// At what a recovery found an attempt.
#[derive(Clone, Copy, PartialEq, Eq, Debug)]
pub enum Found {
    /// It is preparing.
    Preparing,
    /// It was given.
    Given,
    /// It was preparing, and is given up since the controller was started again.
    Lost,
    /// It was given up before.
    GivenUp,
}

/// All of them.
const FOUND: [Found; 4] = [Found::Preparing, Found::Given, Found::Lost, Found::GivenUp];

// What a recovery found, in words.
fn found_words(found: Found) -> &'static [u8]
    ensures { result.now ≡ list.found_words found }
{
    match found {
        Found::Preparing => b" is preparing",
        Found::Given => b" was given, GO is sent again",
        Found::Lost => b" was preparing, given up",
        Found::GivenUp => b" was given up, CANCEL is sent again",
    }
}

/// Writes an attempt that a recovery found after what stands there.
pub fn put_found(out: &mut Vec<u8>, attempt: Try, found: Found) -> Result<(), AllocError>
    ensures { OnOk result (out.new.items ≡ out.old.items ++ list.found_text attempt found) }
{
    put_try(out, attempt)?;
    put(out, found_words(found))
}

// Which of these the text is.
fn found_among(all: &[Found], text: &[u8]) -> Option<Found>
    ensures { result ≡ find (λ f. starts_with nat_eq text.now (list.found_words f)) all.now }
{
    all.iter()
        .copied()
        .find(|found| text.starts_with(found_words(*found)))
}

/// The attempt that a recovery found, by its piece of the list.
#[tactic(auto, unfolding(crate::specs::Listed::found_at))]
pub fn found_in(text: &[u8]) -> Option<(Try, Found)>
    ensures { result ≡ list.found_at text.now }
{
    let Some((attempt, rest)) = try_in(text) else {
        return None;
    };
    match found_among(&FOUND, rest) {
        Some(found) => Some((attempt, found)),
        None => None,
    }
}
