//! The status: what a relay says of itself, as a small text. The desk reads it to show when each device was heard.
ghost use Rattle.std.specs.Prelude.{◌≡◌, ◌++◌, IfOk, OnOk, map, string_bytes};
ghost use Rattle.cue_relay_machine.specs.Steps.{file_given, path_of, trouble_given};
ghost use Rattle.cue_relay_machine.specs.Texts.{known_text, seen_of, trouble_line};

use crate::books::Books;
use crate::known::Known;
use cue_machine::{Output, Outputs};
use cue_relay::Counts;
use cue_relay::status::{Seen, Status, write};
use std::alloc::{AllocError, Global};

// What is said of a device.
fn seen_of(known: &Known) -> Seen
    ensures { result ≡ seen_of known.now }
{
    let ordered = match known.contact.pending {
        Some(pending) => Some(pending.order),
        None => None,
    };
    Seen {
        device: known.route.device,
        address: known.route.address,
        heard: known.contact.heard,
        ordered,
        motion: known.contact.motion,
        silent: known.contact.silent,
        claims: known.claims,
    }
}

// What is said of all devices.
fn all_seen(alloc: Global, known: &[Known]) -> Result<Vec<Seen>, AllocError>
    ensures { IfOk result (λ seen. seen.items ≡ map seen_of known.now) }
{
    let mut seen = Vec::with_capacity(alloc, known.len())?;
    for one in known {
        seen.push(seen_of(one))?;
    }
    Ok(seen)
}

// The whole status, as a text.
fn known_text(
    alloc: Global,
    now: u64,
    counts: Counts,
    known: &[Known],
) -> Result<Vec<u8>, AllocError>
    ensures { IfOk result (λ text. text.items ≡ known_text now counts known.now) }
{
    let devices = all_seen(alloc, known)?;
    let status = Status {
        now,
        counts,
        devices,
    };
    write(alloc, &status)
}

// What is said of a file that cannot be written.
fn trouble_text(alloc: Global, path: &str) -> Result<String, AllocError>
    ensures { IfOk result (λ text. string_bytes text ≡ trouble_line path.now) }
{
    format!(in alloc; "cuedesk: {path}: the status cannot be written\n")
}

// Says that the status cannot be written, if that is to be said.
fn push_trouble(
    alloc: Global,
    out: &mut Outputs,
    path: &str,
    books: Books,
) -> Result<(), AllocError>
    ensures { OnOk result (out.new ≡ out.old ++ trouble_given path.now books) }
{
    if !books.says_trouble() {
        return Ok(());
    }
    let text = trouble_text(alloc, path)?;
    out.push(Output::Say, text.as_bytes())
}

/// The status, if there is a file for it.
pub fn push_file(
    alloc: Global,
    out: &mut Outputs,
    file: Option<&str>,
    books: Books,
    known: &[Known],
    now: u64,
) -> Result<(), AllocError>
    ensures { OnOk result (out.new ≡ out.old ++ file_given (path_of file.entry) books known.now now) }
{
    let Some(path) = file else {
        return Ok(());
    };
    push_trouble(alloc, out, path, books)?;
    let text = known_text(alloc, now, books.counts, known)?;
    out.push(Output::Replace, &text)
}
