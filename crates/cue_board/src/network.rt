//! When each device of a relay was heard, and what it told of itself.
ghost use Rattle.std.specs.Prelude.{◌≡◌, ◌≤◌, ◌↔◌, ◌+◌, ◌-◌, ◌++◌, IfOk, IsTrue, OnOk, length, map, replicate};
ghost use Rattle.std.specs.Prelude.{string_bytes};
ghost use Rattle.cue_columns.specs.Columns.{AreFit};
ghost use Rattle.cue_board.specs.Network as spec;

use crate::claims::claim_texts;
use crate::line::push_spaces;
use cue_columns::{COLUMNS, fitted};
use cue_relay::Motion;
use cue_relay::status::Ordered;
use cue_view::view::{Contacted, LastHeard};
use std::alloc::{AllocError, Global};

/// What stands before the first device of a line.
const HEARD: &str = "HEARD  ";

/// The same of what devices told of themselves.
const SAYS: &str = "SAYS   ";

/// The room that a device has on its line, in columns.
const DEVICE: usize = 24;

/// What stands between two devices at least, in columns.
const APART: usize = 2;

// When it was heard.
fn when(alloc: Global, heard: LastHeard) -> Result<String, AllocError>
    ensures { IfOk result (λ text. string_bytes text ≡ spec.when heard) }
{
    match heard {
        LastHeard::Never => String::from_str(alloc, "not heard since the relay started"),
        LastHeard::Ago(millis) => {
            let whole = millis / 1_000;
            format!(in alloc; "heard {whole} s ago")
        }
        LastHeard::Unknown => String::from_str(alloc, "heard at a time that is not known"),
    }
}

// What a device was sent and has not answered; nothing if it was sent none. Whether it heard that nobody knows.
fn unanswered(contact: &Contacted) -> &'static str
    ensures { result.now ≡ spec.unanswered contact.now }
{
    if contact.silent {
        return "silent, ";
    }
    match contact.ordered {
        Some(Ordered::Standby) => "STANDBY sent, ",
        Some(Ordered::Go) => "GO sent, ",
        Some(Ordered::Cancel) => "CANCEL sent, ",
        None => "",
    }
}

// Whether it may still move, by a GO that was not its last order.
fn is_left_moving(motion: Motion, ordered: Option<Ordered>) -> bool
    ensures { result ≡ spec.is_left_moving motion ordered }
{
    match motion {
        Motion::Moving(_) => !matches!(ordered, Some(Ordered::Go)),
        Motion::Unknown | Motion::Over(_) => false,
    }
}

// That it may; nothing if not.
fn may_move(contact: &Contacted) -> &'static str
    ensures { result.now ≡ spec.may_move contact.now }
{
    if is_left_moving(contact.motion, contact.ordered) {
        "may still move, "
    } else {
        ""
    }
}

/// When a device of a relay was heard, which order it was sent and has not answered, or that it is silent; and whether
/// it may still move by a GO that it was sent before.
pub fn contact_words(alloc: Global, contact: &Contacted) -> Result<String, AllocError>
    ensures { IfOk result (λ text. string_bytes text ≡ spec.contact_words contact.now) }
{
    let (moving, order) = (may_move(contact), unanswered(contact));
    let when = when(alloc, contact.heard)?;
    let when = when.as_str();
    format!(in alloc; "{moving}{order}{when}")
}

// A device with these words.
fn device_words(alloc: Global, contact: &Contacted) -> Result<String, AllocError>
    ensures { IfOk result (λ text. string_bytes text ≡ spec.device_words contact.now) }
{
    let words = contact_words(alloc, contact)?;
    format!(in alloc; "{}: {}", contact.device.number(), words.as_str())
}

// Whether the words still fit into the line.
fn has_room(line: &str, words: &str) -> bool
    ensures { IsTrue result ↔ (length line.now + length words.now ≤ COLUMNS) }
{
    let taken = line.len().saturating_add(words.len());
    taken <= COLUMNS
}

// Puts the spaces before the next device after a line, on which the last one begins there.
fn push_gap(line: &mut String, begun: usize) -> Result<(), AllocError>
    ensures { OnOk result (string_bytes line.new
        ≡ string_bytes line.old ++ replicate (spec.gap (length (string_bytes line.old) - begun)) 32) }
{
    let taken = line.len().saturating_sub(begun);
    let gap = DEVICE.saturating_sub(taken).max(APART);
    push_spaces(line, gap)
}

// Puts a line after the others, without the spaces at its end.
#[tactic(auto, using(cue_columns::proofs::ColumnLemmas::are_fit_push))]
fn push_line(alloc: Global, lines: &mut Vec<String>, line: &str) -> Result<(), AllocError>
    requires { AreFit lines.old.items }
    ensures { OnOk result (AreFit lines.new.items) }
{
    let line = fitted(alloc, line.trim_end(), COLUMNS)?;
    lines.push(line)?;
    Ok(())
}

// Texts in lines with this front: as many a line as fit, with two columns between them at least.
fn packed(alloc: Global, front: &str, texts: &[String]) -> Result<Vec<String>, AllocError>
    ensures { IfOk result (λ lines. AreFit lines.items) }
{
    let mut lines = Vec::new(alloc);
    let mut line = String::from_str(alloc, front)?;
    for text in texts {
        if line.len() > front.len() && !has_room(line.as_str(), text.as_str()) {
            push_line(alloc, &mut lines, line.as_str())?;
            line = String::from_str(alloc, front)?;
        }
        let begun = line.len();
        line.push_str(text.as_str())?;
        push_gap(&mut line, begun)?;
    }
    if !texts.is_empty() {
        push_line(alloc, &mut lines, line.as_str())?;
    }
    Ok(lines)
}

// When each device of a relay was heard.
fn heard_texts(alloc: Global, network: &[Contacted]) -> Result<Vec<String>, AllocError>
    ensures { IfOk result
        (λ texts. map string_bytes texts.items ≡ map spec.device_words network.now) }
{
    let mut texts = Vec::with_capacity(alloc, network.len())?;
    for contact in network {
        texts.push(device_words(alloc, contact)?)?;
    }
    Ok(texts)
}

/// When each device of a relay was heard, as many devices a line as fit.
pub(crate) fn heard_lines(alloc: Global, network: &[Contacted]) -> Result<Vec<String>, AllocError>
    ensures { IfOk result (λ lines. AreFit lines.items) }
{
    let texts = heard_texts(alloc, network)?;
    packed(alloc, HEARD, &texts)
}

/// What devices told of themselves, as much of it a line as fits.
pub(crate) fn claim_lines(alloc: Global, network: &[Contacted]) -> Result<Vec<String>, AllocError>
    ensures { IfOk result (λ lines. AreFit lines.items) }
{
    let texts = claim_texts(alloc, network)?;
    packed(alloc, SAYS, &texts)
}
