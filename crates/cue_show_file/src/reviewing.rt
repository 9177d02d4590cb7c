//! What a controller takes, and an evening may not.
ghost use Rattle.std.specs.Prelude.{◌≡◌, ◌==◌, ◌&&◌, IfOk, false, length};
ghost use Rattle.std.specs.List.{list_all};
ghost use Rattle.cue_show_file.specs.Reading.{is_clean};
ghost use Rattle.cue_show_file.specs.Reviewed.{are_together, has_listen, has_something, is_apart, is_reviewed};
ghost use Rattle.cue_show_file.specs.Together.{is_group};

use crate::file::{CueEntry, DeviceEntry, ShowFile};
use crate::mistake::{Finding, Findings, Mistake, Subject};
use crate::together::{MAX_COMPANIONS, are_apart, is_group};
use cue_show::{CueNo, DeviceNo};
use std::alloc::{AllocError, Global};

/// The port at which the controller listens, if nobody says another.
const USUAL_PORT: u16 = 9100;

/// What may spoil the evening with a file that a controller takes.
#[derive(Drop)]
pub struct Review {
    /// What has to be mended.
    pub mistakes: Vec<Finding>,
    /// What may be meant so.
    pub hints: Vec<Finding>,
}

// Notes a device that has the port of the controller.
fn note_own_port(
    findings: &mut Findings,
    port: Option<u16>,
    entry: &DeviceEntry,
) -> Result<(), AllocError>
    ensures { IfOk result (λ _. is_clean findings.new ≡ (is_clean findings.old && is_apart port entry.now)) }
{
    match port {
        Some(port) if port == entry.port => {
            findings.look_at(entry.line, Subject::Device(entry.number));
            findings.note(Mistake::OwnPort)
        }
        _ => Ok(()),
    }
}

// Notes each device that has the port of the controller.
fn note_own_ports(
    findings: &mut Findings,
    port: Option<u16>,
    entries: &[DeviceEntry],
) -> Result<(), AllocError>
    ensures { IfOk result (λ _. is_clean findings.new
        ≡ (is_clean findings.old && list_all (λ e. is_apart port e) entries.now)) }
{
    match entries {
        [] => Ok(()),
        [first, rest @ ..] => {
            note_own_port(findings, port, first)?;
            note_own_ports(findings, port, rest)
        }
    }
}

// Notes a device that has an address, if the file does not say where this machine is.
fn note_address(
    findings: &mut Findings,
    listen: Option<u32>,
    entry: &DeviceEntry,
) -> Result<(), AllocError>
    ensures { IfOk result (λ _. is_clean findings.new ≡ (is_clean findings.old && has_listen listen entry.now)) }
{
    match (listen, entry.address) {
        (None, Some(_)) => {
            findings.look_at(entry.line, Subject::Device(entry.number));
            findings.note(Mistake::NoListen)
        }
        _ => Ok(()),
    }
}

// Notes each device that has an address, if the file does not say where this machine is.
fn note_addresses(
    findings: &mut Findings,
    listen: Option<u32>,
    entries: &[DeviceEntry],
) -> Result<(), AllocError>
    ensures { IfOk result (λ _. is_clean findings.new
        ≡ (is_clean findings.old && list_all (λ e. has_listen listen e) entries.now)) }
{
    match entries {
        [] => Ok(()),
        [first, rest @ ..] => {
            note_address(findings, listen, first)?;
            note_addresses(findings, listen, rest)
        }
    }
}

// Notes each of these cues that the file does not have.
fn note_unknown_companions(
    findings: &mut Findings,
    entries: &[CueEntry],
    cues: &[CueNo],
) -> Result<(), AllocError> {
    for cue in cues {
        if !entries.iter().any(|entry| entry.number == *cue) {
            findings.note(Mistake::UnknownWith(*cue))?;
        }
    }
    Ok(())
}

// Notes each of the others that cannot be live beside the cue.
fn note_clashes(
    findings: &mut Findings,
    entries: &[CueEntry],
    cue: CueNo,
    others: &[CueNo],
) -> Result<(), AllocError> {
    for other in others {
        if cue == *other {
            findings.note(Mistake::TwiceWith(cue))?;
        } else if !are_apart(entries, cue, *other) {
            findings.note(Mistake::SharedWith(cue, *other))?;
        }
    }
    Ok(())
}

// Notes why the cue cannot be stood by with its companions; a file that has the cue twice is another mistake.
fn note_why_apart(
    findings: &mut Findings,
    entries: &[CueEntry],
    entry: &CueEntry,
) -> Result<(), AllocError>
    ensures { IfOk result (λ _. is_clean findings.new ≡ false) }
{
    let others = entry.companions.as_slice();
    findings.look_at(entry.line, Subject::Cue(entry.number));
    note_unknown_companions(findings, entries, others)?;
    note_clashes(findings, entries, entry.number, others)?;
    for (index, cue) in others.iter().enumerate() {
        note_clashes(findings, entries, *cue, &others[index + 1..])?;
    }
    if others.len() > MAX_COMPANIONS || findings.len() == 0 {
        findings.note(Mistake::TooManyWith)?;
    }
    Ok(())
}

// Notes a cue that cannot be stood by with its companions.
fn note_companions(
    findings: &mut Findings,
    entries: &[CueEntry],
    entry: &CueEntry,
) -> Result<(), AllocError>
    ensures { IfOk result (λ _. is_clean findings.new ≡ (is_clean findings.old && is_group entries.now entry.now)) }
{
    if is_group(entries, entry) {
        return Ok(());
    }
    note_why_apart(findings, entries, entry)
}

// Notes each of these cues that cannot be stood by with its companions.
fn note_all_companions(
    findings: &mut Findings,
    entries: &[CueEntry],
    rest: &[CueEntry],
) -> Result<(), AllocError>
    ensures { IfOk result (λ _. is_clean findings.new
        ≡ (is_clean findings.old && are_together entries.now rest.now)) }
{
    match rest {
        [] => Ok(()),
        [first, rest @ ..] => {
            note_companions(findings, entries, first)?;
            note_all_companions(findings, entries, rest)
        }
    }
}

// Notes a file that has nothing.
fn note_empty(findings: &mut Findings, file: &ShowFile) -> Result<(), AllocError>
    ensures { IfOk result (λ _. is_clean findings.new ≡ (is_clean findings.old && has_something file.now)) }
{
    if file.devices.is_empty() && file.cues.is_empty() {
        findings.look_at(None, Subject::File);
        return findings.note(Mistake::Empty);
    }
    Ok(())
}

// Notes each device that has the port of the controller, or an address that nobody can reach.
fn note_devices(findings: &mut Findings, file: &ShowFile) -> Result<(), AllocError>
    ensures { IfOk result (λ _. is_clean findings.new
        ≡ ((is_clean findings.old && list_all (λ e. is_apart file.now.port e) file.now.devices.items)
        && list_all (λ e. has_listen file.now.listen e) file.now.devices.items)) }
{
    note_own_ports(findings, file.port, &file.devices)?;
    note_addresses(findings, file.listen, &file.devices)
}

// Notes all that has to be mended.
fn note_all(findings: &mut Findings, file: &ShowFile) -> Result<(), AllocError>
    ensures { IfOk result (λ _. is_clean findings.new ≡ (is_clean findings.old && is_reviewed file.now)) }
{
    note_empty(findings, file)?;
    note_devices(findings, file)?;
    note_all_companions(findings, &file.cues, &file.cues)
}

// What has to be mended.
fn mistakes_of(alloc: Global, file: &ShowFile) -> Result<Vec<Finding>, AllocError>
    ensures { IfOk result (λ found. (length found.items == 0) ≡ is_reviewed file.now) }
{
    let mut findings = Findings::new(alloc);
    note_all(&mut findings, file)?;
    Ok(findings.into_vec())
}

// The first of these devices that has the port.
fn first_at(entries: &[DeviceEntry], port: u16) -> Option<DeviceNo> {
    let entry = entries.iter().find(|entry| entry.port == port)?;
    Some(entry.number)
}

// Hints at each device that has the port of an earlier one.
fn hint_at_shared(findings: &mut Findings, entries: &[DeviceEntry]) -> Result<(), AllocError> {
    for (index, entry) in entries.iter().enumerate() {
        if let Some(first) = first_at(&entries[..index], entry.port) {
            findings.look_at(entry.line, Subject::Device(entry.number));
            findings.note(Mistake::SharedPort(first))?;
        }
    }
    Ok(())
}

// Hints at each device that has the port of a controller to which nobody says another one.
fn hint_at_usual(findings: &mut Findings, file: &ShowFile) -> Result<(), AllocError> {
    for entry in &file.devices {
        if file.port.is_none() && entry.port == USUAL_PORT {
            findings.look_at(entry.line, Subject::Device(entry.number));
            findings.note(Mistake::UsualPort)?;
        }
    }
    Ok(())
}

// What may be meant so.
fn hints_at(alloc: Global, file: &ShowFile) -> Result<Vec<Finding>, AllocError> {
    let mut findings = Findings::new(alloc);
    hint_at_usual(&mut findings, file)?;
    hint_at_shared(&mut findings, &file.devices)?;
    Ok(findings.into_vec())
}

/// What a controller takes of a file, and an evening may not: a device at the controller's own port, an address without
/// `listen`, cues that cannot stand by together, nothing at all; and, as hints, two devices at one port, and one at the
/// controller's usual port.
pub fn review_of(alloc: Global, file: &ShowFile) -> Result<Review, AllocError>
    ensures { IfOk result (λ found. (length found.mistakes.items == 0) ≡ is_reviewed file.now) }
{
    Ok(Review {
        mistakes: mistakes_of(alloc, file)?,
        hints: hints_at(alloc, file)?,
    })
}
