//! What a controller with an empty show makes of a show file: each device and each cue in turn is put into a show, or
//! it is said why that cannot be.
ghost use Rattle.std.specs.Prelude.{◌≡◌, ◌==◌, ◌&&◌, IfOk, IsTrue, false, is_some, length};
ghost use Rattle.cue_show.specs.Show.{empty_show};
ghost use Rattle.cue_show_file.specs.Accepted.{after_cue, after_cues, after_device, after_devices, after_file, if_all};
ghost use Rattle.cue_show_file.specs.Reading.{is_clean};

use crate::file::{CueEntry, DeviceEntry, ShowFile};
use crate::mistake::{Finding, Findings, Mistake, Subject};
use cue_show::limits::{MAX_DEVICES, MAX_PARTS};
use cue_show::{Parts, Show};
use std::alloc::{AllocError, Global};

/// What a controller with an empty show makes of a file.
#[derive(Drop)]
pub struct Checked {
    /// The show that the file makes; none if a device or a cue of it is refused.
    pub show: Option<Show>,
    /// Why: devices first, then cues, each in the order of the file.
    pub findings: Vec<Finding>,
}

// Puts a device into the show; whether it is taken.
fn check_device(
    show: &mut Show,
    findings: &mut Findings,
    entry: &DeviceEntry,
) -> Result<bool, AllocError>
    ensures show { IfOk result (λ taken. after_device show.old entry.now ≡ if_all taken show.new) }
    ensures told { IfOk result (λ taken. is_clean findings.new ≡ (is_clean findings.old && taken)) }
{
    findings.look_at(entry.line, Subject::Device(entry.number));
    if show.can_add_device(entry.number, entry.port) {
        show.add_device(entry.number, entry.port)?;
        return Ok(true);
    }
    findings.note(if show.has_device(entry.number) {
        Mistake::DeviceTwice
    } else {
        Mistake::BadPort
    })?;
    Ok(false)
}

// Notes each device of the parts that the show does not have.
fn note_unknown(show: &Show, findings: &mut Findings, parts: &Parts) -> Result<(), AllocError> {
    for part in parts.as_slice() {
        if !show.has_device(part.device) {
            findings.note(Mistake::UnknownDevice(part.device))?;
        }
    }
    Ok(())
}

// Notes each part that is too long.
fn note_long(findings: &mut Findings, parts: &Parts) -> Result<(), AllocError>
    ensures { IfOk result (λ _. IsTrue (is_clean findings.new) → IsTrue (is_clean findings.old)) }
{
    for part in parts.as_slice() {
        if !part.is_fit() {
            findings.note(Mistake::TooLong(part.device))?;
        }
    }
    Ok(())
}

// Notes each part whose device an earlier part has.
fn note_twice(findings: &mut Findings, parts: &Parts) -> Result<(), AllocError>
    ensures { IfOk result (λ _. IsTrue (is_clean findings.new) → IsTrue (is_clean findings.old)) }
{
    let mut seen = [false; MAX_DEVICES];
    for part in parts.as_slice() {
        let device = usize::from(part.device.number());
        if seen[device] {
            findings.note(Mistake::PartTwice(part.device))?;
        }
        seen[device] = true;
    }
    Ok(())
}

// Notes each part whose device is none of these.
fn note_unlisted(
    findings: &mut Findings,
    devices: &[DeviceEntry],
    parts: &Parts,
) -> Result<(), AllocError>
    ensures { IfOk result (λ _. IsTrue (is_clean findings.new) → IsTrue (is_clean findings.old)) }
{
    for part in parts.as_slice() {
        if !devices.iter().any(|entry| entry.number == part.device) {
            findings.note(Mistake::UnknownDevice(part.device))?;
        }
    }
    Ok(())
}

/// Notes what can be said of the parts of a cue that cannot be put on a stack, since not all of it could be read.
pub(crate) fn note_torn(
    findings: &mut Findings,
    devices: &[DeviceEntry],
    parts: &Parts,
) -> Result<(), AllocError>
    ensures { IfOk result (λ _. IsTrue (is_clean findings.new) → IsTrue (is_clean findings.old)) }
{
    note_long(findings, parts)?;
    note_twice(findings, parts)?;
    note_unlisted(findings, devices, parts)
}

// Notes what is wrong with how many parts there are.
fn note_count(findings: &mut Findings, parts: &Parts) -> Result<(), AllocError> {
    if parts.as_slice().is_empty() {
        return findings.note(Mistake::NoPart);
    }
    if !parts.has_required_part() {
        findings.note(Mistake::NoRequiredPart)?;
    }
    if parts.as_slice().len() > MAX_PARTS {
        findings.note(Mistake::TooManyParts)?;
    }
    Ok(())
}

// Notes that the cue is refused, if nothing was found that says why.
fn note_refused(findings: &mut Findings) -> Result<(), AllocError>
    ensures { IfOk result (λ _. is_clean findings.new ≡ false) }
{
    if findings.len() == 0 {
        return findings.note(Mistake::Refused);
    }
    Ok(())
}

// Notes why the cue cannot be put on the stack.
fn note_cue(show: &Show, findings: &mut Findings, entry: &CueEntry) -> Result<(), AllocError>
    ensures { IfOk result (λ _. is_clean findings.new ≡ false) }
{
    if show.has_cue(entry.number) || findings.has_refused(entry.number) {
        findings.note(Mistake::CueTwice)?;
    } else if show.is_full() {
        findings.note(Mistake::TooManyCues)?;
    }
    note_count(findings, &entry.parts)?;
    note_long(findings, &entry.parts)?;
    note_twice(findings, &entry.parts)?;
    note_unknown(show, findings, &entry.parts)?;
    note_refused(findings)
}

// Notes a cue that is taken, if an earlier one with its number was refused.
fn note_again(findings: &mut Findings, entry: &CueEntry) -> Result<(), AllocError>
    ensures { IfOk result (λ _. is_clean findings.new ≡ is_clean findings.old) }
{
    if findings.has_refused(entry.number) {
        findings.note(Mistake::CueTwice)?;
    }
    Ok(())
}

// Puts a cue on the stack; whether it is taken.
fn check_cue(show: &mut Show, findings: &mut Findings, entry: &CueEntry) -> Result<bool, AllocError>
    ensures show { IfOk result (λ taken. after_cue show.old entry.now ≡ if_all taken show.new) }
    ensures told { IfOk result (λ taken. is_clean findings.new ≡ (is_clean findings.old && taken)) }
{
    findings.look_at(entry.line, Subject::Cue(entry.number));
    if show.can_add_cue(entry.number, &entry.parts) {
        show.add_cue(entry.number, entry.parts.clone()?)?;
        note_again(findings, entry)?;
        return Ok(true);
    }
    note_cue(show, findings, entry)?;
    findings.refuse(entry.number)?;
    Ok(false)
}

// Puts each device into the show; whether all are taken.
fn check_devices(
    show: &mut Show,
    findings: &mut Findings,
    entries: &[DeviceEntry],
) -> Result<bool, AllocError>
    ensures show { IfOk result (λ all. after_devices show.old entries.now ≡ if_all all show.new) }
    ensures told { IfOk result (λ all. is_clean findings.new ≡ (is_clean findings.old && all)) }
{
    let mut all = true;
    for entry in entries {
        all &= check_device(show, findings, entry)?;
    }
    Ok(all)
}

// Puts each cue on the stack; whether all are taken.
fn check_cues(
    show: &mut Show,
    findings: &mut Findings,
    entries: &[CueEntry],
) -> Result<bool, AllocError>
    ensures show { IfOk result (λ all. after_cues show.old entries.now ≡ if_all all show.new) }
    ensures told { IfOk result (λ all. is_clean findings.new ≡ (is_clean findings.old && all)) }
{
    let mut all = true;
    for entry in entries {
        all &= check_cue(show, findings, entry)?;
    }
    Ok(all)
}

// The show, if all of a file is taken.
fn taken(show: Show, devices: bool, cues: bool) -> Option<Show>
    ensures show { result ≡ if_all (devices && cues) show }
    ensures some { is_some result ≡ (devices && cues) }
{
    if devices && cues { Some(show) } else { None }
}

/// Puts what the file has into an empty show, devices first, and reports what cannot be put there.
pub fn check(alloc: Global, file: &ShowFile) -> Result<Checked, AllocError>
    ensures show { IfOk result (λ trial. trial.show ≡ after_file empty_show file.now) }
    ensures told { IfOk result (λ trial. (length trial.findings.items == 0) ≡ is_some trial.show) }
{
    let mut show = Show::new(alloc);
    let mut findings = Findings::new(alloc);
    let devices = check_devices(&mut show, &mut findings, &file.devices)?;
    let cues = check_cues(&mut show, &mut findings, &file.cues)?;
    Ok(Checked {
        show: taken(show, devices, cues),
        findings: findings.into_vec(),
    })
}
