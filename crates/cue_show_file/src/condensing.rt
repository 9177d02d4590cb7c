//! Findings as people read them: what has one cause has one line.
ghost use Rattle.std.specs.Prelude.{◌≡◌, ◌==◌, ◌&&◌, IfOk, false, length};
ghost use Rattle.std.specs.List.Sorted.{IsNonDecreasingBy, IsPermutation};
ghost use Rattle.cue_show_file.specs.Reviewed.{line_of};

use crate::mistake::{Finding, Key, Mistake, Subject};
use cue_show::DeviceNo;
use cue_show::limits::MAX_DEVICES;
use std::alloc::{AllocError, Global};

/// Of how many cues parts are for each device that the file does not have, and how often that was told.
#[derive(Drop)]
struct Unknown {
    counts: [usize; MAX_DEVICES],
    last: [Subject; MAX_DEVICES],
    told: [bool; MAX_DEVICES],
    // How many devices of the file have no number that can be read. They may be those that the parts are for.
    numberless: usize,
}

impl Unknown {
    const NONE: Unknown = Unknown {
        counts: [0; MAX_DEVICES],
        last: [Subject::File; MAX_DEVICES],
        told: [false; MAX_DEVICES],
        numberless: 0,
    };

    // One more part of this cue is for the device. Several of one cue count once.
    fn count(&mut self, subject: Subject, device: DeviceNo) {
        let index = usize::from(device.number());
        if self.last[index] != subject {
            self.last[index] = subject;
            self.counts[index] = self.counts[index].saturating_add(1);
        }
    }

    // Looks at a finding.
    fn look_at(&mut self, finding: &Finding) {
        match &finding.mistake {
            Mistake::UnknownDevice(device) => self.count(finding.subject, *device),
            Mistake::BadDevice | Mistake::Missing(Key::Number) | Mistake::OtherKind(Key::Number) =>
                {
                    if matches!(finding.subject, Subject::DeviceAt(_)) {
                        self.numberless = self.numberless.saturating_add(1);
                    }
                }
            _ => {}
        }
    }

    // Whether the devices that have no number may be all those that the file does not have.
    fn is_explained(&self) -> bool {
        let unknown = self.counts.iter().filter(|count| **count > 0).count();
        unknown <= self.numberless
    }

    // What is told of a device that the file does not have; none if it was told.
    fn telling(&mut self, device: DeviceNo) -> Option<Mistake> {
        let index = usize::from(device.number());
        if self.told[index] {
            return None;
        }
        self.told[index] = true;
        let others = self.counts[index].saturating_sub(1);
        Some(if self.is_explained() {
            Mistake::UnknownYet(device, others)
        } else if others > 0 {
            Mistake::UnknownInCues(device, others)
        } else {
            Mistake::UnknownDevice(device)
        })
    }
}

// Puts a finding after the others, unless another one tells the same.
fn tell(
    found: &mut Vec<Finding>,
    unknown: &mut Unknown,
    finding: Finding,
) -> Result<(), AllocError> {
    let Finding {
        line,
        subject,
        mistake,
    } = finding;
    let mistake = match mistake {
        Mistake::UnknownDevice(device) => match unknown.telling(device) {
            Some(mistake) => mistake,
            None => return Ok(()),
        },
        mistake => mistake,
    };
    found.push(Finding {
        line,
        subject,
        mistake,
    })?;
    Ok(())
}

// What was found of a file in which something was: one finding at least.
fn at_least_one(found: &mut Vec<Finding>) -> Result<(), AllocError>
    ensures { IfOk result (λ _. (length found.new.items == 0) ≡ false) }
{
    if found.is_empty() {
        found.push(Finding {
            line: None,
            subject: Subject::File,
            mistake: Mistake::Refused,
        })?;
    }
    Ok(())
}

// The line of a finding; 0 if it has none.
fn line_of(finding: &Finding) -> usize
    ensures { result ≡ line_of finding.now }
{
    finding.line.unwrap_or(0)
}

// All that is told of these findings.
fn told(
    alloc: Global,
    read: Vec<Finding>,
    checked: Vec<Finding>,
) -> Result<Vec<Finding>, AllocError> {
    let mut unknown = Unknown::NONE;
    for finding in read.iter().chain(checked.iter()) {
        unknown.look_at(finding);
    }
    let mut found = Vec::new(alloc);
    for finding in read {
        tell(&mut found, &mut unknown, finding)?;
    }
    for finding in checked {
        tell(&mut found, &mut unknown, finding)?;
    }
    Ok(found)
}

/// These findings by their lines, those of one line as they were found. What has no line comes first.
pub fn by_line(findings: Vec<Finding>) -> Result<Vec<Finding>, AllocError>
    ensures all { IfOk result (λ found. IsPermutation findings.items found.items) }
    ensures sorted { IfOk result (λ found. IsNonDecreasingBy (λ f. line_of f) found.items) }
    ensures none { IfOk result (λ found. length found.items ≡ length findings.items) }
{
    let mut findings = findings;
    findings.sort_by_key(|finding| line_of(finding))?;
    Ok(findings)
}

/// What is reported of the findings of `read` and of `check`, by their lines. That parts are for a device which the
/// file does not have is reported once for each device, with how many cues it concerns; in other words if as many
/// devices of the file have no number that can be read, since they may be those. There is nothing to report exactly if
/// nothing was found.
pub fn condensed(
    alloc: Global,
    read: Vec<Finding>,
    checked: Vec<Finding>,
) -> Result<Vec<Finding>, AllocError>
    ensures { IfOk result (λ found. (length found.items == 0)
        ≡ ((length read.items == 0) && (length checked.items == 0))) }
{
    if read.is_empty() && checked.is_empty() {
        return Ok(Vec::new(alloc));
    }
    let mut found = told(alloc, read, checked)?;
    at_least_one(&mut found)?;
    by_line(found)
}
