//! What the command `check` finds in the text of a show file, and how it ends.
ghost use Rattle.std.specs.Prelude.{◌≡◌, ◌==◌, IfOk, length, not, string_bytes};
ghost use Rattle.std.specs.List.Sorted.{IsNonDecreasingBy, IsPermutation};
ghost use Rattle.cue_findings.specs.Checking as checking;
ghost use Rattle.cue_findings.specs.Words.{plural_end, sound_words};
ghost use Rattle.cue_show_file.specs.Reviewed.{line_of};

use crate::judging::{Looked, look_at};
use cue_desk::ending::Ending;
use cue_rehearsal::{PlanFault, read_plan};
use cue_rehearsal_plan::unknown_devices;
use cue_show::DeviceNo;
use cue_show_file::{Finding, Review, ShowFile, by_line, review_of};
use std::alloc::{AllocError, Global};
use toml::Table;

/// All that is found in the text of a show file.
#[derive(Drop)]
pub struct Found {
    /// What has to be mended, by lines.
    pub mistakes: Vec<Finding>,
    /// What may be meant so.
    pub hints: Vec<Finding>,
    /// The devices that the table `[rehearse]` names and the file does not have; else why it is no plan.
    pub plan: Result<Vec<DeviceNo>, PlanFault>,
    /// The line of the table `[rehearse]`, from 1, if it can be seen.
    pub rehearse: Option<usize>,
    /// How many devices the file has.
    pub devices: usize,
    /// How many cues it has.
    pub cues: usize,
}

// The mistakes of a file, and then those that a review adds, unless nothing of the file could be read.
fn joined(
    told: Vec<Finding>,
    reviewed: Vec<Finding>,
    has_device: bool,
) -> Result<Vec<Finding>, AllocError>
    ensures { IfOk result (λ all. all.items ≡ checking.all_of told.items reviewed.items has_device) }
{
    let mut all = told;
    let mut reviewed = reviewed;
    if all.is_empty() || has_device {
        all.append(&mut reviewed)?;
    }
    Ok(all)
}

// All mistakes by their lines: those of a file, and what an evening would not take of it.
fn all_mistakes(
    told: Vec<Finding>,
    reviewed: Vec<Finding>,
    has_device: bool,
) -> Result<Vec<Finding>, AllocError>
    ensures all { IfOk result (λ all. IsPermutation (checking.all_of told.items reviewed.items has_device) all.items) }
    ensures sorted { IfOk result (λ all. IsNonDecreasingBy (λ x. line_of x) all.items) }
{
    by_line(joined(told, reviewed, has_device)?)
}

// The devices that the plan of the file names and the file does not have; else why there is no plan.
fn plan_found(
    alloc: Global,
    table: &Table,
    file: &ShowFile,
) -> Result<Result<Vec<DeviceNo>, PlanFault>, AllocError>
    ensures { IfOk result (checking.IsPlanFound file.now) }
{
    match read_plan(alloc, table) {
        Ok(plan) => Ok(Ok(unknown_devices(alloc, file, &plan)?)),
        Err(PlanFault::Memory) => Err(AllocError),
        Err(fault) => Ok(Err(fault)),
    }
}

// Whether the file has a device.
fn has_device(file: &ShowFile) -> bool
    ensures { result ≡ not (length file.now.devices.items == 0) }
{
    !file.devices.is_empty()
}

/// All that is found in the text of a show file: each mistake, once and by lines; each hint; and what does not fit in
/// its plan of a rehearsal.
pub fn found_in(alloc: Global, text: &str) -> Result<Found, AllocError>
    ensures { IfOk result (checking.IsFoundIn text.now) }
{
    let Looked {
        file,
        table,
        rehearse,
        told,
        ..
    } = look_at(alloc, text)?;
    let Review { mistakes, hints } = review_of(alloc, &file)?;
    let mistakes = all_mistakes(told, mistakes, has_device(&file))?;
    let plan = plan_found(alloc, &table, &file)?;
    Ok(Found {
        mistakes,
        hints,
        plan,
        rehearse,
        devices: file.devices.len(),
        cues: file.cues.len(),
    })
}

// Whether something of a plan does not fit.
fn is_unfit(plan: &Result<Vec<DeviceNo>, PlanFault>) -> bool
    ensures { result ≡ checking.is_unfit plan.now }
{
    match plan {
        Ok(unknown) => !unknown.is_empty(),
        Err(_) => true,
    }
}

impl Found {
    /// How `check` ends; none, which is status 0, exactly if there is no mistake. A hint ends nothing.
    pub fn ending(&self) -> Option<Ending>
        ensures { result ≡ checking.ending_of self.now }
    {
        if self.mistakes.is_empty() && !is_unfit(&self.plan) {
            None
        } else {
            Some(Ending::Refused)
        }
    }
}

/// The line of a file that has no mistake, and so many devices and cues.
pub fn sound_line(alloc: Global, devices: usize, cues: usize) -> Result<String, AllocError>
    ensures { IfOk result (λ line. string_bytes line ≡ sound_words devices cues) }
{
    let (device_end, cue_end) = (plural_end(devices), plural_end(cues));
    format!(in alloc; "no mistake: {devices} device{device_end}, {cues} cue{cue_end}\n")
}

// What a word ends with of which there are so many.
fn plural_end(count: usize) -> &'static str
    ensures { result.now ≡ plural_end count }
{
    if count == 1 { "" } else { "s" }
}
