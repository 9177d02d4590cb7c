//! The plan of a rehearsal: what does not fit in it is said at once.
ghost use Rattle.std.specs.Prelude.{◌≡◌, IfOk, OnOk, []};
ghost use Rattle.cue_rehearsal_plan.specs.Unknown.{unknown_devices};
ghost use Rattle.cue_rehearsal_run.specs.Planning as planning;

use cue_desk::ending::Ending;
use cue_rehearsal::{Plan, PlanFault, read_plan};
use cue_rehearsal_plan::{PlanPlace, UnknownWords, fault_text, unknown_devices};
use cue_saying::{Shown, say};
use cue_show::DeviceNo;
use cue_show_file::ShowFile;
use std::alloc::AllocError;
use std::io::Eprint;
use toml::Table;

/// Says why a table is no plan.
pub fn say_fault<R: Eprint + AllocGlobal>(
    rt: &R,
    at: PlanPlace<'_>,
    fault: &PlanFault,
) -> Result<(), AllocError> {
    let text = fault_text(rt.alloc(), fault)?;
    let what = Shown {
        text: text.as_str(),
    };
    let _ = rt.eprintln(format_args!("{at}: {what}"));
    Ok(())
}

/// Says of each of these devices that the file does not have it; with the place of the plan, if it is of the file alone.
pub fn say_unknown<R: Eprint>(rt: &R, at: Option<PlanPlace<'_>>, unknown: &[DeviceNo]) {
    for device in unknown {
        let what = UnknownWords { device: *device };
        match at {
            Some(at) => {
                let _ = rt.eprintln(format_args!("{at}: {what}"));
            }
            None => say(rt, what),
        }
    }
}

// How a command ends that has such a plan.
fn ending_of(fault: &PlanFault) -> Ending
    ensures { result ≡ planning.ending_of fault.now }
{
    match fault {
        PlanFault::Memory => Ending::Failed,
        _ => Ending::Refused,
    }
}

// Says why a table is no plan, unless memory ran out. Answers how the command ends.
fn refused<R: Eprint + AllocGlobal>(
    rt: &R,
    at: PlanPlace<'_>,
    fault: &PlanFault,
) -> Result<Ending, AllocError>
    ensures { IfOk result (λ ending. ending ≡ planning.ending_of fault.now) }
{
    let ending = ending_of(fault);
    if ending == Ending::Refused {
        say_fault(rt, at, fault)?;
    }
    Ok(ending)
}

/// The plan of a show file, of which this is all that TOML reads; else what is wrong with it is on standard error.
pub fn plan_of<R: Eprint + AllocGlobal>(
    rt: &R,
    at: PlanPlace<'_>,
    table: &Table,
) -> Result<Plan, Ending> {
    match read_plan(rt.alloc(), table) {
        Ok(plan) => Ok(plan),
        Err(fault) => Err(refused(rt, at, &fault)?),
    }
}

/// Whether the file has each device that the plan names; else each that it does not have is on standard error.
pub fn fits<R: Eprint + AllocGlobal>(rt: &R, file: &ShowFile, plan: &Plan) -> Result<(), Ending>
    ensures { OnOk result (unknown_devices file.now plan.now ≡ []) }
{
    let unknown = unknown_devices(rt.alloc(), file, plan)?;
    say_unknown(rt, None, &unknown);
    if unknown.is_empty() {
        return Ok(());
    }
    Err(Ending::Refused)
}
