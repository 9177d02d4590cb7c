//! The command `rehearse`: every device of a show file at its own port.
ghost use Rattle.std.specs.Prelude.{◌≡◌, IfOk, []};
ghost use Rattle.cue_rehearsal_plan.specs.Unknown.{unknown_devices};

use cue_desk::ending::Ending;
use cue_desk_line::{Rehearsal, with_flags};
use cue_files_run::{Sound, read_sound};
use cue_rehearsal::Plan;
use cue_rehearsal_plan::PlanPlace;
use cue_rehearsal_run::{fits, plan_of, play, raise_sign};
use std::fs::{File, Files};
use std::io::{Eprint, Write};
use std::net::Net;
use std::time::Clock;

// The plan of a show file, with what the flags say. It fits the file; else what does not is on standard error.
fn plan_for<R: Eprint + AllocGlobal>(
    rt: &R,
    rehearsal: &Rehearsal,
    sound: &Sound,
) -> Result<Plan, Ending>
    ensures { IfOk result (λ plan. unknown_devices sound.now.file plan ≡ []) }
{
    let at = PlanPlace {
        path: rehearsal.file.as_str(),
        line: sound.rehearse,
    };
    let mut plan = plan_of(rt, at, &sound.table)?;
    with_flags(rt.alloc(), &mut plan, &rehearsal.flags)?;
    fits(rt, &sound.file, &plan)?;
    Ok(plan)
}

// Plays the devices of a show file, by its plan and by what the flags say.
fn play_file<R: Files<File = File> + Net + Clock + Eprint + AllocGlobal, W: Write>(
    rt: &R,
    rehearsal: &Rehearsal,
    sound: &Sound,
    writer: &mut W,
) -> Result<(), Ending> {
    let plan = plan_for(rt, rehearsal, sound)?;
    let sign = raise_sign(rt, rehearsal.file.as_str());
    let played = play(rt, &sound.file, &plan, rehearsal.seed, writer);
    drop(sign);
    played
}

/// The command `rehearse`.
pub fn rehearse<R: Files<File = File> + Net + Clock + Eprint + AllocGlobal, W: Write>(
    rt: &R,
    rehearsal: &Rehearsal,
    writer: &mut W,
) -> Result<(), Ending> {
    let sound = read_sound(rt, rehearsal.file.as_str())?;
    let played = play_file(rt, rehearsal, &sound, writer);
    drop(sound);
    played
}
