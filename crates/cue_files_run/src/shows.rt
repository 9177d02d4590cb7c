//! Show files: a mistake, or why nothing was read, is said at once.
ghost use Rattle.std.specs.Prelude.{◌≡◌, IfErr, IfOk, OnOk};
ghost use Rattle.std.specs.Io.KnownBytes.{Appends};
ghost use Rattle.cue_desk.specs.declared.ending.Ending.TheVariants.{Failed};
ghost use Rattle.cue_findings.specs.Judging.{IsSaidBy};
ghost use Rattle.cue_files_run.specs.Reading.{EndsAsFound, PrintsSound, RefusesMistakes};

use cue_desk::ending::Ending;
use cue_findings::{
    FindingWords, Found, Judged, Kind, Sound, found_in, judge, sound_line, unread_words,
};
use cue_rehearsal_plan::PlanPlace;
use cue_rehearsal_run::{say_fault, say_unknown};
use cue_saying::{Shown, print, say};
use cue_show_file::{Finding, ShowFile};
use std::alloc::AllocError;
use std::fs::{self, File, Files};
use std::io::{Eprint, Write};

// The text of a show file; else why it was not read is said.
fn read_text<R: Files<File = File> + Eprint + AllocGlobal>(
    rt: &R,
    path: &str,
) -> Result<String, Ending>
    ensures { IfErr result (λ ending. ending ≡ Failed) }
{
    match fs::read_to_string(rt, path) {
        Ok(text) => Ok(text),
        Err(why) => {
            let path = Shown { text: path };
            match unread_words(why.kind()) {
                Some(words) => say(rt, format_args!("{path}: {words}")),
                None => say(rt, format_args!("{path}: {why}")),
            }
            Err(Ending::Failed)
        }
    }
}

// Says each of these, in order.
fn say_each<R: Eprint>(rt: &R, path: &str, kind: Kind, findings: &[Finding]) {
    for finding in findings {
        let _ = rt.eprintln(FindingWords::of(path, kind, finding));
    }
}

// The file that this text says, if it has no mistake; else each mistake is said.
fn taken<R: Eprint + AllocGlobal>(rt: &R, path: &str, text: &str) -> Result<Sound, Ending>
    ensures said { IfOk result (IsSaidBy text.now) }
    ensures wrong { IfErr result (RefusesMistakes text.now) }
{
    match judge(rt.alloc(), text)? {
        Judged::Sound(sound) => Ok(sound),
        Judged::Wrong(found) => {
            say_each(rt, path, Kind::Mistake, &found);
            Err(Ending::Refused)
        }
    }
}

/// Reads a show file that has no mistake; else each one is on standard error, with the file and the line.
pub fn read_sound<R: Files<File = File> + Eprint + AllocGlobal>(
    rt: &R,
    path: &str,
) -> Result<Sound, Ending> {
    let text = read_text(rt, path)?;
    taken(rt, path, text.as_str())
}

/// Reads a show file that has no mistake, as `read_sound` does.
pub fn read_file<R: Files<File = File> + Eprint + AllocGlobal>(
    rt: &R,
    path: &str,
) -> Result<ShowFile, Ending> {
    let Sound { file, .. } = read_sound(rt, path)?;
    Ok(file)
}

// Says what of the plan does not fit.
fn say_plan<R: Eprint + AllocGlobal>(rt: &R, path: &str, found: &Found) -> Result<(), AllocError> {
    let at = PlanPlace {
        path,
        line: found.rehearse,
    };
    match &found.plan {
        Ok(unknown) => say_unknown(rt, Some(at), unknown),
        Err(fault) => return say_fault(rt, at, fault),
    }
    Ok(())
}

// Says all that was found, and prints how much a file has that has no mistake.
fn check_text<R: Eprint + AllocGlobal, W: Write>(
    rt: &R,
    path: &str,
    text: &str,
    writer: &mut W,
) -> Result<(), Ending>
    ensures sound { OnOk result (PrintsSound text.now (W.contents writer.old) (W.contents writer.new)) }
    ensures ends { IfErr result (EndsAsFound text.now) }
{
    let found = found_in(rt.alloc(), text)?;
    say_each(rt, path, Kind::Mistake, &found.mistakes);
    say_each(rt, path, Kind::Hint, &found.hints);
    say_plan(rt, path, &found)?;
    match found.ending() {
        Some(ending) => Err(ending),
        None => {
            let line = sound_line(rt.alloc(), found.devices, found.cues)?;
            print(writer, line.as_str())
        }
    }
}

/// The command `check`. A mistake ends it with status 1, a hint does not.
pub fn check_file<R: Files<File = File> + Eprint + AllocGlobal, W: Write>(
    rt: &R,
    path: &str,
    writer: &mut W,
) -> Result<(), Ending> {
    let text = read_text(rt, path)?;
    check_text(rt, path, text.as_str(), writer)
}
