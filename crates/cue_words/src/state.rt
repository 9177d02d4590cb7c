//! A state as text: what `show` prints.
ghost use Rattle.std.specs.Prelude.{◌≡◌, ◌++◌, ◌∷◌, [], codes, IfOk, OnOk};
ghost use Rattle.std.specs.List.{flat_map};
ghost use Rattle.cue_words.specs.ShowText.{
  place_text,
  ended_text,
  device_line,
  cue_line,
  stage_word,
  attempt_line,
  head_text,
  show_text,
};

use cue_core::{Ended, State};
use cue_exchange::{Attempt, Stage};
use cue_show::{CueNo, DeviceNo, Parts, Show};
use std::alloc::{AllocError, Global};

/// The state as `show` prints it, in ASCII: the last number, the place, how the last attempt ended, and then a line for
/// each device, each cue with how many parts it has, and each attempt with its cue and how far it has come.
#[tactic(auto, unfolding(crate::specs::ShowText::show_text))]
pub fn show_text(alloc: Global, state: &State) -> Result<Vec<u8>, AllocError>
    ensures { IfOk result (λ text. text.items ≡ show_text state.now) }
{
    let mut text = Vec::new(alloc);
    print_head(alloc, &mut text, state)?;
    print_devices(alloc, &mut text, state.show())?;
    print_cues(alloc, &mut text, state.show())?;
    print_attempts(alloc, &mut text, state.live().as_slice())?;
    Ok(text)
}

// The first three lines.
fn print_head(alloc: Global, text: &mut Vec<u8>, state: &State) -> Result<(), AllocError>
    ensures { OnOk result (text.new.items ≡ text.old.items ++ head_text state.now) }
{
    let last = state.last_seq();
    text.extend_from_slice(format!(in alloc; "last {last}\n")?.as_bytes())?;
    print_place(text, state.show().place())?;
    print_ended(alloc, text, state.ended())
}

fn print_place(text: &mut Vec<u8>, place: Option<CueNo>) -> Result<(), AllocError>
    ensures { OnOk result (text.new.items ≡ text.old.items ++ (codes "place " ++ (place_text place ++ (10 ∷ [])))) }
{
    text.extend_from_slice(b"place ")?;
    match place {
        Some(cue) => text.extend_from_slice(cue.text())?,
        None => text.extend_from_slice(b"-")?,
    }
    text.extend_from_slice(b"\n")
}

fn print_ended(alloc: Global, text: &mut Vec<u8>, ended: Option<Ended>) -> Result<(), AllocError>
    ensures { OnOk result (text.new.items ≡ text.old.items ++ (codes "ended " ++ (ended_text ended ++ (10 ∷ [])))) }
{
    match ended {
        Some(ended) => {
            let seq = ended.seq;
            let outcome = ended.outcome.number();
            text.extend_from_slice(format!(in alloc; "ended {seq} {outcome}\n")?.as_bytes())
        }
        None => text.extend_from_slice(b"ended 0 0\n"),
    }
}

fn print_device(
    alloc: Global,
    text: &mut Vec<u8>,
    device: DeviceNo,
    port: u16,
) -> Result<(), AllocError>
    ensures { OnOk result (text.new.items ≡ text.old.items ++ device_line (device, port)) }
{
    let number = device.number();
    text.extend_from_slice(format!(in alloc; "device {number} {port}\n")?.as_bytes())
}

fn print_devices(alloc: Global, text: &mut Vec<u8>, show: &Show) -> Result<(), AllocError>
    ensures { OnOk result (text.new.items ≡ text.old.items ++ flat_map device_line show.now.devices) }
{
    for (device, port) in show.devices() {
        print_device(alloc, text, *device, *port)?;
    }
    Ok(())
}

fn print_cue(alloc: Global, text: &mut Vec<u8>, cue: CueNo, parts: &Parts) -> Result<(), AllocError>
    ensures { OnOk result (text.new.items ≡ text.old.items ++ cue_line (cue, parts.now)) }
{
    let count = parts.as_slice().len();
    text.extend_from_slice(b"cue ")?;
    text.extend_from_slice(cue.text())?;
    text.extend_from_slice(format!(in alloc; " {count}\n")?.as_bytes())
}

fn print_cues(alloc: Global, text: &mut Vec<u8>, show: &Show) -> Result<(), AllocError>
    ensures { OnOk result (text.new.items ≡ text.old.items ++ flat_map cue_line show.now.cues) }
{
    for (cue, parts) in show.cues() {
        print_cue(alloc, text, *cue, parts)?;
    }
    Ok(())
}

// How far an attempt has come.
fn stage_word(stage: Stage) -> &'static [u8]
    ensures { result.now ≡ stage_word stage }
{
    match stage {
        Stage::Preparing => b"preparing",
        Stage::Decided => b"decided",
        Stage::Cancelling(_) => b"cancelling",
    }
}

fn print_attempt(alloc: Global, text: &mut Vec<u8>, attempt: &Attempt) -> Result<(), AllocError>
    ensures { OnOk result (text.new.items ≡ text.old.items ++ attempt_line attempt.now) }
{
    let seq = attempt.seq;
    text.extend_from_slice(format!(in alloc; "attempt {seq} ")?.as_bytes())?;
    text.extend_from_slice(attempt.cue.text())?;
    text.extend_from_slice(b" ")?;
    text.extend_from_slice(stage_word(attempt.stage))?;
    text.extend_from_slice(b"\n")
}

fn print_attempts(alloc: Global, text: &mut Vec<u8>, attempts: &[Attempt]) -> Result<(), AllocError>
    ensures { OnOk result (text.new.items ≡ text.old.items ++ flat_map attempt_line attempts.now) }
{
    for attempt in attempts {
        print_attempt(alloc, text, attempt)?;
    }
    Ok(())
}
