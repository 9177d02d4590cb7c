//! Writing the parts of a state, each after what stands already.
ghost use Rattle.std.specs.Prelude.{◌≡◌, ◌≤◌, ◌++◌, length, OnOk};
ghost use Rattle.std.specs.List.{flat_map};
ghost use Rattle.cue_exchange.specs.declared.limits.TheConstants.{MAX_LIVE};
ghost use Rattle.cue_records.specs.declared.parts_form.PartsForm.TheVariants.{Flagged};
ghost use Rattle.cue_records.specs.Fields.{entry_text, new_cue_text};
ghost use Rattle.cue_records.specs.State.{table_text, stack_text, place_text, show_text, ended_text, answers_text};
ghost use Rattle.cue_records.specs.State.{attempt_text, live_text};

use crate::fields::{put_byte, put_cue, put_entry, put_new_cue, put_numbered, put_u32};
use crate::parts_form::PartsForm;
use crate::state::numbers::{answer_number, stage_number};
use cue_core::Ended;
use cue_exchange::{Attempt, DeviceAnswer, Live};
use cue_show::{CueNo, Show};
use std::alloc::AllocError;

/// The devices, the cues and the place.
pub(crate) fn put_show(out: &mut Vec<u8>, show: &Show) -> Result<(), AllocError>
    ensures { OnOk result (out.new.items ≡ out.old.items ++ show_text Flagged show.now) }
{
    put_table(out, show)?;
    put_stack(out, show)?;
    put_place(out, show.place())
}

fn put_table(out: &mut Vec<u8>, show: &Show) -> Result<(), AllocError>
    ensures { OnOk result (out.new.items ≡ out.old.items ++ table_text show.now.devices) }
{
    put_byte(out, show.devices().len() as u8)?;
    put_devices(out, show)
}

fn put_devices(out: &mut Vec<u8>, show: &Show) -> Result<(), AllocError>
    ensures { OnOk result (out.new.items ≡ out.old.items ++ flat_map entry_text show.now.devices) }
{
    for (device, port) in show.devices() {
        put_entry(out, *device, *port)?;
    }
    Ok(())
}

fn put_stack(out: &mut Vec<u8>, show: &Show) -> Result<(), AllocError>
    ensures { OnOk result (out.new.items ≡ out.old.items ++ stack_text Flagged show.now.cues) }
{
    let count = show.cues().len() as u16;
    out.extend_from_slice(&count.to_be_bytes())?;
    put_cues(out, show)
}

fn put_cues(out: &mut Vec<u8>, show: &Show) -> Result<(), AllocError>
    ensures { OnOk result (out.new.items ≡ out.old.items ++ flat_map (new_cue_text Flagged) show.now.cues) }
{
    for (cue, parts) in show.cues() {
        put_new_cue(out, PartsForm::Flagged, *cue, parts)?;
    }
    Ok(())
}

fn put_place(out: &mut Vec<u8>, place: Option<CueNo>) -> Result<(), AllocError>
    ensures { OnOk result (out.new.items ≡ out.old.items ++ place_text place) }
{
    match place {
        Some(cue) => put_cue(out, cue),
        None => put_byte(out, 0),
    }
}

/// The attempt that ended last, and how.
pub(crate) fn put_ended(out: &mut Vec<u8>, ended: Option<Ended>) -> Result<(), AllocError>
    ensures { OnOk result (out.new.items ≡ out.old.items ++ ended_text ended) }
{
    match ended {
        Some(ended) => put_numbered(out, ended.seq, ended.outcome.number()),
        None => put_numbered(out, 0, 0),
    }
}

/// The live attempts, after their count.
pub(crate) fn put_live(out: &mut Vec<u8>, live: &Live) -> Result<(), AllocError>
    ensures { OnOk result (out.new.items ≡ out.old.items ++ live_text live.now) }
{
    put_byte(out, live_count(live))?;
    put_attempts(out, live.as_slice())
}

#[tactic(auto, using(crate::proofs::RangeLemmas::live_short))]
fn live_count(live: &Live) -> u8
    ensures { result ≡ length live.now }
{
    live.len() as u8
}

fn put_attempts(out: &mut Vec<u8>, attempts: &[Attempt]) -> Result<(), AllocError>
    ensures { OnOk result (out.new.items ≡ out.old.items ++ flat_map attempt_text attempts.now) }
{
    for attempt in attempts {
        put_attempt(out, attempt)?;
    }
    Ok(())
}

fn put_attempt(out: &mut Vec<u8>, attempt: &Attempt) -> Result<(), AllocError>
    ensures { OnOk result (out.new.items ≡ out.old.items ++ attempt_text attempt.now) }
{
    put_u32(out, attempt.seq)?;
    put_cue(out, attempt.cue)?;
    out.extend_from_slice(&attempt.deadline.to_be_bytes())?;
    put_byte(out, stage_number(attempt.stage))?;
    put_answers(out, attempt.answers.as_slice())
}

fn put_answers(out: &mut Vec<u8>, answers: &[DeviceAnswer]) -> Result<(), AllocError>
    ensures { OnOk result (out.new.items ≡ out.old.items ++ answers_text answers.now) }
{
    for answer in answers {
        put_byte(out, answer_number(answer.answer))?;
    }
    Ok(())
}
