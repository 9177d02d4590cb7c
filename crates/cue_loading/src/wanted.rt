//! The stack that a loading is to make.
ghost use Rattle.std.specs.Prelude.{◌≡◌, ◌++◌, ◌∷◌, [], IfOk, OnOk};
ghost use Rattle.std.specs.List.{flat_map};
ghost use Rattle.cue_loading.specs.Stacks.{left_after, left_front, merged, wanted_cues};

use crate::entries::{Cue, cues_of};
use cue_show::{CueNo, Parts, Show};
use std::alloc::{AllocError, Global};

// Puts a copy of a cue after the others.
fn push(cues: &mut Vec<Cue>, cue: CueNo, parts: &Parts) -> Result<(), AllocError>
    ensures { OnOk result (cues.new.items ≡ cues.old.items ++ (cue, parts.now) ∷ []) }
{
    cues.push((cue, parts.clone()?))?;
    Ok(())
}

// Puts the cues at the front that the file does not have after the others.
fn push_left_front(cues: &mut Vec<Cue>, file: &Show, stored: &[Cue]) -> Result<(), AllocError>
    ensures { OnOk result (cues.new.items ≡ cues.old.items ++ left_front file.now stored.now) }
{
    match stored {
        [] => Ok(()),
        [first, rest @ ..] => {
            if file.has_cue(first.0) {
                return Ok(());
            }
            push(cues, first.0, &first.1)?;
            push_left_front(cues, file, rest)
        }
    }
}

// Puts the cues right after this one that the file does not have after the others.
fn push_left_after(
    cues: &mut Vec<Cue>,
    file: &Show,
    cue: CueNo,
    stored: &[Cue],
) -> Result<(), AllocError>
    ensures { OnOk result (cues.new.items ≡ cues.old.items ++ left_after file.now cue stored.now) }
{
    match stored {
        [] => Ok(()),
        [first, rest @ ..] => {
            if first.0 == cue {
                push_left_front(cues, file, rest)
            } else {
                push_left_after(cues, file, cue, rest)
            }
        }
    }
}

// Puts a cue of the file after the others, and after it those that it does not have.
fn push_cue(cues: &mut Vec<Cue>, file: &Show, cue: &Cue, stored: &[Cue]) -> Result<(), AllocError>
    ensures { OnOk result (cues.new.items ≡ cues.old.items
        ++ (cue.now ∷ left_after file.now cue.now.0 stored.now)) }
{
    push(cues, cue.0, &cue.1)?;
    push_left_after(cues, file, cue.0, stored)
}

// Puts these cues of the file after the others, each with those after it that the file does not have.
fn push_cues(
    cues: &mut Vec<Cue>,
    file: &Show,
    named: &[Cue],
    stored: &[Cue],
) -> Result<(), AllocError>
    ensures { OnOk result (cues.new.items ≡ cues.old.items
        ++ flat_map (λ e. e ∷ left_after file.now e.0 stored.now) named.now) }
{
    match named {
        [] => Ok(()),
        [first, rest @ ..] => {
            push_cue(cues, file, first, stored)?;
            push_cues(cues, file, rest, stored)
        }
    }
}

// The cues of the file, and those that it does not have at their place.
fn merged(alloc: Global, file: &Show, stored: &[Cue]) -> Result<Vec<Cue>, AllocError>
    ensures { IfOk result (λ cues. cues.items ≡ merged file.now stored.now) }
{
    let mut cues = Vec::new(alloc);
    let named = cues_of(alloc, file)?;
    push_left_front(&mut cues, file, stored)?;
    push_cues(&mut cues, file, &named, stored)?;
    Ok(cues)
}

/// The cues that a loading is to leave on the stack, in order.
pub(crate) fn wanted_cues(
    alloc: Global,
    is_exact: bool,
    file: &Show,
    stored: &[Cue],
) -> Result<Vec<Cue>, AllocError>
    ensures { IfOk result (λ cues. cues.items ≡ wanted_cues is_exact file.now stored.now) }
{
    if is_exact {
        cues_of(alloc, file)
    } else {
        merged(alloc, file, stored)
    }
}
