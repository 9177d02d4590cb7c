//! The command `form`: an empty show in a folder.
ghost use Rattle.std.specs.Prelude.{◌≡◌, IfOk, OnOk};
ghost use Rattle.std.specs.Io.KnownBytes.{Appends};
ghost use Rattle.cue_core.specs.State.{empty_state};
ghost use Rattle.cue_engine.specs.Observed.{state_of};
ghost use Rattle.cue_program.specs.Performing.{formed_text};

use super::fault::ProgramFault;
use super::files::{create_both, refused_store};
use super::print;
use cue_disk::FileDisk;
use cue_engine::Engine;
use std::alloc::Global;
use std::fs::{File, Files};
use std::io::{Eprint, Write};

// The engine of an empty show on two files. It is asked for if it is said that one was formed.
fn form_on<R: Eprint>(
    rt: &R,
    alloc: Global,
    dir: &str,
    first: FileDisk,
    second: FileDisk,
) -> Result<Engine<FileDisk>, ProgramFault>
    ensures { IfOk result (λ engine. state_of engine ≡ empty_state) }
{
    match Engine::form(alloc, first, second) {
        Ok(engine) => Ok(engine),
        Err(refused) => Err(refused_store(rt, dir, refused)),
    }
}

/// Makes an empty show in a folder. Its engine is the witness that it was formed.
pub(super) fn form<R: Files<File = File> + Eprint, W: Write>(
    rt: &R,
    alloc: Global,
    dir: &str,
    writer: &mut W,
) -> Result<Engine<FileDisk>, ProgramFault>
    ensures formed { IfOk result (λ engine. state_of engine ≡ empty_state) }
    ensures printed { OnOk result (Appends (W.contents writer.old) (W.contents writer.new) formed_text) }
{
    let (first, second) = create_both(rt, alloc, dir)?;
    let engine = form_on(rt, alloc, dir, first, second)?;
    match print(writer, b"formed\n") {
        Ok(()) => Ok(engine),
        Err(fault) => {
            drop(engine);
            Err(fault)
        }
    }
}
