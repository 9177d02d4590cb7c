//! The folder of a store keeps its place over a loss of power, also if it was put there a moment ago.
ghost use Rattle.std.specs.Prelude.{◌≡◌, ◌⊎◌, IfErr};
ghost use Rattle.cue_keeper.specs.declared.fault.StoreFault.TheVariants.{Memory};
ghost use Rattle.cue_script.specs.declared.ending.Failure.TheVariants.{Store};
ghost use Rattle.cue_program.specs.declared.program.fault.ProgramFault.TheVariants.{Failed, Io};

use super::fault::ProgramFault;
use super::files::say;
use std::alloc::Global;
use std::fs::{Files, OpenFile, OpenOptions};
use std::io::{self, Eprint};

// What was said of a folder that was to be synced.
fn synced<R: Eprint>(rt: &R, path: &str, done: io::Result<()>) -> Result<(), ProgramFault>
    ensures { IfErr result (λ fault. fault ≡ Io) }
{
    done.map_err(|why| {
        say(rt, path, why);
        ProgramFault::Io
    })
}

// Syncs a folder.
fn sync<R: Files>(rt: &R, path: &str) -> io::Result<()> {
    OpenOptions::new().read(true).open(rt, path)?.sync_all()
}

// Syncs the folder that another one stands in. One that may not be read is left as it is, and standard error says so.
fn sync_around<R: Files + Eprint>(rt: &R, path: &str) -> Result<(), ProgramFault>
    ensures { IfErr result (λ fault. fault ≡ Io) }
{
    match OpenOptions::new().read(true).open(rt, path) {
        Ok(folder) => synced(rt, path, folder.sync_all()),
        Err(why) => {
            say(rt, path, format_args!("this folder is not synced: {why}"));
            Ok(())
        }
    }
}

/// Syncs the folder of a store, for the names of its files, and the folder around it, for its own. Without that a power
/// cut may bring back what had these names before they were moved there, in place of what was acknowledged since.
/// `Io` if that fails. A folder around it that may not be read is passed over, and standard error says so.
pub fn settle<R: Files + Eprint>(rt: &R, alloc: Global, dir: &str) -> Result<(), ProgramFault>
    ensures { IfErr result (λ fault. (fault ≡ Io) ⊎ (fault ≡ Failed (Store Memory))) }
{
    let own = format!(in alloc; "{dir}/.")?;
    let around = format!(in alloc; "{dir}/..")?;
    synced(rt, dir, sync(rt, own.as_str()))?;
    sync_around(rt, around.as_str())
}
