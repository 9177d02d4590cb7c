//! The two files of a folder: opened and made, and what is said if that fails.
ghost use Rattle.std.specs.Prelude.{◌≡◌, string_bytes, IfOk, Ok};
ghost use Rattle.std.specs.Fn.{FnReturnsAt};
ghost use Rattle.cue_script.specs.declared.ending.Failure.TheVariants.{Store};
ghost use Rattle.cue_program.specs.Endings.{file_fault};
ghost use Rattle.cue_program.specs.Files.{first_path, second_path};
ghost use Rattle.cue_program.specs.declared.program.fault.ProgramFault.TheVariants.{Failed};

use super::fault::{ProgramFault, file_fault};
use cue_disk::{FileDisk, FileFault};
use cue_keeper::StoreFault;
use std::alloc::{AllocError, Global};
use std::fmt::Display;
use std::fs::{File, Files};
use std::io::Eprint;

/// Says on standard error what was refused, and why. If that cannot be written, the answer is the same.
pub fn say<R: Eprint, D: Display + Drop>(rt: &R, what: &str, why: D) {
    let _ = rt.eprintln(format_args!("cuectl: {what}: {why}"));
}

/// The first file of a folder, which is the one that is locked.
pub fn first_path(alloc: Global, dir: &str) -> Result<String, AllocError>
    ensures { IfOk result (λ path. string_bytes path ≡ first_path dir.now) }
{
    Ok(format!(in alloc; "{dir}/a.area")?)
}

/// The second file of a folder.
pub fn second_path(alloc: Global, dir: &str) -> Result<String, AllocError>
    ensures { IfOk result (λ path. string_bytes path ≡ second_path dir.now) }
{
    Ok(format!(in alloc; "{dir}/b.area")?)
}

// Why a file was not opened.
fn refused_file<R: Eprint>(rt: &R, path: &str, fault: FileFault) -> ProgramFault
    ensures { result ≡ file_fault fault }
{
    say(rt, path, fault);
    file_fault(fault)
}

fn open_one<R: Files<File = File> + Eprint>(rt: &R, path: &str) -> Result<FileDisk, ProgramFault> {
    FileDisk::open(rt, path).map_err(|fault| refused_file(rt, path, fault))
}

// A file that is only looked at.
fn open_one_to_read<R: Files<File = File> + Eprint>(
    rt: &R,
    path: &str,
) -> Result<FileDisk, ProgramFault> {
    FileDisk::open_to_read(rt, path).map_err(|fault| refused_file(rt, path, fault))
}

fn create_one<R: Files<File = File> + Eprint>(
    rt: &R,
    path: &str,
) -> Result<FileDisk, ProgramFault> {
    FileDisk::create(rt, path).map_err(|fault| refused_file(rt, path, fault))
}

// What `opener` makes of the two files of a folder, the first one first. All that concerns their order stands here.
fn both<T: Drop, F: Fn(&str) -> Result<T, ProgramFault>>(
    alloc: Global,
    dir: &str,
    opener: F,
) -> Result<(T, T), ProgramFault>
    requires { F.IsAlwaysCallable opener }
    ensures first { IfOk result (λ both. FnReturnsAt F.Fn opener (first_path dir.now) (Ok both.0)) }
    ensures second { IfOk result (λ both. FnReturnsAt F.Fn opener (second_path dir.now) (Ok both.1)) }
{
    let (first, second) = (first_path(alloc, dir)?, second_path(alloc, dir)?);
    Ok((opener(first.as_str())?, opener(second.as_str())?))
}

/// Opens both files of a folder.
pub fn open_both<R: Files<File = File> + Eprint>(
    rt: &R,
    alloc: Global,
    dir: &str,
) -> Result<(FileDisk, FileDisk), ProgramFault> {
    both(alloc, dir, |path| open_one(rt, path))
}

/// Opens both files of a folder to look at them: the system refuses each write.
pub fn open_both_to_read<R: Files<File = File> + Eprint>(
    rt: &R,
    alloc: Global,
    dir: &str,
) -> Result<(FileDisk, FileDisk), ProgramFault> {
    both(alloc, dir, |path| open_one_to_read(rt, path))
}

/// Opens both files of a folder, and makes those that are missing.
pub fn create_both<R: Files<File = File> + Eprint>(
    rt: &R,
    alloc: Global,
    dir: &str,
) -> Result<(FileDisk, FileDisk), ProgramFault> {
    both(alloc, dir, |path| create_one(rt, path))
}

/// Why the store of a folder was refused; if a disk failed, which file, and how.
pub fn refused_store<R: Eprint>(
    rt: &R,
    dir: &str,
    refused: (StoreFault, FileDisk, FileDisk),
) -> ProgramFault
    ensures { result ≡ Failed (Store refused.0) }
{
    let (fault, first, second) = refused;
    say(rt, dir, fault);
    say_failures(rt, &first, &second);
    ProgramFault::from(fault)
}

/// How the files failed, if they did.
pub fn say_failures<R: Eprint>(rt: &R, first: &FileDisk, second: &FileDisk) {
    if let Some(why) = first.last_failure() {
        say(rt, "a.area", why);
    }
    if let Some(why) = second.last_failure() {
        say(rt, "b.area", why);
    }
}
