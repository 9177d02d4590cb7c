//! The lock that a `serve` holds on a store for as long as it runs. It keeps another `serve` from the store, and
//! nothing else: it is a help, and no promise.
ghost use Rattle.std.specs.Prelude.{◌≡◌, ◌⊎◌, true, false, Some, IfOk, IfErr, IsErrOf, IsOk, OnOk};
ghost use Rattle.cue_keeper.specs.declared.fault.StoreFault.TheVariants.{Memory};
ghost use Rattle.cue_script.specs.declared.ending.Failure.TheVariants.{Store};
ghost use Rattle.cue_program.specs.Locking.{is_locked, is_of_another};
ghost use Rattle.cue_program.specs.declared.program.fault.ProgramFault.TheVariants.{Failed, Io};

use super::fault::ProgramFault;
use super::files::{first_path, say};
use std::alloc::Global;
use std::fs::{File, Files, OpenOptions, TryLockError};
use std::io::{self, Eprint};

/// The most times that the lock is asked for. A `show` may hold it for a moment; a `serve` holds it for as long as it
/// runs.
const MAX_LOCK_TRIES: u32 = 1_000;

/// The lock of a store: held until it is dropped, and by no process that has ended.
#[derive(Drop)]
pub struct StoreLock {
    // `None`: the file system knows no locks
    _file: Option<File>,
}

// Asks for the lock, some times if another holds it.
fn ask(file: &File) -> Result<(), TryLockError> {
    for _ in 1..MAX_LOCK_TRIES {
        match file.try_lock() {
            Err(TryLockError::WouldBlock) => {}
            answer => return answer,
        }
    }
    file.try_lock()
}

// The file that is locked, opened once more: a lock belongs to an opening of its own.
fn open<R: Files<File = File>>(rt: &R, path: &str) -> io::Result<File> {
    OpenOptions::new().read(true).write(true).open(rt, path)
}

// Whether another process has the lock that was asked for. A file system that knows no locks has none.
fn is_of_another(answer: &Result<(), TryLockError>) -> bool
    ensures { result ≡ is_of_another answer.now }
{
    match answer {
        Ok(()) => false,
        Err(TryLockError::WouldBlock) => true,
        Err(TryLockError::Error(_)) => false,
    }
}

// The lock of a file that was asked for it.
fn lock_of<R: Eprint>(
    rt: &R,
    dir: &str,
    file: File,
    answer: Result<(), TryLockError>,
) -> Result<StoreLock, ProgramFault>
    ensures another { is_of_another answer ≡ true → IsErrOf result Io }
    ensures no_other { is_of_another answer ≡ false → IsOk result }
    ensures held { OnOk answer (IfOk result (λ lock. lock._file ≡ Some file)) }
    ensures io { IfErr result (λ fault. fault ≡ Io) }
{
    match answer {
        Ok(()) => Ok(StoreLock { _file: Some(file) }),
        Err(TryLockError::WouldBlock) => {
            say(rt, dir, "another serve has this store");
            Err(ProgramFault::Io)
        }
        Err(TryLockError::Error(why)) => {
            say(
                rt,
                dir,
                format_args!("the store is not locked against another serve: {why}"),
            );
            Ok(StoreLock { _file: None })
        }
    }
}

/// Takes the lock of a store, before anything of it is read or written. `Io` if another `serve` holds it. If the
/// file system knows no locks, standard error says so, and the store is served without one.
pub fn lock_store<R: Files<File = File> + Eprint>(
    rt: &R,
    alloc: Global,
    dir: &str,
) -> Result<StoreLock, ProgramFault>
    ensures { IfErr result (λ fault. (fault ≡ Io) ⊎ (fault ≡ Failed (Store Memory))) }
{
    let path = first_path(alloc, dir)?;
    let file = open(rt, path.as_str()).map_err(|why| {
        say(rt, path.as_str(), why);
        ProgramFault::Io
    })?;
    let answer = ask(&file);
    lock_of(rt, dir, file, answer)
}

// What the lock of a store answers to one that only looks. `None`: it could not be asked for.
fn shared_answer<R: Files<File = File>>(
    rt: &R,
    alloc: Global,
    dir: &str,
) -> Option<Result<(), TryLockError>> {
    let path = first_path(alloc, dir).ok()?;
    let file = open(rt, path.as_str()).ok()?;
    Some(file.try_lock_shared())
}

// Whether a `serve` has the lock, by that answer.
fn is_locked(answer: Option<Result<(), TryLockError>>) -> bool
    ensures { result ≡ is_locked answer }
{
    match answer {
        Some(answer) => is_of_another(&answer),
        None => false,
    }
}

/// Whether a `serve` holds the lock of a store now. If that cannot be known, none does.
pub fn is_served<R: Files<File = File>>(rt: &R, alloc: Global, dir: &str) -> bool {
    is_locked(shared_answer(rt, alloc, dir))
}
