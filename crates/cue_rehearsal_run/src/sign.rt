//! The sign that a rehearsal of a show file runs, which board and page look for: a file beside the show file, locked as
//! long as the rehearsal runs. No program that has ended holds a lock, so the sign is never out of date.
use cue_rehearsal_plan::{is_up, sign_path};
use cue_saying::{Shown, say};
use std::alloc::Global;
use std::fs::{self, File, Files, OpenOptions, TryLockError};
use std::io::{self, Eprint, ErrorKind};

/// How often the lock is asked for: who looks at the sign holds it for a moment.
const MAX_TRIES: u32 = 1_000;

/// Whether a rehearsal runs whose sign this is: another program holds its lock. Many may look at once.
pub fn is_raised(sign: File) -> bool {
    is_up(sign.try_lock_shared())
}

/// The sign of a rehearsal: it is up until this is dropped.
#[derive(Drop)]
pub struct Sign {
    // None: it could not be put up, or that of another rehearsal is.
    _file: Option<File>,
}

// Opens the file of the sign of this show file, which is made if it is not there. One of another account may not be
// written: to lock it needs no more than to read it.
fn open<R: Files<File = File>>(rt: &R, alloc: Global, show: &str) -> io::Result<File> {
    let path = sign_path(alloc, show)?;
    let path = path.as_str();
    match fs::metadata(rt, path) {
        Ok(found) if !found.is_file() => Err(io::Error::from(ErrorKind::InvalidInput)),
        Ok(_) => File::open(rt, path),
        Err(_) => OpenOptions::new().write(true).create(true).open(rt, path),
    }
}

// Locks it. If another rehearsal of the show file runs, its sign is up already.
fn lock(sign: &File) -> io::Result<()> {
    for _ in 0..MAX_TRIES {
        match sign.try_lock() {
            Err(TryLockError::WouldBlock) => {}
            Err(TryLockError::Error(why)) => return Err(why),
            Ok(()) => return Ok(()),
        }
    }
    Ok(())
}

// The sign of this show file, which is up.
fn raised<R: Files<File = File>>(rt: &R, alloc: Global, show: &str) -> io::Result<Sign> {
    let sign = open(rt, alloc, show)?;
    match lock(&sign) {
        Ok(()) => Ok(Sign { _file: Some(sign) }),
        Err(why) => {
            drop(sign);
            Err(why)
        }
    }
}

/// Puts the sign of a rehearsal up, before a device is played. If it cannot stand beside the show file, standard error
/// says so, and the rehearsal goes on: board and page do not know of it then.
pub fn raise_sign<R: Files<File = File> + Eprint + AllocGlobal>(rt: &R, show: &str) -> Sign {
    match raised(rt, rt.alloc(), show) {
        Ok(sign) => sign,
        Err(why) => {
            let show = Shown { text: show };
            say(
                rt,
                format_args!(
                    "no sign of this rehearsal stands beside {show}: {why}: board and page do not say that it runs"
                ),
            );
            Sign { _file: None }
        }
    }
}
