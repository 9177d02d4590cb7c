//! The sign that a rehearsal plays the devices of a show file, as board and page look for it.
ghost use Rattle.std.specs.Prelude.{◌≡◌, IfOk, false, is_some};
ghost use Rattle.cue_desk_run.specs.Looks as looks;

use cue_desk_run::{Beat, open_plain};
use cue_rehearsal_run::{is_raised, sign_path};
use std::alloc::{AllocError, Global};
use std::fs::{File, Files};

/// How many milliseconds lie between two looks.
const LOOK: u64 = 500;

/// What board and page say while a rehearsal runs.
pub const REHEARSAL: &str = "REHEARSAL: cuedesk rehearse plays the devices";

/// The sign of one show file.
#[derive(Drop)]
pub struct SignWatch {
    path: String,
    beats: Beat,
    is_rehearsed: bool,
}

// Whether a rehearsal runs whose sign is at this path. What cannot be opened says nothing.
fn is_up<R: Files<File = File>>(rt: &R, path: &str) -> bool {
    match open_plain(rt, path) {
        Ok(sign) => is_raised(sign),
        Err(_) => false,
    }
}

impl SignWatch {
    /// The sign of this show file. Nobody has looked yet.
    pub fn new(alloc: Global, show: &str) -> Result<SignWatch, AllocError>
        ensures beats { IfOk result (λ sign. sign.beats ≡ looks.beat 500) }
        ensures down { IfOk result (λ sign. sign.is_rehearsed ≡ false) }
    {
        Ok(SignWatch {
            path: sign_path(alloc, show)?,
            beats: Beat::of(LOOK),
            is_rehearsed: false,
        })
    }

    /// Looks at it, if a look is due at this moment: whether a rehearsal runs.
    pub fn look<R: Files<File = File>>(&mut self, rt: &R, now: u64) -> bool
        ensures beats { self.new.beats ≡ looks.beat_after self.old.beats now }
        ensures is { result ≡ self.new.is_rehearsed }
        ensures still { looks.is_beat self.old.beats now ≡ false → result ≡ self.old.is_rehearsed }
    {
        if self.beats.is_due(now) {
            self.is_rehearsed = is_up(rt, self.path.as_str());
        }
        self.is_rehearsed
    }
}

/// The sign of the show file, if the desk has one.
pub fn sign_of(alloc: Global, show: Option<&str>) -> Result<Option<SignWatch>, AllocError>
    ensures { IfOk result (λ sign. is_some sign ≡ is_some show.entry) }
{
    match show {
        Some(show) => Ok(Some(SignWatch::new(alloc, show)?)),
        None => Ok(None),
    }
}
