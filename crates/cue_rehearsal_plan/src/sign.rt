//! The sign that a rehearsal of a show file runs: a file beside the show file, which is locked as long as it runs.
ghost use Rattle.std.specs.Prelude.{◌≡◌, IfOk, string_bytes};
ghost use Rattle.cue_rehearsal_plan.specs.Signs as signs;

use std::alloc::{AllocError, Global};
use std::fs::TryLockError;

/// The file of the sign of this show file.
pub fn sign_path(alloc: Global, show: &str) -> Result<String, AllocError>
    ensures { IfOk result (λ path. string_bytes path ≡ signs.sign_of show.now) }
{
    format!(in alloc; "{show}.rehearsal")
}

/// Whether a rehearsal runs, by what the lock of its sign says.
pub fn is_up(answer: Result<(), TryLockError>) -> bool
    ensures { result ≡ signs.is_up answer }
{
    match answer {
        Ok(()) => false,
        Err(TryLockError::WouldBlock) => true,
        Err(TryLockError::Error(_)) => false,
    }
}
