//! Times in words.
ghost use Rattle.std.specs.Prelude.{◌≡◌, IfOk, string_bytes};
ghost use Rattle.cue_board.specs.Times as times;

use std::alloc::{AllocError, Global};

/// Seconds with one digit after the point, as 8.1.
pub(crate) fn seconds(alloc: Global, millis: u64) -> Result<String, AllocError>
    ensures { IfOk result (λ text. string_bytes text ≡ times.seconds millis) }
{
    let (whole, tenths) = (millis / 1000, millis % 1000 / 100);
    Ok(format!(in alloc; "{whole}.{tenths}")?)
}
