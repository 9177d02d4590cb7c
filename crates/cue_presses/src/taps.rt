//! Two taps of one finger.
ghost use Rattle.std.specs.Prelude.{◌≡◌};
ghost use Rattle.cue_presses.specs.Taps as rule;

use crate::intent::Intent;

/// How long after a GO the next one that names no cue is a second tap, in milliseconds.
pub const TAP_MS: u64 = 1_000;

// Whether the moment is known, and not so long ago.
fn is_just(last: Option<u64>, now: u64) -> bool
    ensures { result ≡ rule.is_just last now }
{
    match last {
        Some(last) => now.saturating_sub(last) < TAP_MS,
        None => false,
    }
}

/// Whether the intent is the second tap of a GO that was pressed at this moment.
pub fn is_second_tap(intent: &Intent, last: Option<u64>, now: u64) -> bool
    ensures { result ≡ rule.is_second_tap intent.now last now }
{
    match intent {
        Intent::Go(None) => is_just(last, now),
        Intent::Go(Some(_)) | Intent::Standby(_) | Intent::Cancel => false,
    }
}
