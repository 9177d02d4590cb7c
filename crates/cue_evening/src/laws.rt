//! What holds of the log over whole evenings.
ghost use Rattle.std.specs.Prelude.{◌≡◌, ◌+◌, length, IfOk};
ghost use Rattle.cue_evening.specs.Refusals.{times_of};
ghost use Rattle.cue_evening.specs.declared.refusals.TheConstants.{MOST, SECOND};

use crate::refusals::Refusals;
use std::alloc::{AllocError, Global};

/// Whatever refusals come in turn, each at its moment and with its line: those that are told, and those that are
/// counted, are as many as came.
pub fn each_is_told_or_counted(
    alloc: Global,
    refusals: &[(u64, String)],
) -> Result<(usize, Refusals), AllocError>
    ensures { IfOk result (λ heard. heard.0 + times_of heard.1.counted ≡ length refusals.now) }
{
    let mut told = 0;
    let mut heard = Refusals::new(alloc);
    for (now, line) in refusals {
        if heard.hear(*now, line)? {
            told += 1;
        }
    }
    Ok((told, heard))
}

/// At most 20 refusals are told within 1,000 milliseconds.
pub fn limits()
    ensures most { MOST ≡ 20 }
    ensures second { SECOND ≡ 1000 }
{}
