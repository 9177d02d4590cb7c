//! The stack of a show as a list of its own.
ghost use Rattle.std.specs.Prelude.{◌≡◌, IfOk};
ghost use Rattle.cue_loading.specs.Loaded.{same_cues};

use cue_show::{CueNo, Parts, Show};
use std::alloc::{AllocError, Global};

/// A cue with its parts.
pub(crate) type Cue = (CueNo, Parts);

/// The cues of the stack, in order.
pub(crate) fn cues_of(alloc: Global, show: &Show) -> Result<Vec<Cue>, AllocError>
    ensures { IfOk result (λ cues. cues.items ≡ show.now.cues) }
{
    let mut cues = Vec::new(alloc);
    for (cue, parts) in show.cues() {
        cues.push((*cue, parts.clone()?))?;
    }
    Ok(cues)
}

/// Whether these are the same cues with the same parts, in the same order.
pub(crate) fn same_cues(cues: &[Cue], others: &[Cue]) -> bool
    ensures { result ≡ same_cues cues.now others.now }
{
    match (cues, others) {
        ([], []) => true,
        ([cue, cues @ ..], [other, others @ ..]) => {
            cue.0 == other.0 && cue.1 == other.1 && same_cues(cues, others)
        }
        ([], [_, ..]) => false,
        ([_, ..], []) => false,
    }
}
