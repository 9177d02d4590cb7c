//! What the definitions of this crate come to. Each contract is a theorem; there is nothing to run.
ghost use Rattle.std.specs.Prelude.{◌≡◌, ◌<◌};
ghost use Rattle.cue_osc.specs.declared.limits.TheConstants.{MAX_LEN};
ghost use Rattle.cue_run.specs.declared.groups.TheConstants.{MAX_TOGETHER};
ghost use Rattle.cue_run.specs.declared.turns.TheConstants.{MAX_RECEIVED};

pub mod lives;

/// The buffer has 4,100 bytes: more than the longest datagram, so that a longer one is seen to be too long. A served
/// show commits 128 inputs together at most.
pub fn limits()
    ensures buffer { MAX_RECEIVED ≡ 4100 }
    ensures longer { MAX_LEN < MAX_RECEIVED }
    ensures together { MAX_TOGETHER ≡ 128 }
{}
