//! What the definitions of this crate come to, in other words. Each contract is a theorem; there is nothing to run.
ghost use Rattle.std.specs.Prelude.{◌≡◌};
ghost use Rattle.cue_show.specs.declared.limits.TheConstants.{MAX_DEVICE_NUMBER, MAX_PORT, MAX_CUE_BYTES, MAX_CUES};
ghost use Rattle.cue_show.specs.declared.limits.TheConstants.{MAX_DEVICES, MAX_PART_BYTES, MAX_PARTS};
ghost use Rattle.cue_show.specs.Laws.{CueNumbersAreRunsJoinedByPoints, FollowingComesNext, RemovalsKeepTheOrder};

/// A text is a cue number exactly if it has at most 16 bytes and is one run of digits or more, with single points
/// between them.
pub fn cue_numbers_are_runs_joined_by_points()
    ensures { CueNumbersAreRunsJoinedByPoints }
{}

/// The cue that follows is the one directly after it in the stack.
pub fn following_comes_next()
    ensures { FollowingComesNext }
{}

/// Taking a device or a cue out leaves all others, in their order.
pub fn removals_keep_the_order()
    ensures { RemovalsKeepTheOrder }
{}

/// The limits, as numbers: 112 devices from 0 to 111 with ports to 65,535, 1,024 cues with numbers of at most 16
/// bytes, and 16 parts of at most 32 bytes.
pub fn limits()
    ensures device_number { MAX_DEVICE_NUMBER ≡ 111 }
    ensures devices { MAX_DEVICES ≡ 112 }
    ensures port { MAX_PORT ≡ 65535 }
    ensures cue_bytes { MAX_CUE_BYTES ≡ 16 }
    ensures cues { MAX_CUES ≡ 1024 }
    ensures parts { MAX_PARTS ≡ 16 }
    ensures part_bytes { MAX_PART_BYTES ≡ 32 }
{}
