//! The limits of the core, each stated once: the code and the definitions both read them here.

/// How long the devices of a cue have to stand by, in milliseconds from the time of the command.
pub const STANDBY_MS: u64 = 10_000;
