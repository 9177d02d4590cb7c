//! How old a thing may be that the desk stands by, in milliseconds.

/// A copy of the store, from the moment at which its reading began.
pub const COPY_MS: u64 = 1_000;

/// A status, from the moment at which it was asked.
pub const STATUS_MS: u64 = 2_000;

/// How long after a question for the status that was answered, or that nobody listened to, the next one is due.
pub const ASK_MS: u64 = 100;

/// The same if nothing came to it: an answer to an older question counts no more.
pub const ASK_AGAIN_MS: u64 = 500;

/// A view, when a press of it is heard.
pub const PRESS_MS: u64 = 1_000;

/// How many attempts are told as ended, at most.
pub const MAX_TOLD: usize = 8;

/// How many of the newest views a press may name.
pub const KEPT_VIEWS: usize = 128;

/// How many of the newest attempts keep that they were seen.
pub const KEPT_SEEN: usize = 64;

/// How many failures that the newest copy no longer tells of are kept until somebody says that they were seen.
pub const KEPT_FAILURES: usize = 64;

/// How long what is served has to disagree with the copy before it is called another store, in milliseconds: each
/// change makes a short disagreement.
pub const OTHER_MS: u64 = 1_000;

/// How long a relay has to write nothing new before it counts as stopped, in milliseconds.
pub const RELAY_MS: u64 = 2_000;

/// For how long it is shown where a device told that it is, in milliseconds.
pub const POSITION_MS: u64 = 2_000;

/// How soon after a GO another one is the second tap of one finger, in milliseconds.
pub const TAP_MS: u64 = 1_000;

/// How long after a reply that a press was carried out a copy of the store has to show it, in milliseconds.
pub const SHOWN_MS: u64 = 1_000;
