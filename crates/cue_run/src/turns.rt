//! How a run of a show ends.
use cue_keeper::Fault;

/// The most bytes of a datagram that are read: more than the longest one has, so that one that is too long is seen to
/// be so.
pub(crate) const MAX_RECEIVED: usize = 4_100;

/// Why a run ended before its turns and before its source did.
#[derive(Clone, Copy, Debug, PartialEq, Eq)]
pub enum RunFault {
    /// The source failed.
    Source,
    /// The engine did not take what came.
    Engine(Fault),
}

/// How a run ended.
#[derive(Clone, Copy, Debug, PartialEq, Eq)]
pub struct Ended {
    /// How many inputs were taken.
    pub turns: u64,
    /// How many sends were refused; it stops at `u64::MAX`.
    pub unsent: u64,
    /// None if it had its turns or the source ended.
    pub fault: Option<RunFault>,
}
