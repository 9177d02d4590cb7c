//! A relay, and what it counts.

use crate::route::{Address, Route};

/// A relay: where the controller is, and the ways to its devices.
#[derive(Clone, Copy)]
pub struct Relay<'a> {
    pub controller: Address,
    pub routes: &'a [Route],
}

/// How many datagrams were handed on, lost and dropped.
#[derive(Clone, Copy, Debug, PartialEq, Eq)]
pub struct Counts {
    pub passed: u64,
    pub lost: u64,
    pub dropped: u64,
}

impl Counts {
    /// Nothing came yet.
    pub const NONE: Counts = Counts {
        passed: 0,
        lost: 0,
        dropped: 0,
    };
}
