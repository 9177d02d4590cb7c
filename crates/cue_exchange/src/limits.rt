//! The limits of the exchange, each stated once: the code and the definitions both read them here.

/// The highest sequence number of an attempt; the lowest is 1.
pub const MAX_NUMBER: u32 = 2147483647;

/// How many attempts may be live at once.
pub const MAX_LIVE: usize = 8;
