//! The limits of a datagram, and the sizes of what frames a bundle.

/// The most bytes of a datagram.
pub const MAX_LEN: usize = 4096;

/// The most bundles that may stand one in the other.
pub const MAX_DEPTH: u8 = 8;

/// The eight bytes with which each bundle begins.
pub const BUNDLE_HEAD: [u8; 8] = *b"#bundle\0";

/// How many bytes of a bundle stand before its elements: its head and its time tag.
pub(crate) const BUNDLE_FRAME_LEN: usize = 16;

/// How many bytes say how long an element of a bundle is.
pub(crate) const SIZE_LEN: usize = 4;
