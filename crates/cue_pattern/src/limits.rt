//! The limits of a match.

/// The most bytes of a text that is matched without memory.
pub const MAX_SHORT: usize = 64;

/// The first byte that a name may have to be matched beside others: `.`, and after it `/` and the digits.
pub(crate) const FIRST_LETTER: u8 = b'.';

/// How many bytes those are, up to `9`.
pub(crate) const LETTERS: usize = 12;

/// The positions of such a name: of up to 16 bytes, and its end.
pub(crate) const ROWS: usize = 17;

/// For each letter a word for each position.
pub(crate) const CELLS: usize = 204;

/// How many names a word has a bit for.
pub(crate) const LANES: usize = 64;

/// From so many names on they are matched side by side.
pub(crate) const FEW: usize = 4;
