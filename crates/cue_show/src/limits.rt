//! The limits of a show, each stated once: the code and the definitions both read them here.

/// The highest device number; the lowest is 0.
pub const MAX_DEVICE_NUMBER: u8 = 111;

/// How many devices a table can hold, since their numbers are distinct.
pub const MAX_DEVICES: usize = MAX_DEVICE_NUMBER as usize + 1;

/// The highest port of a device; the lowest is 1.
pub const MAX_PORT: u16 = 65535;

/// The most bytes of a cue number.
pub const MAX_CUE_BYTES: usize = 16;

/// The most cues of a stack.
pub const MAX_CUES: usize = 1024;

/// The most parts of a cue.
pub const MAX_PARTS: usize = 16;

/// The most bytes of a part.
pub const MAX_PART_BYTES: usize = 32;
