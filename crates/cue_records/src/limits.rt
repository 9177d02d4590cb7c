//! The limits of encodings, each stated once: the code and the definitions both read them here.

use cue_exchange::limits::MAX_LIVE;
use cue_show::limits::{MAX_CUE_BYTES, MAX_CUES, MAX_DEVICES, MAX_PART_BYTES, MAX_PARTS};

/// The most events of a batch.
pub const MAX_EVENTS: usize = 4096;

/// The most cues of a state that is encoded in version 1.
pub const OLD_MAX_CUES: usize = 256;

// The most bytes of a cue number with its length, of a cue with its parts, and of an attempt.
const NUMBER_BYTES: usize = 1 + MAX_CUE_BYTES;

const CUE_BYTES: usize = NUMBER_BYTES + 1 + MAX_PARTS * (3 + MAX_PART_BYTES);

const ATTEMPT_BYTES: usize = 4 + NUMBER_BYTES + 8 + 1 + MAX_PARTS;

// The most bytes of the devices, of the cues, and of the live attempts, each with its count.
const TABLE_BYTES: usize = 1 + MAX_DEVICES * 3;

const STACK_BYTES: usize = 2 + MAX_CUES * CUE_BYTES;

const LIVE_BYTES: usize = 1 + MAX_LIVE * ATTEMPT_BYTES;

/// The most bytes of the encoding of a state: version, devices, cues, place, last number, the attempt that ended last,
/// and the live ones.
pub const MAX_STATE_BYTES: usize = 1
    + TABLE_BYTES
    + STACK_BYTES
    + NUMBER_BYTES
    + 4
    + 5
    + LIVE_BYTES;
