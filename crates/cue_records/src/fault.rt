//! Why bytes are not read.
ghost use Rattle.std.specs.Prelude.{◌≡◌};
ghost use Rattle.cue_records.specs.declared.fault.ReadFault.TheVariants.{Memory};
ghost use Rattle.cue_records.specs.Faults.{state_fault};

use std::alloc::{AllocError, AllocFailed};
use thiserror::Error;

/// Why bytes are not read as a batch.
#[derive(Clone, Copy, Debug, PartialEq, Eq, Error)]
pub enum ReadFault {
    /// The bytes are the encoding of no batch.
    #[error("the bytes are no batch of events")]
    Malformed,
    /// Out of memory. This says nothing of the bytes.
    #[error("out of memory")]
    Memory,
}

/// Why bytes are not read as a state.
#[derive(Clone, Copy, Debug, PartialEq, Eq, Error)]
pub enum StateFault {
    /// The encoding is of another version of the format: its first byte is neither `VERSION` nor `OLD_VERSION`.
    #[error("the text is of another version")]
    Version,
    /// The bytes are the encoding of no state.
    #[error("the bytes are no state")]
    Malformed,
    /// Out of memory. This says nothing of the bytes after the first.
    #[error("out of memory")]
    Memory,
}

impl From<AllocError> for ReadFault {
    ghost from_gives = { λ _ e. e ≡ Memory };

    fn from(_e: AllocError) -> ReadFault {
        ReadFault::Memory
    }
}

impl<T: Drop> From<AllocFailed<T>> for ReadFault {
    ghost from_gives = { λ _ e. e ≡ Memory };

    fn from(_e: AllocFailed<T>) -> ReadFault {
        ReadFault::Memory
    }
}

impl From<ReadFault> for StateFault {
    ghost from_gives = { λ read fault. fault ≡ state_fault read };

    fn from(read: ReadFault) -> StateFault {
        match read {
            ReadFault::Malformed => StateFault::Malformed,
            ReadFault::Memory => StateFault::Memory,
        }
    }
}
