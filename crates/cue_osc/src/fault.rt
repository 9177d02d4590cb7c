//! Why bytes are no packet, and why a packet could not be written.

ghost use Rattle.std.specs.Prelude.{◌≡◌};
ghost use Rattle.cue_osc.specs.declared.fault.Fault.TheVariants.{Memory};
ghost use Rattle.cue_osc.specs.declared.fault.WriteFault.TheVariants.{Memory as no_memory};

use std::alloc::{AllocError, AllocFailed};
use std::error::Error;
use std::fmt;

/// What is wrong with a datagram: the first fault that reading from front to back meets.
#[derive(Clone, Copy, Debug, PartialEq, Eq)]
pub enum Fault {
    /// The datagram has more than 4,096 bytes.
    TooLong,
    /// The datagram's length is no multiple of 4.
    NotMultiple,
    /// A packet or an element is empty, or begins neither with `/` nor with `#bundle` and a null.
    BadStart,
    /// A text has no null before its end, or a byte of its padding is not zero.
    BadString,
    /// A blob's count is negative, the blob passes the end, or a byte of its padding is not zero.
    BadBlob,
    /// A number, a time tag or a size is cut off; or an element's size is negative, zero, no
    /// multiple of 4, or more than what is left.
    BadSize,
    /// A bundle stands inside eight others.
    TooDeep,
    /// Bytes follow the last argument of a message.
    Trailing,
    /// An allocation was refused. This says nothing of the bytes.
    Memory,
}

/// Why a packet was not written.
#[derive(Clone, Copy, Debug, PartialEq, Eq)]
pub enum WriteFault {
    /// Its spelling has more than 4,096 bytes.
    TooLong,
    /// An allocation was refused.
    Memory,
}

impl fmt::Display for Fault {
    ghost use Rattle.std.specs.Prelude.{Some};
    ghost use Rattle.cue_osc.specs.Faults.{fault_text};

    ghost output = { λ fault. Some (fault_text fault) };

    fn fmt<W: fmt::Write>(&self, f: &mut fmt::Formatter<W>) -> fmt::Result {
        match self {
            Fault::TooLong => write!(f, "the datagram is longer than 4096 bytes"),
            Fault::NotMultiple => write!(f, "the length is no multiple of 4"),
            Fault::BadStart => write!(f, "neither a message nor a bundle begins here"),
            Fault::BadString => write!(f, "a text is cut off or badly padded"),
            Fault::BadBlob => write!(f, "a blob is cut off or badly padded"),
            Fault::BadSize => write!(f, "a number is cut off, or a size is not possible"),
            Fault::TooDeep => write!(f, "a bundle stands inside eight others"),
            Fault::Trailing => write!(f, "bytes follow the last argument"),
            Fault::Memory => write!(f, "out of memory"),
        }
    }
}

impl Error for Fault {}

impl fmt::Display for WriteFault {
    ghost use Rattle.std.specs.Prelude.{Some};
    ghost use Rattle.cue_osc.specs.Faults.{write_fault_text};

    ghost output = { λ fault. Some (write_fault_text fault) };

    fn fmt<W: fmt::Write>(&self, f: &mut fmt::Formatter<W>) -> fmt::Result {
        match self {
            WriteFault::TooLong => write!(f, "the packet takes more than 4096 bytes"),
            WriteFault::Memory => write!(f, "out of memory"),
        }
    }
}

impl Error for WriteFault {}

impl From<AllocError> for Fault {
    ghost from_gives = { λ _ e. e ≡ Memory };

    fn from(_e: AllocError) -> Fault {
        Fault::Memory
    }
}

impl<T: Drop> From<AllocFailed<T>> for Fault {
    ghost from_gives = { λ _ e. e ≡ Memory };

    fn from(_e: AllocFailed<T>) -> Fault {
        Fault::Memory
    }
}

impl From<AllocError> for WriteFault {
    ghost from_gives = { λ _ e. e ≡ no_memory };

    fn from(_e: AllocError) -> WriteFault {
        WriteFault::Memory
    }
}
