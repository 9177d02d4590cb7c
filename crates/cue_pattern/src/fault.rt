//! Why bytes were not read as a pattern.

ghost use Rattle.std.specs.Prelude.{◌≡◌};
ghost use Rattle.cue_pattern.specs.declared.fault.Fault.TheVariants.{Memory};

use std::alloc::{AllocError, AllocFailed};

/// Why a pattern was not read.
#[derive(Clone, Copy, Debug, PartialEq, Eq)]
pub enum Fault {
    /// The bytes are no pattern: they do not begin with `/`, a bracket or a brace does not close
    /// within its part, brackets are empty, or braces hold one of `[`, `]`, `{`, `*` and `?`.
    BadPattern,
    /// An allocation was refused. This says nothing of the bytes.
    Memory,
}

impl From<AllocError> for Fault {
    ghost from_gives = { λ _ e. e ≡ Memory };

    fn from(_e: AllocError) -> Fault {
        Fault::Memory
    }
}

impl<T: Drop> From<AllocFailed<T>> for Fault {
    ghost from_gives = { λ _ e. e ≡ Memory };

    fn from(_e: AllocFailed<T>) -> Fault {
        Fault::Memory
    }
}
