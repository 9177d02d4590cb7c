//! How a command ends that is not done.
ghost use Rattle.std.specs.Prelude.{◌≡◌};
ghost use Rattle.cue_desk.specs.Endings.{ending_status};

use std::alloc::AllocError;

/// Why a command was not done. What it was is on standard error already, but for memory and the output.
#[derive(Clone, Copy, Debug, PartialEq, Eq)]
pub enum Ending {
    /// The controller refused it, or a show file has mistakes.
    Refused,
    /// Nobody replied within a second.
    Silent,
    /// A file, the socket or the clock failed, or memory ran out.
    Failed,
    /// The output could not be written. That is said by whoever ends the program.
    Unwritten,
}

impl Ending {
    /// The exit status.
    pub fn status(self) -> u8
        ensures { result ≡ ending_status self }
    {
        match self {
            Ending::Refused => 1,
            Ending::Silent | Ending::Failed | Ending::Unwritten => 3,
        }
    }
}

impl From<AllocError> for Ending {
    ghost use Rattle.cue_desk.specs.declared.ending.Ending.TheVariants.{Failed};

    ghost from_gives = { λ _ ending. ending ≡ Failed };

    fn from(_: AllocError) -> Ending {
        Ending::Failed
    }
}
