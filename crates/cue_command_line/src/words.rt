//! What a command line can say.
ghost use Rattle.std.specs.Prelude.{◌≡◌};

use std::alloc::AllocError;
use thiserror::Error;

/// A command, as the words of a command line give it.
#[derive(Drop)]
pub enum Line {
    /// Make an empty show in this folder.
    Form { dir: String },
    /// Run the show of this folder at a port of 127.0.0.1, for so many datagrams and ticks.
    Serve { dir: String, port: u16, turns: u64 },
    /// Print the show of this folder.
    Show { dir: String },
    /// Run a script from standard input.
    Script,
}

/// Why the words give no command.
#[derive(Debug, Drop, Error)]
pub enum LineFault {
    /// They ask for help or for the version: this is its text.
    #[error("{0}")]
    Help(String),
    #[error("the command line is not understood; `cuectl --help` says what there is")]
    Usage,
    #[error("out of memory")]
    Memory,
}

impl From<AllocError> for LineFault {
    ghost use Rattle.cue_command_line.specs.declared.words.LineFault.TheVariants.{Memory};

    ghost from_gives = { λ _ fault. fault ≡ Memory };

    fn from(_: AllocError) -> LineFault {
        LineFault::Memory
    }
}
