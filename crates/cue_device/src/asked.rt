//! What the controller sends a device.
ghost use Rattle.std.specs.Prelude.{◌≡◌};
ghost use Rattle.cue_device.specs.Hearing.{seq_of, task_of};

use cue_show::limits::MAX_PART_BYTES;
use cue_show::{CueNo, ShortBytes};

/// The bytes of a part, 0 to 32 of them. The controller does not look into them.
pub type PartBytes = ShortBytes<MAX_PART_BYTES>;

/// What a device is asked to prepare for.
#[derive(Clone, Copy, PartialEq, Eq, Debug)]
pub struct Task {
    /// The cue.
    pub cue: CueNo,
    /// What the show keeps for the device in this cue: a position, a speed, whatever its maker agreed on.
    pub bytes: PartBytes,
}

/// What the controller sends a device, each with the number of the attempt, 1 or higher.
#[derive(Clone, Copy, PartialEq, Eq, Debug)]
pub enum Command {
    /// `/msc/standby`: prepare for this task.
    Standby { seq: u32, task: Task },
    /// `/msc/go_2pc`: carry the cue out.
    Go { seq: u32 },
    /// `/msc/cancel`: give the preparation up.
    Cancel { seq: u32 },
}

impl Command {
    /// The number of the attempt.
    pub fn seq(&self) -> u32
        ensures { result ≡ seq_of self.now }
    {
        match self {
            Command::Standby { seq, .. } => *seq,
            Command::Go { seq } | Command::Cancel { seq } => *seq,
        }
    }

    /// What a standby asks the device to prepare for; none of the others.
    pub fn task(&self) -> Option<Task>
        ensures { result ≡ task_of self.now }
    {
        match self {
            Command::Standby { task, .. } => Some(*task),
            Command::Go { .. } | Command::Cancel { .. } => None,
        }
    }
}
