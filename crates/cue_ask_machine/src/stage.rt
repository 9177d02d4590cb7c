//! How far a question has come.
ghost use Rattle.std.specs.Prelude.{◌≡◌};
ghost use Rattle.cue_ask_machine.specs.Stages as stages;

use cue_desk::replying::Replied;

/// How long a reply is waited for, in milliseconds.
pub const PATIENCE: u64 = 1_000;

/// How a question ended.
#[derive(Clone, Copy, Debug, PartialEq, Eq)]
pub enum AskEnd {
    /// This was replied to it.
    Replied(Replied),
    /// Nobody listens at the controller's port.
    Nobody,
    /// Nobody replied within a second.
    Silent,
    /// The message could not be sent.
    Lost,
}

/// How far a question has come.
#[derive(Clone, Copy, Debug, PartialEq, Eq)]
pub enum Stage {
    /// Who asks is to be said, if there is a name.
    Names,
    /// The message is to be sent, maybe again.
    Asks { again: bool },
    /// The message was sent at this moment, and its reply has not come.
    Waits { since: u64, again: bool },
    Over(AskEnd),
}

// A second after this moment, or the last moment that there is.
fn second_after(since: u64) -> u64
    ensures { result ≡ stages.second_after since }
{
    if since < u64::MAX - PATIENCE {
        since + PATIENCE
    } else {
        u64::MAX
    }
}

/// How a question ends that is not answered at this moment; none if it goes on.
pub fn silent_at(since: u64, now: u64) -> Option<AskEnd>
    ensures { result ≡ stages.silent_at since now }
{
    if second_after(since) <= now {
        Some(AskEnd::Silent)
    } else {
        None
    }
}

impl Stage {
    /// The stage once it was told that what it gave last was lost: the message is sent again, once.
    pub fn lost(self) -> Stage
        ensures { result ≡ stages.stage_lost self }
    {
        match self {
            Stage::Waits { again, .. } => {
                if again {
                    Stage::Over(AskEnd::Lost)
                } else {
                    Stage::Asks { again: true }
                }
            }
            Stage::Names => self,
            Stage::Asks { .. } => self,
            Stage::Over(_) => self,
        }
    }

    /// When it is to be woken: at once while something is to be sent, else a second after the message was sent.
    pub fn wakes(self) -> Option<u64>
        ensures { result ≡ stages.stage_wakes self }
    {
        match self {
            Stage::Names => Some(0),
            Stage::Asks { .. } => Some(0),
            Stage::Waits { since, .. } => Some(second_after(since)),
            Stage::Over(_) => None,
        }
    }

    /// How the question ended, if it is over.
    pub fn end(self) -> Option<AskEnd>
        ensures { result ≡ stages.end_of self }
    {
        match self {
            Stage::Names => None,
            Stage::Asks { .. } => None,
            Stage::Waits { .. } => None,
            Stage::Over(end) => Some(end),
        }
    }

    /// Whether it is over.
    pub fn is_over(self) -> bool
        ensures { result ≡ stages.stage_over self }
    {
        match self {
            Stage::Names => false,
            Stage::Asks { .. } => false,
            Stage::Waits { .. } => false,
            Stage::Over(_) => true,
        }
    }
}
