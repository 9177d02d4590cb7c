//! What was dropped: presses that waited in the device, and presses that were too many at once.
ghost use Rattle.std.specs.Prelude.{◌≡◌};
ghost use Rattle.cue_panel.specs.Dropped as dropped;

use crate::line::Line;
use crate::taking::Taken;
use cue_presses::Struck;

/// How many milliseconds lie between two lines about presses that were too many.
pub const FLOOD_MS: u64 = 1_000;

/// How many presses were dropped and are not told yet.
#[derive(Clone, Copy, PartialEq, Eq, Debug)]
pub struct Dropped {
    /// They waited in the device, nobody knows how long.
    pub waited: u64,
    /// They were too many at once.
    pub flooded: u64,
    /// When it was told last that presses were too many.
    pub told: Option<u64>,
}

impl Dropped {
    /// Nothing was dropped.
    pub fn none() -> Dropped
        ensures { result ≡ dropped.none }
    {
        Dropped {
            waited: 0,
            flooded: 0,
            told: None,
        }
    }

    // One more has waited.
    fn with_waited(self) -> Dropped
        ensures { result ≡ dropped.with_waited self }
    {
        Dropped {
            waited: self.waited.saturating_add(1),
            ..self
        }
    }

    // One more was too many.
    fn with_flooded(self) -> Dropped
        ensures { result ≡ dropped.with_flooded self }
    {
        Dropped {
            flooded: self.flooded.saturating_add(1),
            ..self
        }
    }

    // What was dropped, once this comes of what was struck.
    fn after_struck(self, struck: &Struck) -> Dropped
        ensures { result ≡ dropped.after_struck struck.now self }
    {
        match struck {
            Struck::Waited => self.with_waited(),
            Struck::Flooded => self.with_flooded(),
            Struck::Presses(_) | Struck::Refused(_) | Struck::Tap => self,
        }
    }

    /// What was dropped, once a message came to this.
    pub fn after(self, taken: &Taken) -> Dropped
        ensures { result ≡ dropped.after taken.now self }
    {
        match taken {
            Taken::Struck(_, _, struck) => self.after_struck(struck),
            Taken::Flooded => self.with_flooded(),
            Taken::Spoken(_) | Taken::Held(_) | Taken::Other(_) | Taken::Nothing => self,
        }
    }

    /// The line about what waited, once the device has settled.
    pub fn waited_line(&self, is_settled: bool) -> Option<Line>
        ensures { result ≡ dropped.waited_line self.now is_settled }
    {
        if self.waited > 0 && is_settled {
            Some(Line::Waited(self.waited))
        } else {
            None
        }
    }

    /// The same, once that was told where it is to be.
    pub fn waited_told(self, is_settled: bool) -> Dropped
        ensures { result ≡ dropped.waited_told self is_settled }
    {
        if is_settled {
            Dropped { waited: 0, ..self }
        } else {
            self
        }
    }

    // Whether it was not told within the last second.
    fn is_due(&self, at: u64) -> bool
        ensures { result ≡ dropped.is_due self.now at }
    {
        match self.told {
            Some(told) => at.saturating_sub(told) >= FLOOD_MS,
            None => true,
        }
    }

    /// The line about what was too many, at most once a second.
    pub fn flooded_line(&self, at: u64) -> Option<Line>
        ensures { result ≡ dropped.flooded_line self.now at }
    {
        if self.flooded > 0 && self.is_due(at) {
            Some(Line::Flooded(self.flooded))
        } else {
            None
        }
    }

    /// The same, once that was told where it is to be.
    pub fn flooded_told(self, at: u64) -> Dropped
        ensures { result ≡ dropped.flooded_told self at }
    {
        if self.flooded > 0 && self.is_due(at) {
            Dropped {
                flooded: 0,
                told: Some(at),
                ..self
            }
        } else {
            self
        }
    }
}
