//! When the clock ticks, and what a wait makes.
ghost use Rattle.std.specs.Prelude.{◌≡◌};
ghost use Rattle.cue_engine.specs.Udp.{is_tick_due, last_after, next_of, tick_if_due};

use super::came::Came;
use crate::sources::source::Turn;

/// The time between two ticks, in milliseconds.
pub const TICK: u64 = 250;

// Whether a tick is due: 250 ms after the last one, or if the clock was put back.
fn is_tick_due(last: u64, now: u64) -> bool
    ensures { result ≡ is_tick_due last now }
{
    now < last || now - last >= TICK
}

/// The time of the last tick, in milliseconds since 1970.
#[derive(Clone, Copy, Drop)]
pub struct Ticks {
    last: u64,
}

impl Ticks {
    /// As if the last tick had been at this time.
    pub fn new(now: u64) -> Ticks
        ensures { result.last ≡ now }
    {
        Ticks { last: now }
    }

    /// Whether a tick is due at this time.
    pub fn is_due(&self, now: u64) -> bool
        ensures { result ≡ is_tick_due self.now.last now }
    {
        is_tick_due(self.last, now)
    }

    /// The tick at this time, if one is due; then it is the last one.
    pub fn due(&mut self, now: u64) -> Option<Turn>
        ensures due { result ≡ tick_if_due self.old.last now }
        ensures last { self.new.last ≡ last_after self.old.last result }
    {
        if is_tick_due(self.last, now) {
            self.last = now;
            Some(Turn::Tick { now })
        } else {
            None
        }
    }

    /// The turn of what a wait brought that was over at this time, or None of noise. A tick is then the last one.
    pub fn after(&mut self, came: Came, now: u64) -> Option<Turn>
        ensures next { result ≡ next_of came now }
        ensures last { self.new.last ≡ last_after self.old.last result }
    {
        match came {
            Came::Noise => None,
            Came::Nothing => {
                self.last = now;
                Some(Turn::Tick { now })
            }
            Came::Datagram { from, n } => Some(Turn::Datagram { now, from, n }),
        }
    }
}
