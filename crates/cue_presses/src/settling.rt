//! Which bytes of a device may press.
ghost use Rattle.std.specs.Prelude.{◌≡◌};
ghost use Rattle.cue_presses.specs.Settling as rule;

/// How long after its opening what a device gives is only heard at least, in milliseconds.
pub const SETTLE_MS: u64 = 100;

/// How long it may be that no read has found the device empty: what is read then may be as old.
pub const AWAY_MS: u64 = 1_000;

/// Since when what a device gives may press.
#[derive(Clone, Copy, Debug)]
pub struct Settling {
    /// From when on a read that finds nothing ends the settling.
    pub from: u64,
    /// When a read found nothing last; at first when the device was opened.
    pub empty: u64,
}

impl Settling {
    /// The device is opened at this moment.
    pub fn new(now: u64) -> Settling
        ensures { result ≡ rule.opened now }
    {
        Settling {
            from: now.saturating_add(SETTLE_MS),
            empty: now,
        }
    }

    /// It is read at this moment.
    pub fn read(self, now: u64) -> Settling
        ensures { result ≡ rule.read self now }
    {
        if now.saturating_sub(self.empty) > AWAY_MS {
            return Settling::new(now);
        }
        self
    }

    /// A read at this moment has found nothing: all that waited is read.
    pub fn emptied(self, now: u64) -> Settling
        ensures { result ≡ rule.emptied self now }
    {
        Settling {
            from: self.from,
            empty: now,
        }
    }

    /// Whether what is read may press.
    pub fn is_over(&self) -> bool
        ensures { result ≡ rule.is_over self.now }
    {
        self.from <= self.empty
    }
}
