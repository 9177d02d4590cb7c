//! What a relay keeps of numbers and moments.
ghost use Rattle.std.specs.Prelude.{◌≡◌};
ghost use Rattle.cue_relay_machine.specs.Books.{books_lost, counted, has_more_dropped, is_copy, is_due, is_report_due};
ghost use Rattle.cue_relay_machine.specs.Books.{new_books, next_tick, one_dropped, one_lost, one_passed, report};
ghost use Rattle.cue_relay_machine.specs.Books.{reports};
ghost use Rattle.cue_relay_machine.specs.Books.{says_trouble, ticked};

use cue_machine::Output;
use cue_relay::Counts;

/// The time between two ticks, in milliseconds: a desk says after a quarter of a second that nothing new came.
pub const TICK: u64 = 100;

/// The time between two lines on what was dropped, in milliseconds.
pub const DROPPED_PAUSE: u64 = 10_000;

/// The counts, and what was said of them and of the status. Moments are milliseconds since 1970.
#[derive(Clone, Copy, Debug)]
pub struct Books {
    pub counts: Counts,
    /// When the last tick was.
    pub ticked: u64,
    /// How many datagrams were dropped when that was said last.
    pub reported: u64,
    /// When that was.
    pub reported_at: u64,
    /// Whether the last status could not be written.
    pub lost: bool,
    /// Whether that was said before the last status, and none was written since.
    pub told: bool,
}

// One more, up to the highest number that there is room for.
fn counted(n: u64) -> u64
    ensures { result ≡ counted n }
{
    if n < u64::MAX { n + 1 } else { n }
}

// Whether what was lost is a copy of a GO: what is sent at a wake is one.
fn is_copy(woken: bool, output: Output) -> bool
    ensures { result ≡ is_copy woken output }
{
    match output {
        Output::Send { .. } => woken,
        Output::Replace | Output::Print | Output::Say => false,
    }
}

impl Books {
    /// Nothing came yet, and the first tick is a tenth of a second from now.
    pub fn begun(now: u64) -> Books
        ensures { result ≡ new_books now }
    {
        Books {
            counts: Counts::NONE,
            ticked: now,
            reported: 0,
            reported_at: 0,
            lost: false,
            told: false,
        }
    }

    /// One more was handed on.
    pub fn one_passed(mut self) -> Books
        ensures { result ≡ one_passed self }
    {
        self.counts.passed = counted(self.counts.passed);
        self
    }

    /// One more was dropped.
    pub fn one_dropped(mut self) -> Books
        ensures { result ≡ one_dropped self }
    {
        self.counts.dropped = counted(self.counts.dropped);
        self
    }

    /// This was lost, which was given last: a copy of a GO is counted nowhere.
    pub fn lost(self, woken: bool, output: Output) -> Books
        ensures { result ≡ books_lost woken self output }
    {
        if is_copy(woken, output) {
            self
        } else {
            self.one_lost(output)
        }
    }

    // This was lost: a datagram that was handed on, or the status.
    fn one_lost(mut self, output: Output) -> Books
        ensures { result ≡ one_lost self output }
    {
        match output {
            Output::Send { .. } => {
                self.counts.passed = self.counts.passed.saturating_sub(1);
                self.counts.lost = counted(self.counts.lost);
            }
            Output::Replace => self.lost = true,
            Output::Print | Output::Say => {}
        }
        self
    }

    /// Whether a tick is due: a tenth of a second has passed since the last one, or the clock was put back before it.
    pub fn is_due(self, now: u64) -> bool
        ensures { result ≡ is_due self now }
    {
        now < self.ticked || now - self.ticked >= TICK
    }

    // Whether it may be said now how many were dropped.
    fn is_report_due(self, now: u64) -> bool
        ensures { result ≡ is_report_due self now }
    {
        now < self.reported_at || now - self.reported_at >= DROPPED_PAUSE
    }

    // Whether it is said now how many were dropped.
    fn reports(self, now: u64) -> bool
        ensures { result ≡ reports self now }
    {
        self.counts.dropped != self.reported && self.is_report_due(now)
    }

    /// How many were dropped since it was said, if it is said now.
    pub fn report(self, now: u64) -> Option<u64>
        ensures { result ≡ report self now }
    {
        if self.reports(now) {
            Some(self.counts.dropped.saturating_sub(self.reported))
        } else {
            None
        }
    }

    /// Whether it is said now that the status cannot be written.
    pub fn says_trouble(self) -> bool
        ensures { result ≡ says_trouble self }
    {
        self.lost && !self.told
    }

    /// The books after a tick.
    pub fn ticked(self, now: u64) -> Books
        ensures { result ≡ ticked self now }
    {
        let reports = self.reports(now);
        Books {
            counts: self.counts,
            ticked: now,
            reported: if reports {
                self.counts.dropped
            } else {
                self.reported
            },
            reported_at: if reports { now } else { self.reported_at },
            lost: false,
            told: self.lost,
        }
    }

    /// The next tenth of a second.
    pub fn next_tick(self) -> u64
        ensures { result ≡ next_tick self }
    {
        if self.ticked < u64::MAX - TICK {
            self.ticked + TICK
        } else {
            u64::MAX
        }
    }
}
