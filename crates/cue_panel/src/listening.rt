//! When a device is opened, looked at and let go, and what is told of it.
ghost use Rattle.std.specs.Prelude.{◌≡◌, IfOk, string_bytes};
ghost use Rattle.cue_panel.specs.Listening as listening;

use std::alloc::{AllocError, Global};

/// How many milliseconds lie between two openings, and between two looks at the path.
pub const AGAIN_MS: u64 = 1_000;

/// How many times a device is read in a round.
pub const PIECES: usize = 2;

/// How many times while what waited in it is dropped: all that a FIFO holds.
pub const PIECES_THAT_WAITED: usize = 64;

/// How many times a device is read in a round at most.
pub fn pieces(is_settled: bool) -> usize
    ensures { result ≡ listening.pieces is_settled }
{
    if is_settled {
        PIECES
    } else {
        PIECES_THAT_WAITED
    }
}

/// Something that is done again and again, with a second at least between.
#[derive(Clone, Copy, PartialEq, Eq, Debug)]
pub struct Pace {
    pub last: Option<u64>,
}

impl Pace {
    /// Whether it is due: it was not done within the last second.
    pub fn is_due(&self, now: u64) -> bool
        ensures { result ≡ listening.is_due self.now now }
    {
        match self.last {
            Some(last) => now.saturating_sub(last) >= AGAIN_MS,
            None => true,
        }
    }
}

/// Why a device is heard no more.
#[derive(Clone, Copy, PartialEq, Eq, Debug)]
pub enum Silence {
    /// The file is at its end.
    Ended,
    /// It cannot be read any more.
    Lost,
    /// The path names something else, or nothing.
    Gone,
}

impl Silence {
    /// Whether nothing is heard after it: what is lost or gone is opened again.
    pub fn is_end(self) -> bool
        ensures { result ≡ listening.is_end self }
    {
        match self {
            Silence::Ended => true,
            Silence::Lost | Silence::Gone => false,
        }
    }
}

/// What is told of a device.
#[derive(Clone, Copy, Drop)]
pub enum Notice<'a> {
    /// It is being opened: if another program holds it, nothing follows.
    Opening,
    /// It is open.
    Hearing,
    /// It cannot be opened, for this reason.
    Closed(&'a str),
    Ended,
    /// It cannot be read any more, for this reason.
    Lost(&'a str),
    Gone,
}

/// What is told of a device that is heard no more, and of what the system says.
pub fn notice_of(silence: Silence, why: &str) -> Notice<'_>
    ensures { listening.IsNotice silence why.now result }
{
    match silence {
        Silence::Ended => Notice::Ended,
        Silence::Lost => Notice::Lost(why),
        Silence::Gone => Notice::Gone,
    }
}

/// When a device is opened and looked at, and what was told of it.
#[derive(Clone, Copy, PartialEq, Eq, Debug)]
pub struct Listening {
    pub tries: Pace,
    pub looks: Pace,
    /// Whether it was said that it is opened.
    pub is_said: bool,
    /// Whether it was said that it cannot be.
    pub is_told: bool,
}

impl Listening {
    /// Nothing was opened yet.
    pub fn new() -> Listening
        ensures { result ≡ listening.begun }
    {
        Listening {
            tries: Pace { last: None },
            looks: Pace { last: None },
            is_said: false,
            is_told: false,
        }
    }

    /// Whether a device is to be opened at this moment: none is open, and none was tried within the last second.
    pub fn opens(&mut self, is_open: bool, now: u64) -> bool
        ensures opens { result ≡ listening.opens self.old is_open now }
        ensures state { self.new ≡ listening.after_try self.old is_open now }
    {
        let opens = !is_open && self.tries.is_due(now);
        if opens {
            self.tries = Pace { last: Some(now) };
        }
        opens
    }

    /// Whether it is said that it is opened: once, until it is let go.
    pub fn says_opening(&mut self) -> bool
        ensures says { result ≡ listening.says_opening self.old }
        ensures state { self.new ≡ listening.said self.old }
    {
        let says = !self.is_said;
        self.is_said = true;
        says
    }

    /// Whether it is said that it could not be opened: once, until it is let go.
    pub fn says_closed(&mut self) -> bool
        ensures says { result ≡ listening.says_closed self.old }
        ensures state { self.new ≡ listening.told self.old }
    {
        let says = !self.is_told;
        self.is_told = true;
        says
    }

    /// Whether it is looked at this moment whether an open device is still there: once a second.
    pub fn looks(&mut self, is_open: bool, now: u64) -> bool
        ensures looks { result ≡ listening.looks self.old is_open now }
        ensures state { self.new ≡ listening.after_look self.old is_open now }
    {
        let looks = is_open && self.looks.is_due(now);
        if looks {
            self.looks = Pace { last: Some(now) };
        }
        looks
    }

    /// The device is let go: what is told of the next one is told anew.
    pub fn let_go(&mut self)
        ensures { self.new ≡ listening.let_go self.old }
    {
        self.is_said = false;
        self.is_told = false;
    }
}

/// What is told of the device at this path.
pub fn notice_text(alloc: Global, path: &str, notice: &Notice<'_>) -> Result<String, AllocError>
    ensures { IfOk result (λ text. string_bytes text ≡ listening.notice_text path.now notice.now) }
{
    match notice {
        Notice::Opening => format!(in alloc; "opening {path}"),
        Notice::Hearing => format!(in alloc; "hearing {path}"),
        Notice::Closed(why) => format!(in alloc; "{path}: {why}: it is tried again each second"),
        Notice::Ended => format!(in alloc; "{path} has ended"),
        Notice::Lost(why) => format!(in alloc; "{path}: {why}: it is opened again each second"),
        Notice::Gone => format!(in alloc; "{path} is gone: it is opened again each second"),
    }
}
