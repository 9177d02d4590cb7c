//! When the files of the store are looked at.
ghost use Rattle.std.specs.Prelude.{◌≡◌};
ghost use Rattle.cue_desk_run.specs.Looks as looks;

use crate::clocks::Beat;
use cue_view::view::{Became, Said, View};

/// How many milliseconds lie between two looks at the files of the store.
const LOOK: u64 = 100;

/// How many lie between two of them while what is shown waits for what the store says.
const SOON: u64 = 10;

/// When the files are looked at: ten times a second, and sooner while what is shown waits for what the store says.
#[derive(Clone, Copy)]
pub struct Looks {
    often: Beat,
    soon: Beat,
}

// Whether the store has to say what became of a press.
fn waits(became: Became) -> bool
    ensures { result ≡ looks.waits became }
{
    match became {
        Became::Open | Became::Unshown => true,
        Became::Made | Became::Known | Became::Over | Became::Refused(_) | Became::Partly(_) => {
            false
        }
        Became::Nobody | Became::Carried | Became::Lost | Became::Unknown => false,
    }
}

// The same of a press, if there is one.
fn waits_by(said: &Option<Said>) -> bool
    ensures { result ≡ looks.waits_by said.now }
{
    match said {
        Some(said) => waits(said.became),
        None => false,
    }
}

// Whether what is shown waits for what the store says: what is served is not what was read, or the store has to say
// what became of the last press.
fn waits_for_store(view: &View) -> bool
    ensures { result ≡ looks.waits_for_store view.now }
{
    view.differs || waits_by(&view.said)
}

impl Looks {
    /// None was made yet.
    pub fn new() -> Looks
        ensures { result ≡ looks.begun }
    {
        Looks {
            often: Beat::of(LOOK),
            soon: Beat::of(SOON),
        }
    }

    /// Whether the files are to be looked at, at this moment and with this as the newest view; if so, that counts as
    /// done.
    pub fn is_due(&mut self, view: &View, now: u64) -> bool
        ensures due { result ≡ looks.is_due self.old view.now now }
        ensures after { self.new ≡ looks.after self.old view.now now }
    {
        if self.often.is_due(now) {
            return true;
        }
        waits_for_store(view) && self.soon.is_due(now)
    }
}
