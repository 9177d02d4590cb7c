//! The presses whose end is not told yet: the newest, and the one before it.
ghost use Rattle.std.specs.Prelude.{◌≡◌};
ghost use Rattle.cue_panel.specs.Pending as pending;

use crate::line::Line;
use crate::outcome::Outcome;
use crate::taking::{Source, Strike};
use cue_presses::Hand;
use cue_presses::taps::TAP_MS;
use cue_view::button::Button;
use cue_view::view::{Became, Said, View};

/// How long a press may be open before that is said, in milliseconds.
pub const OPEN_MS: u64 = 500;

/// What pressed what.
#[derive(Clone, Copy, PartialEq, Eq, Debug)]
pub struct What {
    pub source: Source,
    pub button: Button,
}

/// A press whose end is not told yet.
#[derive(Clone, Copy, PartialEq, Eq, Debug)]
pub struct Pending {
    pub ask: u64,
    /// The moment of the round in which it was sent.
    pub since: u64,
    pub what: What,
    /// Whether it was said that it is open.
    pub is_told: bool,
    /// What was passed before it.
    pub passed: Option<u32>,
}

/// What is told of a press: what is still to be told after this, and what is said.
#[derive(Clone, Copy)]
pub(crate) struct Told {
    pub left: Option<Pending>,
    pub line: Option<Line>,
}

/// The presses whose end is not told yet.
#[derive(Clone, Copy, PartialEq, Eq, Debug)]
pub struct Pendings {
    pub newest: Option<Pending>,
    pub before: Option<Pending>,
}

/// Whether a press was not carried out, and never will be.
pub(crate) fn is_undone(became: Became) -> bool
    ensures { result ≡ pending.is_undone became }
{
    match became {
        Became::Refused(_) | Became::Nobody | Became::Lost => true,
        Became::Open | Became::Made | Became::Known | Became::Unshown => false,
        Became::Over | Became::Partly(_) | Became::Carried | Became::Unknown => false,
    }
}

/// Whether nobody knows yet what became of it: a word of the controller alone is not enough.
pub(crate) fn is_open(became: Became) -> bool
    ensures { result ≡ pending.is_open became }
{
    match became {
        Became::Open | Became::Unshown => true,
        Became::Made | Became::Known | Became::Over | Became::Refused(_) => false,
        Became::Partly(_) | Became::Nobody | Became::Carried => false,
        Became::Lost | Became::Unknown => false,
    }
}

// What is said of the press with this ask, if this is said of it.
fn became_if(ask: u64, said: Option<Said>) -> Option<Became>
    ensures { result ≡ pending.became_if ask said }
{
    match said {
        Some(said) => if said.ask == ask {
            Some(said.became)
        } else {
            None
        },
        None => None,
    }
}

/// What the view says of the press with this ask; none if it says nothing of it.
pub(crate) fn became_in(view: &View, ask: u64) -> Option<Became>
    ensures { result ≡ pending.became_in view.now ask }
{
    match became_if(ask, view.said) {
        Some(became) => Some(became),
        None => became_if(ask, view.before),
    }
}

// Whether it is long open, and that was not said.
fn is_long(press: &Pending, at: u64) -> bool
    ensures { result ≡ pending.is_long press.now at }
{
    !press.is_told && at.saturating_sub(press.since) > OPEN_MS
}

// What is told of an open press.
fn tell_open(press: Pending, became: Became, at: u64) -> Told
    ensures { result ≡ pending.told_open press became at }
{
    if is_long(&press, at) {
        Told {
            left: Some(Pending {
                is_told: true,
                ..press
            }),
            line: Some(Line::Became(press.what, became)),
        }
    } else {
        Told {
            left: Some(press),
            line: None,
        }
    }
}

// What is told of a press that became this at a moment.
fn tell_became(press: Pending, became: Option<Became>, at: u64) -> Told
    ensures { result ≡ pending.told_became press became at }
{
    match became {
        Some(became) => {
            if is_open(became) {
                tell_open(press, became, at)
            } else {
                Told {
                    left: None,
                    line: Some(Line::Became(press.what, became)),
                }
            }
        }
        None => Told {
            left: Some(press),
            line: None,
        },
    }
}

/// What is told of a press by a view at a moment: its end, once it is settled; that it is open, once, if that lasts.
pub(crate) fn tell(press: Option<Pending>, view: &View, at: u64) -> Told
    ensures { result ≡ pending.told press view.now at }
{
    match press {
        Some(press) => tell_became(press, became_in(view, press.ask), at),
        None => Told {
            left: None,
            line: None,
        },
    }
}

// Whether it became this, and so is undone.
fn is_undone_by(became: Option<Became>) -> bool
    ensures { result ≡ pending.is_undone_by became }
{
    match became {
        Some(became) => is_undone(became),
        None => false,
    }
}

impl Pendings {
    /// Nothing was sent.
    pub fn none() -> Pendings
        ensures { result ≡ pending.none }
    {
        Pendings {
            newest: None,
            before: None,
        }
    }

    /// What the end of is not told yet once this came of a press, by the hand that pressed it.
    pub fn after(self, strike: &Strike, outcome: Outcome, hand: &Hand) -> Pendings
        ensures { result ≡ pending.pendings_after strike.now outcome hand.now self }
    {
        match outcome {
            Outcome::Sent(ask) => Pendings {
                newest: Some(Pending {
                    ask,
                    since: hand.at,
                    what: What {
                        source: strike.source,
                        button: strike.press.button,
                    },
                    is_told: false,
                    passed: hand.passed,
                }),
                before: self.newest,
            },
            Outcome::Unsent(_) | Outcome::Unheard => self,
        }
    }

    /// What was passed before the newest press, if this view says that it was not carried out.
    pub fn undone(&self, view: &View) -> Option<Option<u32>>
        ensures { result ≡ pending.undone_by view.now self.now.newest }
    {
        match self.newest {
            Some(press) => {
                if is_undone_by(became_in(view, press.ask)) {
                    Some(press.passed)
                } else {
                    None
                }
            }
            None => None,
        }
    }

    /// Whether the newest press is the same one, and is less than a second old: it is the second tap of one finger.
    pub fn is_tapped(&self, what: &What, at: u64) -> bool {
        match &self.newest {
            Some(press) => press.what == *what && at.saturating_sub(press.since) < TAP_MS,
            None => false,
        }
    }
}
