//! What the desk keeps.
ghost use Rattle.std.specs.Prelude.{◌≡◌};

use crate::heard::Copied;
use crate::limits::KEPT_SEEN;
use cue_desk::replying::Status;
use cue_relay::status as relay;
use cue_show::CueNo;
use cue_view::button::Button;
use cue_view::view::{Became, Trouble};
use std::marker::Model;

/// A copy of the store, and the moment for which it stands.
#[derive(Drop)]
pub struct Reading {
    pub at: u64,
    pub copy: Copied,
}

/// A status: when it was asked, when it came, and what it says.
#[derive(Clone, Copy)]
pub struct Answered {
    pub asked: u64,
    pub came: u64,
    pub status: Status,
}

/// Which attempt GO and CANCEL are for.
#[derive(Clone, Copy, PartialEq, Eq, Debug)]
pub enum Choice {
    Nothing,
    /// What will come of a STANDBY of ours, by the number of its ask and its cue.
    Awaited(u64, CueNo),
    Attempt(u32),
}

/// The attempts of which somebody said that they were seen, here or elsewhere, each at the place of its number among
/// `KEPT_SEEN`. 0 is the number of none.
pub type Acknowledged = [u32; KEPT_SEEN];

/// Since when an attempt is seen to be live.
#[derive(Clone, Copy)]
pub struct Seen {
    pub seq: u32,
    pub since: u64,
    /// Since when it is seen to be given.
    pub given: Option<u64>,
}

/// What is kept of a view.
#[derive(Drop)]
pub struct Shown {
    pub number: u64,
    pub at: u64,
    pub lit: Buttons,
}

/// The buttons that were lit.
#[derive(Drop)]
pub struct Buttons {
    items: Vec<Button>,
}

impl Model for Buttons {
    ghost use Rattle.std.specs.Prelude.{List};
    ghost use Rattle.cue_view.specs.declared.button.Button.{Button};

    ghost Value = { List Button };

    ghost view = { λ b. b.items.items };
}

impl Buttons {
    /// The buttons, kept in the memory that they have.
    pub fn of(items: Vec<Button>) -> Buttons
        ensures { result ≡ items.items }
    {
        Buttons { items }
    }

    /// The buttons.
    pub fn as_slice(&self) -> &[Button]
        ensures { result.now ≡ self.now }
    {
        &self.items
    }
}

/// What the relay has written, and since when it has written nothing new; without a status: since when it cannot be
/// read.
#[derive(Drop)]
pub struct Relayed {
    pub status: Option<relay::Status>,
    pub since: u64,
}

/// The newest question for the status: its ask, and when it was sent.
#[derive(Clone, Copy)]
pub struct Question {
    pub ask: u64,
    pub at: u64,
}

/// What came to the socket of a press, and when.
#[derive(Clone, Copy)]
pub struct Word {
    pub at: u64,
    pub became: Became,
}

/// A press that was sent: when, its ask and its button; which attempt was the newest then; what came to its socket;
/// what the first copy showed that settled it; and whether a copy showed that it was carried out.
#[derive(Clone, Copy)]
pub struct Pending {
    pub at: u64,
    pub ask: u64,
    pub button: Button,
    pub before: u32,
    pub answer: Option<Word>,
    pub settled: Option<Became>,
    pub shown: bool,
}

/// A press that moved the place: from where, and to where.
#[derive(Clone, Copy)]
pub struct Moved {
    pub from: CueNo,
    pub to: CueNo,
}

/// What the desk keeps beside the copy of the store and its lists.
#[derive(Clone, Copy)]
pub struct Notes {
    /// The number of the next view.
    pub number: u64,
    /// The number of the next ask.
    pub next_ask: u64,
    /// The status that came last.
    pub answered: Option<Answered>,
    /// Whether nobody listened when the status was asked last.
    pub nobody: bool,
    /// Why the store could not be read when it was looked at last.
    pub trouble: Option<Trouble>,
    /// Since when a young copy is not what is served.
    pub differs: Option<u64>,
    pub choice: Choice,
    /// The newest question for the status.
    pub question: Option<Question>,
    /// The newest press.
    pub press: Option<Pending>,
    /// The press before it, as long as that is open.
    pub beside: Option<Pending>,
    /// The press before it, also once that is closed.
    pub before: Option<Pending>,
    /// The attempts that were seen.
    pub acknowledged: Acknowledged,
    /// The last press, if that moved the place.
    pub moved: Option<Moved>,
}

/// What says when the status is to be asked again. Nothing that is shown or sent for a press rests on it.
#[derive(Clone, Copy)]
pub struct Pace {
    /// Whether a status came to the newest question, or nobody listens.
    pub is_answered: bool,
    /// Whether the status is wanted at once.
    pub is_wanted: bool,
}
