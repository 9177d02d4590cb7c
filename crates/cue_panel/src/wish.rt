//! One press by a word, turn by turn: what is wished is pressed once it is lit, and then it is waited for what became of
//! it.
ghost use Rattle.std.specs.Prelude.{◌≡◌};
ghost use Rattle.cue_panel.specs.Wishing as wishing;

mod telling;

use crate::lit::is_lit;
use crate::outcome::Outcome;
use crate::pending::{became_in, is_open};
use cue_press_words::trouble_of;
use cue_presses::{Intent, Press, Why, is_hopeless, meaning};
use cue_view::view::{Became, Unsent, View};

/// How long a desk has to light a button, and how long its press to be settled, in milliseconds.
pub const PATIENCE: u64 = 3_000;

/// What stands in the way of a press.
#[derive(Clone, Copy, PartialEq, Eq, Debug)]
pub enum Hindrance {
    /// The desk does not know enough yet, or something is wrong.
    Dark,
    /// The view says why.
    Why(Why),
    /// The press was not sent.
    Unsent(Unsent),
}

/// How a wish has ended.
#[derive(Clone, Copy, PartialEq, Eq, Debug)]
pub enum End {
    /// It presses nothing, and it is no use to wait.
    Refused(Why),
    /// This stood in the way when its time was over.
    Hindered(Hindrance),
    /// It was sent, and this became of it.
    Became(Became),
}

/// What is to be done in a turn.
#[derive(Clone, Copy, PartialEq, Eq, Debug)]
pub enum Act {
    /// Press this at once, and tell the wish what came of it.
    Press(Press),
    /// Wait for the next turn.
    Wait,
    End(End),
}

/// How far a wish has come.
#[derive(Clone, Copy, PartialEq, Eq, Debug)]
pub enum Stage {
    /// It is tried in each turn.
    Trying,
    /// It was sent with this ask, and is waited for until that moment.
    Sent(u64, u64),
    Over,
}

/// A press by a word.
#[derive(Clone, Copy, PartialEq, Eq, Debug)]
pub struct Wish {
    pub intent: Intent,
    /// Whether it waits until what it means can be pressed, as `--wait` has it.
    pub waits: bool,
    /// The last moment at which it is tried.
    pub until: u64,
    pub stage: Stage,
}

// Whether what the view says is all that can be known.
fn is_settled(view: &View) -> bool
    ensures { result ≡ wishing.is_settled view.now }
{
    trouble_of(view).is_none() && view.is_complete() && !view.differs
}

// What the wait comes to, with that in its way: its time may be over.
fn hindered(is_over: bool, hindrance: Hindrance) -> Act
    ensures { result ≡ wishing.hindered is_over hindrance }
{
    if is_over {
        Act::End(End::Hindered(hindrance))
    } else {
        Act::Wait
    }
}

// What became of the press with this ask; while the view says nothing of it, it is open.
fn became_of(view: &View, ask: u64) -> Became
    ensures { result ≡ wishing.became_of view.now ask }
{
    match became_in(view, ask) {
        Some(became) => became,
        None => Became::Open,
    }
}

impl Wish {
    /// A wish that waits so many milliseconds of its desk until what it means can be pressed, or not at all.
    pub fn new(intent: Intent, wait: Option<u64>) -> Wish
        ensures { result ≡ wishing.fresh intent wait }
    {
        Wish {
            intent,
            waits: wait.is_some(),
            until: wait.unwrap_or(PATIENCE),
            stage: Stage::Trying,
        }
    }

    // What is done if the intent presses nothing, by this view.
    fn unmeant(&self, is_over: bool, view: &View, why: Why) -> Act
        ensures { result ≡ wishing.unmeant self.now is_over view.now why }
    {
        if !is_settled(view) {
            return hindered(is_over, Hindrance::Dark);
        }
        if self.waits && !is_hopeless(view, &self.intent, &why) {
            return hindered(is_over, Hindrance::Why(why));
        }
        Act::End(End::Refused(why))
    }

    // What is done while it is tried.
    fn attempt(&self, now: u64, view: &View) -> Act
        ensures { result ≡ wishing.attempt self.now now view.now }
    {
        let is_over = now > self.until;
        match meaning(view, None, &self.intent) {
            Ok(press) => {
                if is_lit(view, &press) {
                    Act::Press(press)
                } else {
                    hindered(is_over, Hindrance::Dark)
                }
            }
            Err(why) => self.unmeant(is_over, view, why),
        }
    }

    // What is done at a moment, while this view is shown.
    fn act(&self, now: u64, view: &View) -> Act
        ensures { result ≡ wishing.act_of self.now now view.now }
    {
        match self.stage {
            Stage::Trying => self.attempt(now, view),
            Stage::Sent(ask, until) => {
                let became = became_of(view, ask);
                if !is_open(became) || now > until {
                    Act::End(End::Became(became))
                } else {
                    Act::Wait
                }
            }
            Stage::Over => Act::Wait,
        }
    }

    // The same wish at this stage.
    fn at(self, stage: Stage) -> Wish
        ensures { result ≡ wishing.at_stage stage self }
    {
        Wish { stage, ..self }
    }

    /// A turn at a moment of the desk, while this view is shown. Answers what is to be done.
    pub fn turn(&mut self, now: u64, view: &View) -> Act
        ensures act { result ≡ wishing.act_of self.old now view.now }
        ensures wish { self.new ≡ wishing.after_act (wishing.act_of self.old now view.now) self.old }
    {
        let act = self.act(now, view);
        if let Act::End(_) = act {
            *self = self.at(Stage::Over);
        }
        act
    }

    /// This came of the press of a turn at this moment. Answers what is to be done: it is waited, or that is the end.
    pub fn came(&mut self, now: u64, outcome: Outcome) -> Act
        ensures act { result ≡ wishing.act_after self.old now outcome }
        ensures wish { self.new ≡ wishing.after_came self.old now outcome }
    {
        let is_over = now > self.until;
        match outcome {
            Outcome::Sent(ask) => {
                *self = self.at(Stage::Sent(ask, now.saturating_add(PATIENCE)));
                Act::Wait
            }
            Outcome::Unsent(unsent) => self.fail(is_over, Hindrance::Unsent(unsent)),
            Outcome::Unheard => self.fail(is_over, Hindrance::Dark),
        }
    }

    // A press was not sent.
    fn fail(&mut self, is_over: bool, hindrance: Hindrance) -> Act
        ensures act { result ≡ wishing.hindered is_over hindrance }
        ensures wish { self.new ≡ wishing.after_act (wishing.hindered is_over hindrance) self.old }
    {
        let act = hindered(is_over, hindrance);
        if let Act::End(_) = act {
            *self = self.at(Stage::Over);
        }
        act
    }
}
