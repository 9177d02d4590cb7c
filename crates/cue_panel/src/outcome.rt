//! What comes of a press at a desk.
ghost use Rattle.std.specs.Prelude.{◌≡◌};
ghost use Rattle.cue_panel.specs.Outcomes as outcomes;

use cue_presses::{Hand, Press};
use cue_view::view::{Unsent, View};

/// What comes of a press at once.
#[derive(Clone, Copy, PartialEq, Eq, Debug)]
pub enum Outcome {
    /// Its message is sent, with this ask: the view says what became of it.
    Sent(u64),
    /// Nothing is sent.
    Unsent(Unsent),
    /// Memory ran out: nothing is sent.
    Unheard,
}

/// What the view after a press that was heard says of it.
pub fn outcome_of(view: &View) -> Outcome
    ensures { result ≡ outcomes.outcome_of view.now }
{
    match (view.unsent, view.said) {
        (Some(unsent), _) => Outcome::Unsent(unsent),
        (None, Some(said)) => Outcome::Sent(said.ask),
        (None, None) => Outcome::Unsent(Unsent::Dark),
    }
}

/// How the hand stands once this came of a press, with the view after it: it remembers a GO that was sent.
pub(crate) fn hand_after(press: &Press, outcome: Outcome, view: &View, hand: Hand) -> Hand
    ensures { result ≡ outcomes.hand_after press.now outcome view.now hand }
{
    match outcome {
        Outcome::Sent(_) => hand.sent(view, press.button),
        Outcome::Unsent(_) | Outcome::Unheard => hand,
    }
}
