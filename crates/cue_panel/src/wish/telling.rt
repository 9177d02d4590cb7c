//! How a wish ends, and what is told of it.
ghost use Rattle.std.specs.Prelude.{◌≡◌, IfOk, string_bytes};
ghost use Rattle.cue_panel.specs.WishWords as telling;
ghost use Rattle.cue_panel.specs.WishWords.{IsEnd, IsHindered, IsRefusal};

use crate::wish::{End, Hindrance, Wish};
use cue_board::{alarm_words, became_words, unsent_words};
use cue_desk::ending::Ending;
use cue_press_words::{button_words, ending_by, intent_words, trouble_of, why_words};
use cue_presses::{Intent, Why};
use cue_show_file::Group;
use cue_view::view::{Became, View};
use std::alloc::{AllocError, Global};

// That nothing was sent, and why.
fn refusal_text(alloc: Global, intent: &str, words: &str) -> Result<String, AllocError>
    ensures { IfOk result (λ text. string_bytes text ≡ telling.refusal_text intent.now words.now) }
{
    format!(in alloc; "{intent}: {words}: nothing was sent")
}

// Why nothing was pressed.
#[tactic(auto, using(crate::proofs::LineLemmas::is_refusal))]
fn refusal(alloc: Global, intent: &Intent, why: Why, view: &View) -> Result<String, AllocError>
    ensures { IfOk result (λ text. IsRefusal intent.now (string_bytes text)) }
{
    let words = why_words(alloc, view, intent, why)?;
    let intent = intent_words(alloc, intent)?;
    refusal_text(alloc, intent.as_str(), words.as_str())
}

// What is wrong: so no button was lit.
fn trouble(alloc: Global, view: &View, port: u16) -> Result<String, AllocError>
    ensures { IfOk result (λ text. string_bytes text ≡ telling.trouble_line port view.now) }
{
    match trouble_of(view) {
        Some(alarm) => alarm_words(alloc, alarm, view.at, port),
        None => String::from_str(
            alloc,
            "serve says otherwise than the store: a change is under way, or it has other files",
        ),
    }
}

// That no button was lit, and why.
fn dark(alloc: Global, intent: &Intent, view: &View, port: u16) -> Result<String, AllocError>
    ensures { IfOk result (λ text. string_bytes text ≡ telling.dark_line port view.now intent.now) }
{
    let words = trouble(alloc, view, port)?;
    let intent = intent_words(alloc, intent)?;
    refusal_text(alloc, intent.as_str(), words.as_str())
}

// What stood in the way.
fn hindrance_line(
    alloc: Global,
    intent: &Intent,
    hindrance: Hindrance,
    view: &View,
    port: u16,
) -> Result<String, AllocError>
    ensures { IfOk result (λ text. IsHindered port view.now intent.now hindrance (string_bytes text)) }
{
    match hindrance {
        Hindrance::Dark => dark(alloc, intent, view, port),
        Hindrance::Why(why) => refusal(alloc, intent, why, view),
        Hindrance::Unsent(unsent) => String::from_str(alloc, unsent_words(unsent)),
    }
}

// What was pressed: the button of the last press, or what was intended.
fn pressed(
    alloc: Global,
    intent: &Intent,
    view: &View,
    together: &[Group],
) -> Result<String, AllocError>
    ensures { IfOk result (λ text. string_bytes text ≡ telling.pressed_words together.now view.now intent.now) }
{
    match view.said {
        Some(said) => button_words(alloc, said.button, together),
        None => intent_words(alloc, intent),
    }
}

// What became of it.
fn became_line(
    alloc: Global,
    pressed: &str,
    became: Became,
    port: u16,
) -> Result<String, AllocError>
    ensures { IfOk result (λ text. string_bytes text ≡ telling.became_line port pressed.now became) }
{
    let words = became_words(alloc, became, port)?;
    let words = words.as_str();
    format!(in alloc; "{pressed}: {words}")
}

impl End {
    /// How the command ends; none if it is done.
    pub fn ending(self) -> Option<Ending>
        ensures { result ≡ telling.ending_of self }
    {
        match self {
            End::Refused(_) => Some(Ending::Refused),
            End::Hindered(Hindrance::Dark) => Some(Ending::Silent),
            End::Hindered(Hindrance::Why(_) | Hindrance::Unsent(_)) => Some(Ending::Refused),
            End::Became(became) => ending_by(became),
        }
    }
}

impl Wish {
    /// What is told of its end, by the view that is shown then: of a controller at this port, and of cues that are
    /// stood by together.
    pub fn text(
        &self,
        alloc: Global,
        end: End,
        view: &View,
        together: &[Group],
        port: u16,
    ) -> Result<String, AllocError>
        ensures { IfOk result (λ text. IsEnd together.now port view.now self.now.intent end (string_bytes text)) }
    {
        match end {
            End::Refused(why) => refusal(alloc, &self.intent, why, view),
            End::Hindered(hindrance) => hindrance_line(alloc, &self.intent, hindrance, view, port),
            End::Became(became) => {
                let words = pressed(alloc, &self.intent, view, together)?;
                became_line(alloc, words.as_str(), became, port)
            }
        }
    }
}
