//! A press at a desk without a browser.
ghost use Rattle.std.specs.Prelude.{◌≡◌};
ghost use Rattle.cue_buttons_run.specs.Pressing.{Chooses, Presses, PressesButton, PressesOne};

use cue_desk_run::Desk;
use cue_panel::{Outcome, outcome_of};
use cue_presses::Press;
use cue_view::button::Button;
use std::fs::{File, Files};
use std::net::Net;
use std::time::Clock;

// Presses one button of the newest view. Answers whether that was heard.
fn press_one<R: Files<File = File> + Net + Clock + AllocGlobal>(
    desk: &mut Desk<'_, R>,
    button: Button,
) -> bool
    ensures { PressesOne result button desk.old.station desk.new.station desk.old.view desk.new.view }
{
    let number = desk.view().number;
    desk.press(number, button)
}

// Chooses this attempt, if there is one to choose. Answers whether that was heard.
fn choose<R: Files<File = File> + Net + Clock + AllocGlobal>(
    desk: &mut Desk<'_, R>,
    seq: Option<u32>,
) -> bool
    ensures { Chooses result seq desk.old.station desk.new.station desk.old.view desk.new.view }
{
    match seq {
        Some(seq) => press_one(desk, Button::Choose(seq)),
        None => true,
    }
}

// Presses a button of the newest view, and says what came of that.
fn press_button<R: Files<File = File> + Net + Clock + AllocGlobal>(
    desk: &mut Desk<'_, R>,
    button: Button,
) -> Outcome
    ensures { PressesButton button result desk.old.station desk.new.station desk.old.view desk.new.view }
{
    if press_one(desk, button) {
        outcome_of(desk.view())
    } else {
        Outcome::Unheard
    }
}

/// Presses what an intent means, once: the attempt is chosen first, if it has to be. It is a press of the newest view,
/// under the law of the desk, and what comes of it is what the view after it says.
#[tactic(auto, using(crate::proofs::PressLemmas::chosen_then, crate::proofs::PressLemmas::unchosen))]
pub fn press_at<R: Files<File = File> + Net + Clock + AllocGlobal>(
    desk: &mut Desk<'_, R>,
    press: &Press,
) -> Outcome
    ensures { Presses press.now result desk.old.station desk.new.station desk.old.view desk.new.view }
{
    if choose(desk, press.choose) {
        press_button(desk, press.button)
    } else {
        Outcome::Unheard
    }
}
