//! What a message of MIDI is to a panel.
ghost use Rattle.std.specs.Prelude.{◌≡◌};
ghost use Rattle.cue_panel.specs.Taking as taking;

use crate::player::Setting;
use cue_midi::Heard;
use cue_presses::{
    Hand, Intent, Keys, Passed, Press, Spoken, Struck, intent_of, is_first_of_keys, is_of_keys,
    spoken_to,
};
use cue_view::view::View;

/// Where an intent comes from.
#[derive(Clone, Copy, PartialEq, Eq, Debug)]
pub enum Source {
    /// A key.
    Key(Passed),
    /// A command of show control.
    Show,
}

/// What a message comes to.
#[derive(Clone, Copy, PartialEq, Eq, Debug)]
pub enum Taken {
    /// Somebody intends something, from this source; and what comes of it.
    Struck(Source, Intent, Struck),
    /// A command of show control for this desk that intends nothing.
    Spoken(Spoken),
    /// The same, with more at once than there are fingers.
    Flooded,
    /// A controller is down, and was not heard to be let go since the device was opened.
    Held(Passed),
    /// It is no key, or it is for another desk.
    Other(Passed),
    /// A key that presses nothing, as one that is let go.
    Nothing,
}

/// What is to be pressed, and where it comes from.
#[derive(Clone, Copy, PartialEq, Eq, Debug)]
pub struct Strike {
    pub source: Source,
    pub press: Press,
}

/// What is to be pressed; none if the message presses nothing.
pub fn strike_of(taken: &Taken) -> Option<Strike>
    ensures { result ≡ taking.strike_of taken.now }
{
    match taken {
        Taken::Struck(source, _, Struck::Presses(press)) => Some(Strike {
            source: *source,
            press: *press,
        }),
        Taken::Struck(_, _, Struck::Refused(_) | Struck::Waited | Struck::Flooded | Struck::Tap) =>
            None,
        Taken::Spoken(_) | Taken::Flooded | Taken::Held(_) | Taken::Other(_) | Taken::Nothing =>
            None,
    }
}

// What the message is called.
fn passed_of(heard: &Heard) -> Passed
    ensures { result ≡ taking.passed_of heard.now }
{
    match heard {
        Heard::NoteOn { note, .. } => Passed::Note(*note),
        Heard::Controller { number, .. } => Passed::Controller(*number),
        Heard::Show(_) => Passed::Elsewhere,
        Heard::Ignored(kind) => Passed::Other(*kind),
    }
}

// What a message is that presses no key.
fn unstruck(keys: &Keys, hand: &Hand, heard: &Heard) -> Taken
    ensures { result ≡ taking.unstruck (taking.is_first keys.now hand.now heard.now) (taking.is_key keys.now heard.now)
        (taking.passed_of heard.now) }
{
    if is_first_of_keys(keys, &hand.pedals, heard) {
        Taken::Held(passed_of(heard))
    } else if is_of_keys(keys, heard) {
        Taken::Nothing
    } else {
        Taken::Other(passed_of(heard))
    }
}

// What a message of notes and controllers is.
fn key_taken(keys: &Keys, hand: &Hand, view: &View, heard: &Heard) -> Taken
    ensures { result ≡ taking.key_taken keys.now hand.now view.now heard.now }
{
    match intent_of(keys, &hand.pedals, heard) {
        Some(intent) => {
            let source = Source::Key(passed_of(heard));
            Taken::Struck(source, intent, hand.strikes(view, &intent))
        }
        None => unstruck(keys, hand, heard),
    }
}

// What a command of show control is.
fn show_taken(spoken: Spoken, hand: &Hand, view: &View) -> Taken
    ensures { result ≡ taking.show_taken spoken hand.now view.now }
{
    match spoken {
        Spoken::Intent(intent) => {
            Taken::Struck(Source::Show, intent, hand.strikes(view, &intent))
        }
        Spoken::Elsewhere => Taken::Other(Passed::Elsewhere),
        Spoken::OtherCommand(_) | Spoken::NoCue | Spoken::OtherList | Spoken::Unfit => {
            if hand.has_room() {
                Taken::Spoken(spoken)
            } else {
                Taken::Flooded
            }
        }
    }
}

/// What a message comes to, by the hand as it stands and the view that is shown.
pub(crate) fn taken_of(setting: &Setting, hand: &Hand, view: &View, heard: &Heard) -> Taken
    ensures { result ≡ taking.taken_of setting.now hand.now view.now heard.now }
{
    match heard {
        Heard::Show(show) => show_taken(spoken_to(&setting.address, show), hand, view),
        Heard::NoteOn { .. } | Heard::Controller { .. } | Heard::Ignored(_) => {
            key_taken(&setting.keys, hand, view, heard)
        }
    }
}

// How the hand stands after a message of notes and controllers.
fn hand_of_key(keys: &Keys, hand: Hand, heard: &Heard) -> Hand
    ensures { result ≡ taking.hand_of_key keys.now hand heard.now }
{
    let after = hand.after(keys, heard);
    match intent_of(keys, &hand.pedals, heard) {
        Some(_) => after.counted(),
        None => after,
    }
}

// How it stands after a command of show control: one for this desk takes a finger.
fn hand_of_show(spoken: Spoken, hand: Hand) -> Hand
    ensures { result ≡ taking.hand_of_show spoken hand }
{
    match spoken {
        Spoken::Elsewhere => hand,
        Spoken::Intent(_) | Spoken::OtherCommand(_) => hand.counted(),
        Spoken::NoCue | Spoken::OtherList | Spoken::Unfit => hand.counted(),
    }
}

/// How the hand stands once a message was taken, before it is pressed.
pub(crate) fn hand_of(setting: &Setting, hand: Hand, heard: &Heard) -> Hand
    ensures { result ≡ taking.hand_of setting.now hand heard.now }
{
    match heard {
        Heard::Show(show) => hand_of_show(spoken_to(&setting.address, show), hand),
        Heard::NoteOn { .. } | Heard::Controller { .. } | Heard::Ignored(_) => {
            hand_of_key(&setting.keys, hand, heard)
        }
    }
}
