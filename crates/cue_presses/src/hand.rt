//! A hand at a real desk: what is pressed of what it strikes, and what is dropped.
ghost use Rattle.std.specs.Prelude.{◌≡◌};
ghost use Rattle.cue_presses.specs.Hand as rule;

use crate::intent::Intent;
use crate::keys::{Keys, Pedals, pedals_after};
use crate::pressing::{Press, Why, meaning, newest_of};
use crate::settling::Settling;
use crate::taps::is_second_tap;
use cue_midi::Heard;
use cue_view::button::Button;
use cue_view::view::View;

/// How many presses are heard in a round: nobody has more fingers.
pub const FINGERS: u32 = 8;

/// What is known of a hand.
#[derive(Clone, Copy, Debug)]
pub struct Hand {
    /// How the keys stand, as far as they are controllers.
    pub pedals: Pedals,
    /// Since when what is read may press.
    pub settling: Settling,
    /// This moment, in milliseconds of a clock that never goes back.
    pub at: u64,
    /// How many presses were heard in this round.
    pub count: u32,
    /// When the last GO was pressed here.
    pub last_go: Option<u64>,
    /// The newest attempt that was live then.
    pub passed: Option<u32>,
}

/// What comes of an intent.
#[derive(Clone, Copy, PartialEq, Eq, Debug)]
pub enum Struck {
    Presses(Press),
    /// It presses nothing, for this reason.
    Refused(Why),
    /// It waited in the device, nobody knows how long.
    Waited,
    /// More came at once than there are fingers.
    Flooded,
    /// It is the second tap of a GO.
    Tap,
}

impl Hand {
    /// A hand that has struck nothing.
    pub fn idle() -> Hand
        ensures { result ≡ rule.idle }
    {
        Hand {
            pedals: Pedals::unheard(),
            settling: Settling::new(0),
            at: 0,
            count: 0,
            last_go: None,
            passed: None,
        }
    }

    /// Its device is opened at this moment: nothing was heard of it yet.
    pub fn opened(self, now: u64) -> Hand
        ensures { result ≡ rule.opened_at now self }
    {
        Hand {
            pedals: Pedals::unheard(),
            settling: Settling::new(now),
            ..self
        }
    }

    /// A round begins at this moment.
    pub fn begun(self, now: u64) -> Hand
        ensures { result ≡ rule.begun now self }
    {
        Hand {
            settling: self.settling.read(now),
            at: now,
            count: 0,
            ..self
        }
    }

    /// A read in this round has found nothing: all that waited in the device is heard.
    pub fn emptied(self) -> Hand
        ensures { result ≡ rule.emptied self }
    {
        Hand {
            settling: self.settling.emptied(self.at),
            ..self
        }
    }

    /// This was heard.
    pub fn after(self, keys: &Keys, heard: &Heard) -> Hand
        ensures { result ≡ rule.after keys.now heard.now self }
    {
        Hand {
            pedals: pedals_after(keys, &self.pedals, heard),
            ..self
        }
    }

    /// Whether one press more is heard in this round.
    pub fn has_room(&self) -> bool
        ensures { result ≡ rule.has_room self.now }
    {
        self.count < FINGERS
    }

    /// Something was struck. What waited in the device takes no finger.
    pub fn counted(self) -> Hand
        ensures { result ≡ rule.counted self }
    {
        if self.settling.is_over() && self.has_room() {
            Hand {
                count: self.count + 1,
                ..self
            }
        } else {
            self
        }
    }

    /// What comes of an intent, by this view.
    pub fn strikes(&self, view: &View, intent: &Intent) -> Struck
        ensures { result ≡ rule.comes_of self.now view.now intent.now }
    {
        if !self.settling.is_over() {
            return Struck::Waited;
        }
        if !self.has_room() {
            return Struck::Flooded;
        }
        if is_second_tap(intent, self.last_go, self.at) {
            return Struck::Tap;
        }
        match meaning(view, self.passed, intent) {
            Ok(press) => Struck::Presses(press),
            Err(why) => Struck::Refused(why),
        }
    }

    /// This button of the view was pressed, and its message is sent.
    pub fn sent(self, view: &View, button: Button) -> Hand
        ensures { result ≡ rule.sent view.now button self }
    {
        match button {
            Button::Go(_, seq) => Hand {
                last_go: Some(self.at),
                passed: Some(newest_of(&view.live).max(seq)),
                ..self
            },
            Button::Standby(_) | Button::Cancel(_, _) | Button::Release(_, _) => self,
            Button::MoveTo(_) | Button::Choose(_) | Button::Seen(_) => self,
        }
    }
}
