//! Who plays at a real desk: which key is which, the bytes so far, and the hand.
ghost use Rattle.std.specs.Prelude.{◌≡◌, []};
ghost use Rattle.cue_midi.specs.Stream.{HearsAt, IsAfter, KeepsAt};
ghost use Rattle.cue_panel.specs.Playing.{IsOpened, begun_at, by_hand};
ghost use Rattle.cue_panel.specs.Taking as taking;
ghost use Rattle.cue_presses.specs.Hand as rule;

use crate::taking::{Taken, hand_of, taken_of};
use cue_midi::{Heard, Parser};
use cue_presses::{Address, Hand, Keys};
use cue_view::view::View;

/// What a panel is told before it hears anything.
#[derive(Clone, Copy)]
pub struct Setting {
    pub keys: Keys,
    /// Who it is to show control.
    pub address: Address,
    /// The port of the controller.
    pub port: u16,
}

/// What decides what a panel presses, with the view that it shows.
#[derive(Drop)]
pub struct Player {
    pub setting: Setting,
    pub parser: Parser,
    pub hand: Hand,
}

impl Player {
    /// One who has played nothing.
    pub fn new(setting: Setting) -> Player
        ensures unheard { IsAfter [] result.parser }
        ensures setting { result.setting ≡ setting }
        ensures hand { result.hand ≡ rule.idle }
    {
        Player {
            setting,
            parser: Parser::new(),
            hand: Hand::idle(),
        }
    }

    /// A device is opened at this moment: nothing of it was heard.
    pub fn open(&mut self, now: u64)
        ensures { IsOpened now self.old self.new }
    {
        self.parser = Parser::new();
        self.hand = self.hand.opened(now);
    }

    /// A round begins at this moment.
    pub fn begin(&mut self, now: u64)
        ensures { self.new ≡ begun_at now self.old }
    {
        self.hand = self.hand.begun(now);
    }

    /// A read in this round has found nothing: all that waited in the device is heard.
    pub fn empty(&mut self)
        ensures { self.new ≡ by_hand (rule.emptied self.old.hand) self.old }
    {
        self.hand = self.hand.emptied();
    }

    /// Hears a byte. Answers the message that it finishes; none if a message goes on.
    pub fn hear(&mut self, byte: u8) -> Option<Heard>
        ensures hears { HearsAt self.old.parser byte result }
        ensures keeps { KeepsAt self.old.parser byte self.new.parser }
        ensures setting { self.new.setting ≡ self.old.setting }
        ensures hand { self.new.hand ≡ self.old.hand }
    {
        self.parser.hear(byte)
    }

    /// Takes a message, while this view is shown.
    pub fn take(&mut self, heard: &Heard, view: &View) -> Taken
        ensures taken { result ≡ taking.taken_of self.old.setting self.old.hand view.now heard.now }
        ensures player { self.new ≡ by_hand (taking.hand_of self.old.setting self.old.hand heard.now) self.old }
    {
        let taken = taken_of(&self.setting, &self.hand, view, heard);
        self.hand = hand_of(&self.setting, self.hand, heard);
        taken
    }
}
