//! A panel at a desk: what the panel gives is pressed at once, and the panel is told what came of it.
ghost use Rattle.std.specs.Prelude.{◌≡◌, [], is_ok};
ghost use Rattle.cue_buttons_run.specs.Playing.{Gives, GivesAll};
ghost use Rattle.cue_buttons_run.specs.Pressing.{IsPressed};
ghost use Rattle.cue_desk_run.specs.Working.{OnlyLooks};
ghost use Rattle.cue_midi.specs.Stream.{IsAfter};
ghost use Rattle.cue_panel.specs.Playing.{Undoes};
ghost use Rattle.cue_presses.specs.Hand as rule;

use crate::pressing::press_at;
use cue_desk::ending::Ending;
use cue_desk_run::Desk;
use cue_panel::{Notice, Panel, Setting, Strike, notice_text};
use cue_saying::{failed, print, say_fault};
use std::alloc::AllocError;
use std::fs::{File, Files};
use std::io::{self, Eprint, Write};
use std::net::Net;
use std::time::Clock;

/// How long a round waits at most, in milliseconds.
const PAUSE: u64 = 20;

/// A desk with a panel of buttons.
#[derive(Drop)]
pub struct Console<'a, R> {
    rt: &'a R,
    pub(crate) desk: Desk<'a, R>,
    pub(crate) panel: Panel<'a>,
}

impl<'a, R: Files<File = File> + Net + Clock + Eprint + AllocGlobal> Console<'a, R> {
    /// A panel at this desk, which has heard nothing.
    pub fn new(rt: &'a R, desk: Desk<'a, R>, setting: Setting) -> Console<'a, R>
        ensures unheard { IsAfter [] result.panel.player.parser }
        ensures setting { result.panel.player.setting ≡ setting }
        ensures hand { result.panel.player.hand ≡ rule.idle }
        ensures station { result.desk.station ≡ desk.entry.station }
        ensures view { result.desk.view ≡ desk.entry.view }
    {
        let panel = Panel::new(rt.alloc(), setting, desk.together());
        Console { rt, desk, panel }
    }

    /// Milliseconds since the desk began.
    pub fn now(&self) -> Result<u64, Ending> {
        match self.desk.now() {
            Ok(now) => Ok(now),
            Err(why) => Err(failed(self.rt, &why)),
        }
    }

    /// Waits until something comes, and at most a moment.
    pub fn wait(&mut self) -> Result<(), Ending>
        ensures station { self.new.desk.station ≡ self.old.desk.station }
        ensures view { self.new.desk.view ≡ self.old.desk.view }
        ensures player { self.new.panel.player ≡ self.old.panel.player }
    {
        match self.desk.wait(PAUSE) {
            Ok(()) => Ok(()),
            Err(why) => Err(failed(self.rt, &why)),
        }
    }

    // Presses what the panel gave, once, and tells it what came of that.
    #[tactic(auto, using(crate::proofs::PressLemmas::is_pressed))]
    fn press(&mut self, strike: &Strike) -> Result<(), AllocError>
        ensures pressed { IsPressed strike.now.press self.old.panel.player.hand self.new.panel.player.hand
            self.old.desk.station self.new.desk.station self.old.desk.view self.new.desk.view }
        ensures setting { self.new.panel.player.setting ≡ self.old.panel.player.setting }
        ensures parser { self.new.panel.player.parser ≡ self.old.panel.player.parser }
    {
        let outcome = press_at(&mut self.desk, &strike.press);
        self.panel.came(strike, outcome, self.desk.view())
    }

    // Hears a byte.
    #[tactic(auto, using(crate::proofs::PlayingLemmas::gives_lost, crate::proofs::PlayingLemmas::gives_none, crate::proofs::PlayingLemmas::gives_pressed))]
    fn hear_byte(&mut self, byte: u8) -> Result<(), AllocError>
        ensures gives { Gives (is_ok result) byte self.old.panel.player self.new.panel.player self.old.desk.station
            self.new.desk.station self.old.desk.view self.new.desk.view }
    {
        match self.panel.hear(byte, self.desk.view()) {
            Ok(Some(strike)) => self.press(&strike),
            Ok(None) => Ok(()),
            Err(why) => Err(why),
        }
    }

    /// Hears bytes that the device gave, each of them once and in order. What a key means that was struck, or a command
    /// that was spoken, at one of these bytes, is pressed, and nothing else. If memory runs out it ends at that byte.
    pub fn hear(&mut self, bytes: &[u8]) -> Result<(), AllocError>
        ensures gives { GivesAll (is_ok result) bytes.now self.old.panel.player self.new.panel.player
            self.old.desk.station self.new.desk.station self.old.desk.view self.new.desk.view }
    {
        for byte in bytes {
            self.hear_byte(*byte)?;
        }
        Ok(())
    }

    /// Says this of the device at a path.
    pub fn tell_of(&mut self, path: &str, notice: &Notice<'_>) -> Result<(), AllocError>
        ensures desk { self.new.desk ≡ self.old.desk }
        ensures player { self.new.panel.player ≡ self.old.panel.player }
    {
        let text = notice_text(self.rt.alloc(), path, notice)?;
        self.panel.lines.push(text.as_str())
    }

    /// Says which key is which.
    pub fn say_keys(&mut self) -> Result<(), AllocError>
        ensures desk { self.new.desk ≡ self.old.desk }
        ensures player { self.new.panel.player ≡ self.old.panel.player }
    {
        self.panel.say_keys(self.desk.view())
    }

    /// Hears the controller and the store, and says what became of a press. It presses nothing.
    #[tactic(auto, using(cue_panel::proofs::PanelLemmas::undoes_none))]
    pub fn look(&mut self) -> Result<(), Ending>
        ensures looks { OnlyLooks self.old.desk.station self.new.desk.station }
        ensures player { Undoes self.old.panel.player self.new.panel.player self.new.desk.view }
    {
        if let Err(why) = self.desk.round() {
            return Err(failed(self.rt, &why));
        }
        match self.panel.look(self.desk.view()) {
            Ok(()) => Ok(()),
            Err(why) => Err(failed(self.rt, &io::Error::from(why))),
        }
    }

    /// Prints what there is to tell.
    pub fn tell<W: Write>(&mut self, writer: &mut W) -> Result<(), Ending>
        ensures station { self.new.desk.station ≡ self.old.desk.station }
        ensures view { self.new.desk.view ≡ self.old.desk.view }
        ensures player { self.new.panel.player ≡ self.old.panel.player }
    {
        let text = self.panel.lines.take();
        if !text.is_empty() {
            print(writer, text.as_str())?;
        }
        say_fault(self.rt, self.desk.take_fault());
        Ok(())
    }
}
