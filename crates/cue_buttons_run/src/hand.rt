//! One press by a word, at a desk without a browser: turn by turn, what the wish says is done.
ghost use Rattle.std.specs.Prelude.{◌≡◌, None, Some, IfOk, OnErr, OnOk};
ghost use Rattle.cue_buttons_run.specs.Wishes.{HasActed, HasPressed, HasTurned, HasWished, WishedOnce, Wishes};
ghost use Rattle.cue_desk_run.specs.Working.{OnlyLooks};
ghost use Rattle.cue_panel.specs.WishLaws.{end_by};
ghost use Rattle.cue_panel.specs.WishWords.{ending_of};
ghost use Rattle.cue_panel.specs.Wishing.{fresh};

use crate::pressing::press_at;
use cue_desk::ending::Ending;
use cue_desk_run::Desk;
use cue_panel::{Act, End, Wish};
use cue_presses::{Intent, Press};
use cue_saying::{failed, print, say};
use std::fs::{File, Files};
use std::io::{Eprint, Write};
use std::net::Net;
use std::time::Clock;

/// How long a turn waits at most, in milliseconds.
const PAUSE: u64 = 20;

/// A desk that presses once.
#[derive(Drop)]
pub struct Hand<'a, R> {
    rt: &'a R,
    desk: Desk<'a, R>,
    wish: Wish,
    // The port of the controller.
    port: u16,
}

// How the wish has ended, if this ends it.
fn end_of(act: Act) -> Option<End>
    ensures { result ≡ end_by act }
{
    match act {
        Act::End(end) => Some(end),
        Act::Wait | Act::Press(_) => None,
    }
}

impl<'a, R: Files<File = File> + Net + Clock + Eprint + AllocGlobal> Hand<'a, R> {
    /// A hand at this desk, over the controller at this port: it waits so many milliseconds until what it intends can
    /// be pressed, or not at all.
    pub fn new(
        rt: &'a R,
        desk: Desk<'a, R>,
        intent: Intent,
        wait: Option<u64>,
        port: u16,
    ) -> Hand<'a, R>
        ensures wish { result.wish ≡ fresh intent wait }
        ensures station { result.desk.station ≡ desk.entry.station }
        ensures view { result.desk.view ≡ desk.entry.view }
    {
        Hand {
            rt,
            desk,
            wish: Wish::new(intent, wait),
            port,
        }
    }

    // Hears what is there. Answers the moment.
    fn look(&mut self) -> Result<u64, Ending>
        ensures looks { OnlyLooks self.old.desk.station self.new.desk.station }
        ensures wish { self.new.wish ≡ self.old.wish }
    {
        if let Err(why) = self.desk.round() {
            return Err(failed(self.rt, &why));
        }
        match self.desk.now() {
            Ok(now) => Ok(now),
            Err(why) => Err(failed(self.rt, &why)),
        }
    }

    // Waits until something comes.
    fn rest(&mut self) -> Result<(), Ending>
        ensures station { self.new.desk.station ≡ self.old.desk.station }
        ensures wish { self.new.wish ≡ self.old.wish }
    {
        match self.desk.wait(PAUSE) {
            Ok(()) => Ok(()),
            Err(why) => Err(failed(self.rt, &why)),
        }
    }

    // Presses what the wish gave at a moment, once, and tells it what came of that. Answers how it has ended, if so.
    #[tactic(auto, using(crate::proofs::WishesLemmas::has_pressed))]
    fn press(&mut self, now: u64, press: &Press) -> Option<End>
        ensures { HasPressed now press.now result self.old.wish self.new.wish self.old.desk.station
            self.new.desk.station self.old.desk.view self.new.desk.view }
    {
        let outcome = press_at(&mut self.desk, press);
        end_of(self.wish.came(now, outcome))
    }

    // Does what the wish says at a moment, by the view that is shown. Answers how it has ended, if it has.
    #[tactic(auto, using(crate::proofs::WishesLemmas::acted_press, crate::proofs::WishesLemmas::acted_wait, crate::proofs::WishesLemmas::acted_end))]
    fn act(&mut self, now: u64) -> Option<End>
        ensures { HasActed now result self.old.wish self.new.wish self.old.desk.station self.new.desk.station
            self.old.desk.view self.new.desk.view }
    {
        match self.wish.turn(now, self.desk.view()) {
            Act::Press(press) => self.press(now, &press),
            Act::Wait => None,
            Act::End(end) => Some(end),
        }
    }

    // One turn: it looks, and does what the wish says. Answers how that has ended, if it has.
    fn turn(&mut self) -> Result<Option<End>, Ending>
        ensures turned { IfOk result (λ end. HasTurned end self.old.wish self.new.wish self.old.desk.station
            self.new.desk.station) }
        ensures looks { OnErr result (OnlyLooks self.old.desk.station self.new.desk.station) }
    {
        let now = self.look()?;
        Ok(self.act(now))
    }

    // Turn by turn, until the wish has ended.
    #[tactic(auto, using(crate::proofs::WishesLemmas::turned_none, crate::proofs::WishesLemmas::turned_more, crate::proofs::WishesLemmas::turned_rest))]
    fn run(&mut self) -> Result<End, Ending>
        ensures ends { IfOk result (λ end. Wishes self.old.wish (Some end) self.old.desk.station
            self.new.desk.station) }
        ensures cut { OnErr result (Wishes self.old.wish None self.old.desk.station self.new.desk.station) }
    {
        for _ in 0..u64::MAX {
            if let Some(end) = self.turn()? {
                return Ok(end);
            }
            self.rest()?;
        }
        Err(Ending::Silent)
    }

    // Says how the wish has ended: what was done is printed.
    fn tell<W: Write>(&self, end: End, writer: &mut W) -> Result<(), Ending>
        ensures { OnOk result (ending_of end ≡ None) }
    {
        let alloc = self.rt.alloc();
        let (view, together) = (self.desk.view(), self.desk.together());
        let text = self.wish.text(alloc, end, view, together, self.port)?;
        let text = text.as_str();
        match end.ending() {
            None => {
                let line = format!(in alloc; "{text}\n")?;
                print(writer, line.as_str())
            }
            Some(ending) => {
                say(self.rt, text);
                Err(ending)
            }
        }
    }

    /// Presses what is wished, once, and says what became of it: it tries until it is sent, each time what is meant by
    /// the view that is shown then, and presses nothing more. Nothing is sent unless the button is lit.
    #[tactic(auto, using(crate::proofs::WishesLemmas::has_wished, crate::proofs::WishesLemmas::wished_once_if))]
    pub fn press_once<W: Write>(&mut self, writer: &mut W) -> Result<(), Ending>
        ensures wished { HasWished self.old.wish self.old.desk.station self.new.desk.station }
        ensures done { OnOk result (WishedOnce self.old.wish self.old.desk.station self.new.desk.station) }
    {
        let end = self.run()?;
        self.tell(end, writer)
    }
}
