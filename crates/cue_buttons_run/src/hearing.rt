//! The device that is heard, and the rounds of a real desk.
ghost use Rattle.std.specs.Prelude.{◌≡◌, None, IfOk, OnOk, is_ok};
ghost use Rattle.cue_buttons_run.specs.Playing.{Goes, HasListened, Hears, HearsCame, ListensAt, Opens, Rounds};
ghost use Rattle.cue_buttons_run.specs.Pressing.{OnlyStruck};
ghost use Rattle.cue_buttons_run.specs.Telling.{bytes_in};
ghost use Rattle.cue_buttons_run.specs.Whole.{HearsAll};
ghost use Rattle.cue_panel.specs.Listening as listening;

use crate::console::Console;
use crate::device::PathJack;
use crate::jack::{Came, Jack};
use cue_desk::ending::Ending;
use cue_panel::{Listening, Notice, Silence, notice_of, notice_text, pieces};
use cue_saying::print;
use std::alloc::{AllocError, Global};
use std::fs::{File, Files};
use std::io::{self, Eprint, Write};
use std::net::Net;
use std::time::Clock;

/// How many bytes are read at once.
const PIECE: usize = 1_024;

/// What hears the devices at a jack.
#[derive(Drop)]
pub struct Ear<'a, J> {
    jack: J,
    path: &'a str,
    listening: Listening,
}

/// Why a device is heard no more, and what the system says of that.
#[derive(Drop)]
struct Quiet {
    silence: Silence,
    why: Option<io::Error>,
}

// What the system says, in words; empty if it says nothing.
fn words_of(alloc: Global, why: &Option<io::Error>) -> Result<String, AllocError> {
    match why {
        Some(why) => format!(in alloc; "{why}"),
        None => Ok(String::new(alloc)),
    }
}

// The first so many bytes of a room; none if it has fewer.
fn bytes_in(n: usize, room: &[u8]) -> &[u8]
    ensures { result.now ≡ bytes_in n room.now }
{
    room.get(..n).unwrap_or(&[])
}

// Lets a console hear what a reading gave into this room. Answers whether there may be more.
fn hear_came<R: Files<File = File> + Net + Clock + Eprint + AllocGlobal>(
    console: &mut Console<'_, R>,
    room: &[u8],
    came: Came,
) -> Result<Result<bool, Quiet>, AllocError>
    ensures { HearsCame (is_ok result) came room.now console.old.panel.player console.new.panel.player
        console.old.desk.station console.new.desk.station console.old.desk.view console.new.desk.view }
{
    match came {
        Came::Bytes(n) => {
            console.hear(bytes_in(n, room))?;
            Ok(Ok(true))
        }
        Came::Nothing => {
            console.panel.empty();
            Ok(Ok(false))
        }
        Came::Interrupted => Ok(Ok(false)),
        Came::Ended => Ok(Err(Quiet {
            silence: Silence::Ended,
            why: None,
        })),
        Came::Gone(why) => Ok(Err(Quiet {
            silence: Silence::Lost,
            why: Some(why),
        })),
    }
}

impl<'a, J: Jack> Ear<'a, J> {
    /// An ear at this jack. What it prints names the jack by this path.
    pub fn new(jack: J, path: &'a str) -> Ear<'a, J>
        ensures jack { result.jack ≡ jack }
        ensures listening { result.listening ≡ listening.begun }
    {
        Ear {
            jack,
            path,
            listening: Listening::new(),
        }
    }

    // Says that the device could not be opened, and why: once, until it is let go.
    fn say_closed<R: Files<File = File> + Net + Clock + Eprint + AllocGlobal>(
        &mut self,
        rt: &R,
        console: &mut Console<'_, R>,
        why: &io::Error,
    ) -> Result<(), AllocError>
        ensures desk { console.new.desk ≡ console.old.desk }
        ensures player { console.new.panel.player ≡ console.old.panel.player }
        ensures jack { self.new.jack ≡ self.old.jack }
    {
        if !self.listening.says_closed() {
            return Ok(());
        }
        let words = format!(in rt.alloc(); "{why}")?;
        console.tell_of(self.path, &Notice::Closed(words.as_str()))
    }

    // Tries to open the device. The console knows of each that is opened.
    #[tactic(auto, using(crate::proofs::PlayingLemmas::opens_it, crate::proofs::PlayingLemmas::opens_not))]
    fn open<R: Files<File = File> + Net + Clock + Eprint + AllocGlobal>(
        &mut self,
        rt: &R,
        console: &mut Console<'_, R>,
        now: u64,
    ) -> Result<(), AllocError>
        ensures desk { console.new.desk ≡ console.old.desk }
        ensures opens { Opens now (J.told self.old.jack) (J.told self.new.jack) console.old.panel.player
            console.new.panel.player }
    {
        match self.jack.open(rt, console.desk.registry()) {
            Ok(()) => {
                console.panel.open(now);
                console.tell_of(self.path, &Notice::Hearing)
            }
            Err(why) => self.say_closed(rt, console, &why),
        }
    }

    // Reads a piece of what is there, and lets the console hear it. Answers whether there may be more.
    #[tactic(auto, using(crate::proofs::PlayingLemmas::hears_came))]
    fn hear_piece<R: Files<File = File> + Net + Clock + Eprint + AllocGlobal>(
        &mut self,
        console: &mut Console<'_, R>,
    ) -> Result<Result<bool, Quiet>, AllocError>
        ensures { Hears (is_ok result) (J.told self.old.jack) (J.told self.new.jack) console.old.panel.player
            console.new.panel.player console.old.desk.station console.new.desk.station console.old.desk.view
            console.new.desk.view }
    {
        let mut piece = [0; PIECE];
        let came = self.jack.read(&mut piece);
        hear_came(console, &piece, came)
    }

    // Hears what is there, up to so much.
    #[tactic(auto, using(crate::proofs::PlayingLemmas::hears_none, crate::proofs::PlayingLemmas::hears_then, crate::proofs::PlayingLemmas::hears_fails))]
    fn hear<R: Files<File = File> + Net + Clock + Eprint + AllocGlobal>(
        &mut self,
        console: &mut Console<'_, R>,
    ) -> Result<Option<Quiet>, AllocError>
        ensures { Hears (is_ok result) (J.told self.old.jack) (J.told self.new.jack) console.old.panel.player
            console.new.panel.player console.old.desk.station console.new.desk.station console.old.desk.view
            console.new.desk.view }
    {
        let most = pieces(console.panel.is_settled());
        for _ in 0..most {
            match self.hear_piece(console)? {
                Ok(true) => {}
                Ok(false) => return Ok(None),
                Err(quiet) => return Ok(Some(quiet)),
            }
        }
        Ok(None)
    }

    // Why the device is heard no more: a reading said so, or something else stands at the jack by now.
    fn quiet<R: Files<File = File>>(
        &mut self,
        rt: &R,
        now: u64,
        heard: Option<Quiet>,
    ) -> Option<Quiet>
        ensures { self.new.jack ≡ self.old.jack }
    {
        if heard.is_none()
            && self.listening.looks(self.jack.is_open(), now)
            && !self.jack.is_here(rt)
        {
            return Some(Quiet {
                silence: Silence::Gone,
                why: None,
            });
        }
        heard
    }

    // Lets the device go, and says why. Answers whether that is the end.
    fn close<R: Files<File = File> + Net + Clock + Eprint + AllocGlobal>(
        &mut self,
        rt: &R,
        console: &mut Console<'_, R>,
        quiet: &Quiet,
    ) -> Result<bool, AllocError>
        ensures desk { console.new.desk ≡ console.old.desk }
        ensures player { console.new.panel.player ≡ console.old.panel.player }
        ensures told { J.told self.new.jack ≡ J.told self.old.jack }
        ensures ends { IfOk result (λ is_end. is_end ≡ listening.is_end quiet.now.silence) }
        ensures listening { self.new.listening ≡ listening.let_go self.old.listening }
    {
        self.jack.close();
        self.listening.let_go();
        let words = words_of(rt.alloc(), &quiet.why)?;
        console.tell_of(self.path, &notice_of(quiet.silence, words.as_str()))?;
        console.panel.lines.say_tally()?;
        Ok(quiet.silence.is_end())
    }

    // Hears what is there, and says so if the device is heard no more. Answers whether that is the end.
    fn hear_out<R: Files<File = File> + Net + Clock + Eprint + AllocGlobal>(
        &mut self,
        rt: &R,
        console: &mut Console<'_, R>,
        now: u64,
    ) -> Result<bool, AllocError>
        ensures { Hears (is_ok result) (J.told self.old.jack) (J.told self.new.jack) console.old.panel.player
            console.new.panel.player console.old.desk.station console.new.desk.station console.old.desk.view
            console.new.desk.view }
    {
        let heard = self.hear(console)?;
        match self.quiet(rt, now, heard) {
            Some(quiet) => self.close(rt, console, &quiet),
            None => Ok(false),
        }
    }
}

// Says that the device is opened: if it is held by another program, nothing follows.
fn say_opening<J: Jack, W: Write>(
    alloc: Global,
    ear: &mut Ear<'_, J>,
    writer: &mut W,
) -> Result<(), Ending>
    ensures { ear.new.jack ≡ ear.old.jack }
{
    if !ear.listening.says_opening() {
        return Ok(());
    }
    let text = notice_text(alloc, ear.path, &Notice::Opening)?;
    let text = text.as_str();
    let line = format!(in alloc; "{text}\n")?;
    print(writer, line.as_str())
}

// Opens the device if it is not open, and that is due.
#[tactic(auto, using(crate::proofs::PlayingLemmas::opens_none))]
fn open_if_due<R: Files<File = File> + Net + Clock + Eprint + AllocGlobal, J: Jack, W: Write>(
    rt: &R,
    ear: &mut Ear<'_, J>,
    console: &mut Console<'_, R>,
    now: u64,
    writer: &mut W,
) -> Result<(), Ending>
    ensures desk { console.new.desk ≡ console.old.desk }
    ensures opens { Opens now (J.told ear.old.jack) (J.told ear.new.jack) console.old.panel.player
        console.new.panel.player }
{
    if ear.listening.opens(ear.jack.is_open(), now) {
        say_opening(rt.alloc(), ear, writer)?;
        ear.open(rt, console, now)?;
    }
    Ok(())
}

// Opens the device if it is not open, and hears what is there. Answers whether it has ended.
fn listen<R: Files<File = File> + Net + Clock + Eprint + AllocGlobal, J: Jack, W: Write>(
    rt: &R,
    ear: &mut Ear<'_, J>,
    console: &mut Console<'_, R>,
    now: u64,
    writer: &mut W,
) -> Result<bool, Ending>
    ensures { ListensAt (is_ok result) now (J.told ear.old.jack) (J.told ear.new.jack) console.old.panel.player
        console.new.panel.player console.old.desk.station console.new.desk.station console.old.desk.view
        console.new.desk.view }
{
    open_if_due(rt, ear, console, now, writer)?;
    console.panel.begin(now);
    Ok(ear.hear_out(rt, console, now)?)
}

// Hears who presses. Answers whether the device has ended.
#[tactic(auto, using(crate::proofs::PlayingLemmas::has_listened, crate::proofs::PlayingLemmas::has_not_listened))]
fn hear_now<R: Files<File = File> + Net + Clock + Eprint + AllocGlobal, J: Jack, W: Write>(
    rt: &R,
    ear: &mut Ear<'_, J>,
    console: &mut Console<'_, R>,
    writer: &mut W,
) -> Result<bool, Ending>
    ensures { HasListened (is_ok result) (J.told ear.old.jack) (J.told ear.new.jack) console.old.panel.player
        console.new.panel.player console.old.desk.station console.new.desk.station console.old.desk.view
        console.new.desk.view }
{
    match console.now() {
        Ok(now) => listen(rt, ear, console, now, writer),
        Err(ending) => Err(ending),
    }
}

// One round: who presses is heard first. Answers whether the device has ended.
fn round<R: Files<File = File> + Net + Clock + Eprint + AllocGlobal, J: Jack, W: Write>(
    rt: &R,
    ear: &mut Ear<'_, J>,
    console: &mut Console<'_, R>,
    writer: &mut W,
) -> Result<bool, Ending>
    ensures { Rounds (is_ok result) (J.told ear.old.jack) (J.told ear.new.jack) console.old.panel.player
        console.new.panel.player console.old.desk.station console.new.desk.station console.old.desk.view
        console.new.desk.view }
{
    let has_ended = hear_now(rt, ear, console, writer)?;
    console.look()?;
    console.tell(writer)?;
    Ok(has_ended)
}

// One round, and then it waits, unless the device has ended: it answers whether it has.
fn go_on<R: Files<File = File> + Net + Clock + Eprint + AllocGlobal, J: Jack, W: Write>(
    rt: &R,
    ear: &mut Ear<'_, J>,
    console: &mut Console<'_, R>,
    writer: &mut W,
) -> Result<bool, Ending>
    ensures { Rounds (is_ok result) (J.told ear.old.jack) (J.told ear.new.jack) console.old.panel.player
        console.new.panel.player console.old.desk.station console.new.desk.station console.old.desk.view
        console.new.desk.view }
{
    let has_ended = round(rt, ear, console, writer)?;
    if !has_ended {
        console.wait()?;
    }
    Ok(has_ended)
}

/// Hears the devices at a jack until one ends, or a signal ends it, and goes on round by round. In each round what the
/// jack told is heard, each byte once and in order, and nothing else is; and so it is over all rounds together.
#[tactic(auto, using(crate::proofs::WholeLemmas::hears_all))]
pub fn hear_on<R: Files<File = File> + Net + Clock + Eprint + AllocGlobal, J: Jack, W: Write>(
    rt: &R,
    ear: &mut Ear<'_, J>,
    console: &mut Console<'_, R>,
    writer: &mut W,
) -> Result<(), Ending>
    ensures goes { Goes (is_ok result) (J.told ear.old.jack) (J.told ear.new.jack) console.old.panel.player
        console.new.panel.player console.old.desk.station console.new.desk.station console.old.desk.view
        console.new.desk.view }
    ensures heard { OnOk result (HearsAll (J.told ear.old.jack) (J.told ear.new.jack) console.old.panel.player
        console.new.panel.player console.old.desk.station console.new.desk.station console.old.desk.view
        console.new.desk.view) }
{
    for _ in 0..u64::MAX {
        if go_on(rt, ear, console, writer)? {
            return Ok(());
        }
    }
    Ok(())
}

/// Hears a console's device at this path until the device ends, or a signal ends it. It sends one message for each
/// press that a view has lit, and by itself asks for the status alone. It goes on round by round: what is pressed is
/// what a message means that was heard, by the hand that all before has made, and by the view that is shown then. The
/// jack at a path shows nothing of what it told: `hear_on` says of every jack that what it told is what was heard.
#[tactic(auto, using(crate::proofs::PlayingLemmas::goes_from, crate::proofs::PlayingLemmas::goes_same))]
pub fn hear_all<R: Files<File = File> + Net + Clock + Eprint + AllocGlobal, W: Write>(
    rt: &R,
    path: &str,
    console: &mut Console<'_, R>,
    writer: &mut W,
) -> Result<(), Ending>
    ensures goes { Goes (is_ok result) None None console.old.panel.player console.new.panel.player
        console.old.desk.station console.new.desk.station console.old.desk.view console.new.desk.view }
    ensures struck { OnlyStruck console.old.panel.player console.new.panel.player console.old.desk.station
        console.new.desk.station }
{
    console.say_keys()?;
    let mut ear = Ear::new(PathJack::new(path), path);
    hear_on(rt, &mut ear, console, writer)
}
