//! What the page is answered: itself, the newest view, the show file, and the view that a press has made.
ghost use Rattle.std.specs.Prelude.{◌≡◌, is_some, option_map, IfOk, None, Some};
ghost use Rattle.cue_request.specs.Locks.{after_press, untouched, verdict_on};
ghost use Rattle.cue_web.specs.Marking.{waiting_after};
ghost use Rattle.cue_web.specs.Serving.{Answers, HearsOnce, HearsUnless, guard_after};
ghost use Rattle.cue_connection.specs.declared.asking.Asking.TheVariants as asking;

use cue_board::Names;
use cue_connection::{
    Answer, Asking, CurtainMove, Pressed, json_answer, refused_answer, trouble_answer,
};
use cue_core::State;
use cue_desk_run::Desk;
use cue_page::board::{CurtainMark, Manner, Standing, view_text};
use cue_page::page::{page_text, policy};
use cue_request::answering::{Kind, NOTHING, Outcome, answer};
use cue_request::identity::{PageIdentity, Purpose};
use cue_request::lock::Guard;
use cue_request::request::Refusal;
use cue_show_file::{Group, ShowFile, of_show, written};
use cue_whereabouts::Difference;
use std::alloc::{AllocError, Global};
use std::fs::{File, Files};
use std::net::Net;
use std::time::Clock;

/// What a press is answered that could not be heard.
const NO_MEMORY: &str = "the desk is out of memory: nothing was sent";

/// What is said while there is no show.
const NO_STORE: &str = "the store has not been read yet";

/// What a body is answered that is no press.
const NO_PRESS: &str = "this is no button of the page: nothing was sent";

/// What a mark is answered if the page keeps none.
const NO_MARKS: &str = "this page keeps no marks: start it with --marks";

/// What a mark is answered while the one before it is not written down yet.
const MARKING: &str = "the mark before it is not written down yet: nothing was marked";

/// What a page shows beside the views of the desk.
#[derive(Drop)]
pub struct Beside {
    /// The show file, for names and notes.
    pub file: Option<ShowFile>,
    /// The port of 127.0.0.1 at which the controller is asked.
    pub port: u16,
    /// Names this run: a page that was loaded in another one loads itself again.
    pub run: String,
}

/// A page, and what it is answered from beside the desk.
#[derive(Drop)]
pub struct Pages<'a> {
    identity: PageIdentity<'a>,
    // What has become of the words of the lock.
    guard: Guard,
    // The answer with the page and its token: it is lent to all who ask for it.
    page: String,
    beside: Beside,
    // What is told of the show file.
    told: Option<String>,
    // Whether a rehearsal plays the devices.
    is_rehearsed: bool,
    // When the curtain moved, if the page keeps marks; and the move that waits to be written down.
    marks: Option<Vec<CurtainMark>>,
    waiting: Option<CurtainMove>,
    // The newest view as text, and its number; none is drawn yet.
    drawn: Option<u64>,
    text: String,
}

// What the numbers of a view are called, and which cues stand by together.
fn names_of<'n>(file: Option<&'n ShowFile>, together: &'n [Group], port: u16) -> Names<'n> {
    Names {
        file,
        together,
        port,
    }
}

// Which devices do not stand as the stack supposes, and the show by which that is so.
fn standing_of<'n>(differences: &'n [Difference], state: Option<&'n State>) -> Standing<'n>
    ensures differences { result.differences.now ≡ differences.now }
    ensures show { option_map (λ show. show.now) result.show ≡ option_map (λ state. state.now.show) state.entry }
{
    Standing {
        differences,
        show: match state {
            Some(state) => Some(state.show()),
            None => None,
        },
    }
}

impl<'a> Pages<'a> {
    /// A page of this identity, with what stands beside the views. No wrong word of its lock has come.
    pub fn new(
        alloc: Global,
        identity: PageIdentity<'a>,
        token: &str,
        beside: Beside,
    ) -> Result<Pages<'a>, AllocError>
        ensures identity { IfOk result (λ pages. pages.identity ≡ identity.entry) }
        ensures guard { IfOk result (λ pages. pages.guard ≡ untouched) }
    {
        let (page, policy) = (page_text(alloc, token)?, policy(alloc)?);
        let page = answer(
            alloc,
            Outcome::Done,
            Kind::Page,
            policy.as_str(),
            page.as_str(),
        )?;
        Ok(Pages {
            identity,
            guard: Guard::new(),
            page,
            beside,
            told: None,
            is_rehearsed: false,
            marks: None,
            waiting: None,
            drawn: None,
            text: String::new(alloc),
        })
    }

    /// From now on the names are those of this show file.
    pub fn put_file(&mut self, file: ShowFile)
        ensures identity { self.new.identity ≡ self.old.identity }
        ensures guard { self.new.guard ≡ self.old.guard }
    {
        self.beside.file = Some(file);
        self.drawn = None;
    }

    /// From now on this is told of the show file.
    pub fn tell(&mut self, told: Option<String>)
        ensures identity { self.new.identity ≡ self.old.identity }
        ensures guard { self.new.guard ≡ self.old.guard }
    {
        if self.told != told {
            self.told = told;
            self.drawn = None;
        }
    }

    /// From now on this says whether a rehearsal plays the devices.
    pub fn show_rehearsal(&mut self, is_rehearsed: bool)
        ensures shown { self.new.is_rehearsed ≡ is_rehearsed }
        ensures identity { self.new.identity ≡ self.old.identity }
        ensures guard { self.new.guard ≡ self.old.guard }
        ensures waiting { self.new.waiting ≡ self.old.waiting }
    {
        if self.is_rehearsed != is_rehearsed {
            self.is_rehearsed = is_rehearsed;
            self.drawn = None;
        }
    }

    /// From now on these are the marks of the evening. A page that was given none keeps none.
    pub fn put_marks(&mut self, marks: Vec<CurtainMark>)
        ensures shown { self.new.marks ≡ Some marks }
        ensures identity { self.new.identity ≡ self.old.identity }
        ensures guard { self.new.guard ≡ self.old.guard }
        ensures waiting { self.new.waiting ≡ self.old.waiting }
    {
        self.marks = Some(marks);
        self.drawn = None;
    }

    /// The move of the curtain that waits to be written down, once.
    pub fn take_mark(&mut self) -> Option<CurtainMove>
        ensures taken { result ≡ self.old.waiting }
        ensures once { self.new.waiting ≡ None }
        ensures identity { self.new.identity ≡ self.old.identity }
        ensures guard { self.new.guard ≡ self.old.guard }
    {
        let waiting = self.waiting;
        self.waiting = None;
        waiting
    }

    /// Where the page is.
    pub fn identity(&self) -> &PageIdentity<'a>
        ensures { result.now ≡ self.now.identity }
    {
        &self.identity
    }

    /// The answer to who asks for the page.
    pub fn page(&self) -> &str {
        self.page.as_str()
    }

    // Draws the newest view, if it is not drawn yet.
    fn draw<R: Files<File = File> + Net + Clock + AllocGlobal>(
        &mut self,
        desk: &Desk<'_, R>,
        alloc: Global,
    ) -> Result<(), AllocError>
        ensures identity { self.new.identity ≡ self.old.identity }
        ensures guard { self.new.guard ≡ self.old.guard }
        ensures waiting { self.new.waiting ≡ self.old.waiting }
    {
        let view = desk.view();
        if self.drawn == Some(view.number) {
            return Ok(());
        }
        let names = names_of(self.beside.file.as_ref(), desk.together(), self.beside.port);
        let manner = Manner {
            run: self.beside.run.as_str(),
            is_locked: matches!(self.identity.purpose, Purpose::Plays(Some(_))),
            is_read_only: matches!(self.identity.purpose, Purpose::Shows(_)),
            told: self.told.as_deref(),
            is_rehearsed: self.is_rehearsed,
            marks: self.marks.as_deref(),
        };
        let standing = standing_of(desk.differences(), desk.state());
        self.text = view_text(alloc, view, &standing, &names, &manner)?;
        self.drawn = Some(view.number);
        Ok(())
    }

    // The newest view. Ten who ask for it cost one drawing.
    fn view_answer<R: Files<File = File> + Net + Clock + AllocGlobal>(
        &mut self,
        desk: &Desk<'_, R>,
        alloc: Global,
    ) -> Result<String, AllocError>
        ensures identity { self.new.identity ≡ self.old.identity }
        ensures guard { self.new.guard ≡ self.old.guard }
        ensures waiting { self.new.waiting ≡ self.old.waiting }
    {
        self.draw(desk, alloc)?;
        json_answer(alloc, Outcome::Done, self.text.as_str())
    }

    // The view that follows this press, which the lock lets through.
    fn heard_answer<R: Files<File = File> + Net + Clock + AllocGlobal>(
        &mut self,
        desk: &mut Desk<'_, R>,
        alloc: Global,
        pressed: &Pressed,
    ) -> Result<String, AllocError>
        ensures hears { HearsOnce pressed.now desk.old.station desk.new.station desk.old.view desk.new.view }
        ensures identity { self.new.identity ≡ self.old.identity }
        ensures guard { self.new.guard ≡ self.old.guard }
        ensures waiting { self.new.waiting ≡ self.old.waiting }
    {
        if desk.press(pressed.view, pressed.button) {
            self.view_answer(desk, alloc)
        } else {
            trouble_answer(alloc, Outcome::Unavailable, NO_MEMORY)
        }
    }

    // The view that follows this press, or why the lock refuses it.
    fn pressed_answer<R: Files<File = File> + Net + Clock + AllocGlobal>(
        &mut self,
        desk: &mut Desk<'_, R>,
        alloc: Global,
        pressed: &Pressed,
        now: u64,
    ) -> Result<String, AllocError>
        ensures hears { HearsUnless (verdict_on pressed.now.button self.old.guard now pressed.now.said) pressed.now
            desk.old.station desk.new.station desk.old.view desk.new.view }
        ensures identity { self.new.identity ≡ self.old.identity }
        ensures guard { self.new.guard ≡ after_press pressed.now.button self.old.guard now pressed.now.said }
        ensures waiting { self.new.waiting ≡ self.old.waiting }
    {
        match self.guard.judge(pressed.button, now, pressed.said) {
            Some(refusal) => refused_answer(alloc, refusal),
            None => self.heard_answer(desk, alloc, pressed),
        }
    }

    // What the body of a press is answered: one that is none is refused.
    fn press_answer<R: Files<File = File> + Net + Clock + AllocGlobal>(
        &mut self,
        desk: &mut Desk<'_, R>,
        alloc: Global,
        press: &Option<Pressed>,
        now: u64,
    ) -> Result<String, AllocError>
        ensures answers { Answers self.old.guard now (asking.Press press.now) desk.old.station desk.new.station
            desk.old.view desk.new.view }
        ensures identity { self.new.identity ≡ self.old.identity }
        ensures guard { self.new.guard ≡ guard_after self.old.guard now (asking.Press press.now) }
        ensures waiting { self.new.waiting ≡ self.old.waiting }
    {
        match press {
            Some(pressed) => self.pressed_answer(desk, alloc, pressed, now),
            None => trouble_answer(alloc, Outcome::Refused(Refusal::Unreadable), NO_PRESS),
        }
    }

    // What a mark is answered: the newest view, or why it is not written down.
    fn mark_answer<R: Files<File = File> + Net + Clock + AllocGlobal>(
        &mut self,
        desk: &Desk<'_, R>,
        alloc: Global,
        curtain: CurtainMove,
    ) -> Result<String, AllocError>
        ensures waiting { self.new.waiting
            ≡ waiting_after (is_some self.old.marks) self.old.waiting (asking.Mark curtain) }
        ensures identity { self.new.identity ≡ self.old.identity }
        ensures guard { self.new.guard ≡ self.old.guard }
    {
        if self.waiting.is_some() {
            return trouble_answer(alloc, Outcome::Unavailable, MARKING);
        }
        if self.marks.is_none() {
            return trouble_answer(alloc, Outcome::Unavailable, NO_MARKS);
        }
        self.waiting = Some(curtain);
        self.view_answer(desk, alloc)
    }

    // The show as a show file: the one that was handed in, else that of the store.
    fn file_answer<R: Files<File = File> + Net + Clock + AllocGlobal>(
        &self,
        desk: &Desk<'_, R>,
        alloc: Global,
    ) -> Result<String, AllocError> {
        let text = match (&self.beside.file, desk.state()) {
            (Some(file), _) => written(alloc, file)?,
            (None, Some(state)) => written(alloc, &of_show(alloc, state.show())?)?,
            (None, None) => return trouble_answer(alloc, Outcome::Unavailable, NO_STORE),
        };
        answer(alloc, Outcome::Done, Kind::Text, NOTHING, text.as_str())
    }

    /// What a connection is answered that asks this now.
    pub fn answer<R: Files<File = File> + Net + Clock + AllocGlobal>(
        &mut self,
        desk: &mut Desk<'_, R>,
        alloc: Global,
        asking: &Asking,
        now: u64,
    ) -> Result<Answer, AllocError>
        ensures answers { Answers self.old.guard now asking.now desk.old.station desk.new.station desk.old.view
            desk.new.view }
        ensures identity { self.new.identity ≡ self.old.identity }
        ensures guard { self.new.guard ≡ guard_after self.old.guard now asking.now }
        ensures marks { self.new.waiting ≡ waiting_after (is_some self.old.marks) self.old.waiting asking.now }
    {
        let text = match asking {
            Asking::Page => return Ok(Answer::Page),
            Asking::View => self.view_answer(desk, alloc)?,
            Asking::ShowFile => self.file_answer(desk, alloc)?,
            Asking::Press(press) => self.press_answer(desk, alloc, press, now)?,
            Asking::Mark(curtain) => self.mark_answer(desk, alloc, *curtain)?,
            Asking::Refused(refusal) => refused_answer(alloc, *refusal)?,
        };
        Ok(Answer::Text(text))
    }
}
