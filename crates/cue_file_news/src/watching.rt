//! The watch of a show file: a machine over what looks and readings find.
ghost use Rattle.std.specs.Prelude.{◌≡◌, [], IfOk, None, OnErr, string_bytes, true};
ghost use Rattle.cue_file_news.specs.Keeping.{IsLater, kept_in, kept_of};
ghost use Rattle.cue_file_news.specs.Laws.{BecomesSo};
ghost use Rattle.cue_file_news.specs.Turns as turns;
ghost use Rattle.cue_file_news.specs.Watching as watching;

use crate::judging::judge;
use crate::keeping::{Kept, Later, kept_of, later_of};
use crate::looking::{Look, Looks, Reading};
use crate::telling::{News, Trouble, told_words};
use cue_desk::stamps::Stamp;
use cue_show_file::ShowFile;
use std::alloc::{AllocError, Global};

/// What was read of a show file.
#[derive(Drop)]
pub struct FileReading {
    pub begun: Reading,
    /// The whole text; none if it cannot be read, or is longer than a show file can be.
    pub text: Option<String>,
    /// What a look found after it.
    pub after: Look,
}

/// What became of a reading.
#[derive(Drop)]
pub enum Became {
    /// It was not asked for, or the file changed while it was read. It counts for nothing.
    Ignored,
    /// The file cannot be read.
    Unreadable,
    /// The text is the one that was read last.
    Same,
    /// The text is new and has mistakes, the first in this line, from 1; none if the file does not say.
    Wrong(Option<usize>),
    /// The text is new and is this file, which is to be shown. What of it counts only from the next start stands beside
    /// it.
    Taken(ShowFile, Later),
}

/// What a desk knows of its show file, from its start on.
#[derive(Drop)]
pub struct FileWatch {
    // The port of the controller that the command line or the environment says.
    said: Option<u16>,
    kept: Kept,
    looks: Looks,
    // With which stamp the file is to be read now, if it is to be read.
    asked: Option<Stamp>,
    // What was read last, and what became of it.
    text: String,
    news: News,
    // Why nothing can be read, if that is so.
    trouble: Option<Trouble>,
}

// The trouble after a look that found this; `last`: what the look before found.
fn trouble_found(last: Option<Look>, found: Look, trouble: Option<Trouble>) -> Option<Trouble>
    ensures { result ≡ turns.trouble_found last found trouble }
{
    match (last, found, trouble) {
        (Some(Look::Gone), Look::Gone, _) => Some(Trouble::Missing),
        (_, Look::There(_), Some(Trouble::Missing)) => None,
        _ => trouble,
    }
}

impl Became {
    // Whether a text was had.
    fn has_text(&self) -> bool
        ensures { result ≡ turns.has_text self.now }
    {
        match self {
            Became::Ignored | Became::Unreadable => false,
            Became::Same | Became::Wrong(_) | Became::Taken(_, _) => true,
        }
    }

    // The trouble after it.
    fn trouble(&self, before: Option<Trouble>) -> Option<Trouble>
        ensures { result ≡ turns.trouble_after self.now before }
    {
        match self {
            Became::Ignored => before,
            Became::Unreadable => Some(Trouble::Unreadable),
            Became::Same | Became::Wrong(_) | Became::Taken(_, _) => None,
        }
    }

    // The news after it.
    fn news(&self, before: News) -> News
        ensures { result ≡ turns.news_after self.now before }
    {
        match self {
            Became::Ignored | Became::Unreadable | Became::Same => before,
            Became::Wrong(line) => News::Wrong(*line),
            Became::Taken(_, later) => News::Taken(*later),
        }
    }
}

// The news once the file is shown, at this moment.
fn news_shown(news: News, at: u64) -> News
    ensures { result ≡ turns.news_shown at news }
{
    match news {
        News::Taken(later) => News::Shown(at, later),
        News::Old | News::Shown(_, _) | News::Wrong(_) => news,
    }
}

impl FileWatch {
    /// The watch of a desk that starts with this file, which had this text then. `said` is the port of the controller
    /// that the command line or the environment says.
    pub fn new(
        alloc: Global,
        said: Option<u16>,
        file: &ShowFile,
        text: String,
    ) -> Result<FileWatch, AllocError>
        ensures { IfOk result (watching.IsAfter (watching.start_of said file.now text) []) }
    {
        let kept = kept_of(alloc, said, file)?;
        Ok(FileWatch {
            said,
            kept,
            looks: Looks::new(),
            asked: None,
            text,
            news: News::Old,
            trouble: None,
        })
    }

    /// The port at which the desk asks the controller.
    pub fn port(&self) -> u16
        ensures { watching.KeepsPort self.now result }
    {
        self.kept.port
    }

    /// A look at the file found this: with which stamp it is to be read, if it is to be read. While an attempt is live
    /// it never is.
    pub fn look(&mut self, found: Look, is_live: bool) -> Option<Stamp>
        ensures keeps { watching.LookKeeps self.old found is_live self.new result }
        ensures idle { is_live ≡ true → result ≡ None }
    {
        self.trouble = trouble_found(self.looks.last(), found, self.trouble);
        self.asked = self.looks.look(found, is_live);
        self.asked
    }

    // What of this file counts only from the next start.
    fn later(&self, alloc: Global, file: &ShowFile) -> Result<Later, AllocError>
        ensures { IfOk result (IsLater (kept_in self.now.kept) (kept_of self.now.said file.now)) }
    {
        let fresh = kept_of(alloc, self.said, file)?;
        Ok(later_of(&self.kept, &fresh))
    }

    // What becomes of a text that was had.
    fn judge(&self, alloc: Global, text: &str) -> Result<Became, AllocError>
        ensures { IfOk result (BecomesSo (string_bytes self.now.text) self.now.said (kept_in self.now.kept) text.now) }
    {
        if *text == *self.text.as_str() {
            return Ok(Became::Same);
        }
        match judge(alloc, text)? {
            Ok(file) => {
                let later = self.later(alloc, &file)?;
                Ok(Became::Taken(file, later))
            }
            Err(line) => Ok(Became::Wrong(line)),
        }
    }

    // What becomes of a reading.
    fn became(&self, alloc: Global, reading: &FileReading) -> Result<Became, AllocError>
        ensures { IfOk result (watching.BecomesNow self.now reading.now) }
    {
        let stamp = reading.begun.stamp;
        if self.asked != Some(stamp) {
            return Ok(Became::Ignored);
        }
        match &reading.text {
            None => Ok(Became::Unreadable),
            Some(text) => if reading.after == Look::There(stamp) {
                self.judge(alloc, text.as_str())
            } else {
                Ok(Became::Ignored)
            },
        }
    }

    // Keeps what became of a reading.
    fn keep(&mut self, reading: FileReading, became: &Became)
        ensures { watching.KeepsReading self.old reading became.now self.new }
    {
        let FileReading { begun, text, .. } = reading;
        self.asked = None;
        self.trouble = became.trouble(self.trouble);
        self.news = became.news(self.news);
        if became.has_text() {
            self.looks.note(begun);
            if let Some(text) = text {
                self.text = text;
            }
        }
    }

    /// The file was read: what becomes of that. If memory ran out, it counts for nothing.
    pub fn take(&mut self, alloc: Global, reading: FileReading) -> Result<Became, AllocError>
        ensures keeps { IfOk result (watching.TakeKeeps self.old reading self.new) }
        ensures err { OnErr result (self.new ≡ self.old) }
    {
        let became = self.became(alloc, &reading)?;
        self.keep(reading, &became);
        Ok(became)
    }

    /// The file that was taken last is shown since this moment, in milliseconds of a clock that never goes back.
    pub fn show(&mut self, at: u64)
        ensures { watching.ShowKeeps self.old at self.new }
    {
        self.asked = None;
        self.news = news_shown(self.news, at);
    }

    /// What is told of the file at this moment; none if nothing is.
    pub fn told(&self, alloc: Global, now: u64) -> Result<Option<String>, AllocError>
        ensures { IfOk result (watching.Tells self.now now) }
    {
        told_words(alloc, self.trouble, self.news, now)
    }
}
