//! What a load prints: its lines, and on a terminal how far it has come, as a line that is drawn over itself.
ghost use Rattle.std.specs.Prelude.{◌≡◌, ◌++◌, IfOk, OnOk, codes, string_bytes};
ghost use Rattle.std.specs.Io.KnownBytes.{Appends};
ghost use Rattle.cue_load_words.specs.Counted.{kept_words, printed_words};
ghost use Rattle.cue_load_words.specs.Progress as progress;

use crate::printed::{KeptWords, Printed, PrintedWords};
use crate::said::About;
use cue_desk::ending::Ending;
use cue_saying::print;
use std::alloc::{AllocError, Global};
use std::io::Write;

/// After so many steps the line is drawn again.
const STEPS: usize = 16;

/// Empties the line, so that another one can stand there.
const CLEAR: &str = "\r\x1b[K";

/// How many of all steps are done.
#[derive(Clone, Copy, Debug, PartialEq, Eq)]
struct Steps {
    // How many were done before the machine that is at work.
    before: usize,
    done: usize,
    all: usize,
}

impl Steps {
    // None of so many.
    fn of(all: usize) -> Steps
        ensures { result ≡ record { before = 0; done = 0; all = all } }
    {
        Steps {
            before: 0,
            done: 0,
            all,
        }
    }

    // So many steps are done, and another machine does the others.
    fn pass(&mut self, count: usize)
        ensures { self.new ≡ progress.passed count self.old }
    {
        self.before = self.before.saturating_add(count);
    }

    // The machine at work has done so many: whether the line is drawn again.
    fn reach(&mut self, count: usize) -> bool
        ensures reached { self.new ≡ progress.reached count self.old }
        ensures drawn { result ≡ progress.is_drawn self.old self.new }
    {
        let drawn = self.done / STEPS;
        self.done = self.before.saturating_add(count);
        self.done / STEPS > drawn
    }

    // The line.
    fn line(self, alloc: Global) -> Result<String, AllocError>
        ensures { IfOk result (λ line. string_bytes line ≡ progress.line_of self) }
    {
        let (done, all) = (self.done, self.all);
        format!(in alloc; "\r{done} of {all}")
    }
}

/// The output of a load.
#[derive(Drop)]
pub struct Progress<'a, W: Write> {
    alloc: Global,
    // Whether it shows how far it has come.
    tells: bool,
    steps: Steps,
    writer: &'a mut W,
}

impl<'a, W: Write> Progress<'a, W> {
    /// None of so many steps is done; it says nothing of that if it is not to.
    pub fn new(alloc: Global, tells: bool, all: usize, writer: &'a mut W) -> Progress<'a, W> {
        Progress {
            alloc,
            tells,
            steps: Steps::of(all),
            writer,
        }
    }

    /// So many steps are done, and another machine does the others.
    pub fn pass(&mut self, count: usize)
        ensures { self.new.steps ≡ progress.passed count self.old.steps }
    {
        self.steps.pass(count);
    }

    /// The machine at work has done so many steps. The line is drawn once after sixteen.
    pub fn reach(&mut self, count: usize) -> Result<(), Ending>
        ensures { OnOk result (Appends (W.contents self.old.writer.now) (W.contents self.new.writer.now)
            (progress.drawn self.old.tells count self.old.steps)) }
    {
        if self.tells && self.steps.reach(count) {
            let line = self.steps.line(self.alloc)?;
            return print(self.writer, line.as_str());
        }
        Ok(())
    }

    /// Empties the line, so that another one can stand there. If that cannot be written, nothing else can.
    pub fn clear(&mut self) {
        if self.tells {
            let _ = print(self.writer, CLEAR);
        }
    }

    /// Prints a line.
    pub fn print(&mut self, printed: &Printed, about: &About<'_>) -> Result<(), Ending>
        ensures { OnOk result (Appends (W.contents self.old.writer.now) (W.contents self.new.writer.now)
            (printed_words printed.now about.now ++ codes "\n")) }
    {
        let words = PrintedWords { printed, about };
        let line = format!(in self.alloc; "{words}\n")?;
        print(self.writer, line.as_str())
    }

    /// Prints where the copy is, and how to take the load back.
    pub fn print_kept(&mut self, copy: &str, dir: &str) -> Result<(), Ending>
        ensures { OnOk result (Appends (W.contents self.old.writer.now) (W.contents self.new.writer.now)
            (kept_words copy.now dir.now ++ codes "\n")) }
    {
        let words = KeptWords { copy, dir };
        let line = format!(in self.alloc; "{words}\n")?;
        print(self.writer, line.as_str())
    }
}
