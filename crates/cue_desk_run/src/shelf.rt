//! A place that has one text, which is read and replaced whole.
ghost use Rattle.std.specs.Prelude.{◌≡◌, ℕ, List, Option, None, IfOk, OnOk, string_bytes};
ghost use Rattle.cue_desk_run.specs.Shelves.{Stands};

use crate::plain::text_within;
use std::alloc::AllocError;
use std::fs::{self, File, Files, OpenOptions};
use std::io::{self, ErrorKind, Write};

/// The most bytes of a text: 64 failures of 104 devices each have less.
const MAX_TEXT: usize = 262_144;

/// Where a text stands. Others may replace it, too.
pub(crate) trait Shelf {
    /// What stood there when it was read or replaced last; None for a shelf that does not show it.
    ghost stood: { Self → Option (List ℕ) };

    /// What stands there; an empty text if nothing does.
    fn text(&mut self) -> io::Result<String>
        ensures { IfOk result (λ text. Stands (string_bytes text) (stood self.new)) };

    /// Replaces it whole.
    fn replace(&mut self, text: &str) -> io::Result<()>
        ensures { OnOk result (Stands text.now (stood self.new)) };
}

/// A file, and the one beside it that takes its place. It shows nothing: what a file has only the system knows.
#[derive(Drop)]
pub(crate) struct FileShelf<'a, R> {
    rt: &'a R,
    path: &'a str,
    beside: String,
}

impl<'a, R: Files<File = File> + AllocGlobal> FileShelf<'a, R> {
    /// The file at this path.
    pub(crate) fn of(rt: &'a R, path: &'a str) -> Result<FileShelf<'a, R>, AllocError>
        ensures { IfOk result (λ shelf. shelf.path.now ≡ path.now) }
    {
        let beside = format!(in rt.alloc(); "{path}.new")?;
        Ok(FileShelf { rt, path, beside })
    }
}

// Makes the file anew: a link or a pipe that stands there is removed, and never followed or opened.
fn make<R: Files<File = File> + AllocGlobal>(rt: &R, path: &str, text: &str) -> io::Result<()> {
    match fs::remove_file(rt, path) {
        Ok(()) => {}
        Err(why) if why.kind() == ErrorKind::NotFound => {}
        Err(why) => return Err(why),
    }
    let mut options = OpenOptions::new();
    let _ = options.write(true);
    let _ = options.create_new(true);
    let mut file = options.open(rt, path)?;
    file.write_all(text.as_bytes())
}

impl<R: Files<File = File> + AllocGlobal> Shelf for FileShelf<'_, R> {
    ghost stood = { λ _. None };

    fn text(&mut self) -> io::Result<String> {
        match text_within(self.rt, self.path, MAX_TEXT) {
            Err(why) if why.kind() == ErrorKind::NotFound => Ok(String::new(self.rt.alloc())),
            read => read,
        }
    }

    fn replace(&mut self, text: &str) -> io::Result<()> {
        make(self.rt, self.beside.as_str(), text)?;
        fs::rename(self.rt, self.beside.as_str(), self.path)
    }
}
