//! The alarms that nobody has seen, as a text that outlives the program: a desk that is started again knows them, and
//! so does each other one that reads there.
ghost use Rattle.std.specs.Prelude.{◌≡◌, IfOk, OnOk};
ghost use Rattle.cue_desk_run.specs.Alarming as alarming;
ghost use Rattle.cue_desk_run.specs.Shelves.{Says, Stands};
ghost use Rattle.cue_kept.specs.Alarms.{alarms_of};
ghost use Rattle.cue_kept.specs.Text.{write};

use crate::shelf::{FileShelf, Shelf};
use cue_kept::{read, write};
use cue_view::view::{Kept, Told};
use std::alloc::{AllocError, Global};
use std::fs::{File, Files};
use std::io::{self, ErrorKind};

/// Where the alarms of a desk are kept.
#[derive(Clone, Copy)]
pub enum AlarmsFile<'a> {
    /// This desk keeps them there, and hears what others keep there.
    Own(&'a str),
    /// Other desks keep them there: they are read again and again.
    OfAnother(&'a str),
}

impl<'a> AlarmsFile<'a> {
    /// Its path.
    pub(crate) fn path(self) -> &'a str
        ensures { result.now ≡ alarming.path_of self.entry }
    {
        match self {
            AlarmsFile::Own(path) | AlarmsFile::OfAnother(path) => path,
        }
    }

    /// Whether this desk writes it.
    pub(crate) fn is_own(self) -> bool
        ensures { result ≡ alarming.is_of_this_desk self.entry }
    {
        matches!(self, AlarmsFile::Own(_))
    }
}

/// The file of a desk.
#[derive(Drop)]
pub(crate) struct KeptAlarms<'a, R> {
    pub(crate) shelf: FileShelf<'a, R>,
    /// Whether this desk writes it.
    pub(crate) is_own: bool,
}

impl<'a, R: Files<File = File> + AllocGlobal> KeptAlarms<'a, R> {
    /// The file, which is not read yet.
    pub(crate) fn of(rt: &'a R, file: AlarmsFile<'a>) -> Result<KeptAlarms<'a, R>, AllocError>
        ensures path { IfOk result (λ kept. kept.shelf.path.now ≡ alarming.path_of file.entry) }
        ensures own { IfOk result (λ kept. kept.is_own ≡ alarming.is_of_this_desk file.entry) }
    {
        Ok(KeptAlarms {
            shelf: FileShelf::of(rt, file.path())?,
            is_own: file.is_own(),
        })
    }
}

/// What is kept there; none if nothing stands there. Any other text is an error.
pub(crate) fn kept_at<S: Shelf>(shelf: &mut S, alloc: Global) -> io::Result<Option<Kept>>
    ensures { IfOk result (λ kept. Says kept (S.stood shelf.new)) }
{
    let text = shelf.text()?;
    if text.is_empty() {
        return Ok(None);
    }
    match read(alloc, text.as_str())? {
        Some(kept) => Ok(Some(kept)),
        None => Err(io::Error::from(ErrorKind::InvalidData)),
    }
}

/// Keeps this there, if it does not stand there already.
pub(crate) fn keep_at<S: Shelf>(shelf: &mut S, alloc: Global, kept: &Kept) -> io::Result<()>
    ensures { OnOk result (Stands (write (alarms_of kept.now)) (S.stood shelf.new)) }
{
    let text = write(alloc, kept)?;
    match shelf.text() {
        Ok(stands) if stands == text => Ok(()),
        _ => shelf.replace(text.as_str()),
    }
}

/// Whether the same devices failed in the same attempts.
pub(crate) fn are_same(old: &[Told], new: &[Told]) -> bool {
    old.len() == new.len()
        && old.iter().zip(new.iter()).all(|(a, b)| a.seq == b.seq
            && a.failed.as_slice() == b.failed.as_slice())
}
