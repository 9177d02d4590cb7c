//! The marks of a page: when the curtain went up and down, in a file that the report reads, too. Here it is looked at,
//! read and written. `cue_curtain` decides.
ghost use Rattle.std.specs.Prelude.{◌≡◌, ◌≤◌, IfOk, IfSome, None, OnErr, OnOk, length};
ghost use Rattle.cue_desk_run.specs.Looks as looks;
ghost use Rattle.cuedesk.specs.Marking as marking;

use super::reporting::write_mark;
use cue_curtain::{MarksWatch, curtain_of, marks_in, shown};
use cue_desk::stamps::Stamp;
use cue_desk_run::{Beat, open_plain, wall_time};
use cue_page::board::CurtainMark;
use cue_web::CurtainMove;
use std::fs::{self, File, Files};
use std::io::{self, ErrorKind, Read};
use std::time::Clock;

/// How many milliseconds lie between two looks.
const LOOK: u64 = 1_000;

/// The longest file of marks that is read, in bytes: thirty thousand marks.
const MAX_LEN: u64 = 1_000_000;

/// The file of the marks of a page.
#[derive(Drop)]
pub struct MarksFile<'a> {
    path: &'a str,
    beats: Beat,
    watch: MarksWatch,
}

// The bytes of a file of marks. Who reads it waits for no pipe, and not for what has no end.
fn bytes_at<R: Files<File = File> + AllocGlobal>(rt: &R, path: &str) -> io::Result<Vec<u8>>
    ensures { IfOk result (λ bytes. length bytes.items ≤ MAX_LEN) }
{
    let file = open_plain(rt, path)?;
    let mut bytes = Vec::new(rt.alloc());
    file.take(MAX_LEN + 1).read_to_end(&mut bytes)?;
    if bytes.len() as u64 > MAX_LEN {
        return Err(io::Error::from(ErrorKind::FileTooLarge));
    }
    Ok(bytes)
}

// What the system says of the file with this path; none if it is not there.
fn stamp_at<R: Files<File = File>>(rt: &R, path: &str) -> io::Result<Option<Stamp>> {
    match fs::metadata(rt, path) {
        Ok(metadata) => Ok(Some(Stamp::of(&metadata))),
        Err(why) if why.kind() == ErrorKind::NotFound => Ok(None),
        Err(why) => Err(why),
    }
}

// The marks of this evening in the file with this path, of which the system said this: none if it is not there yet.
fn marks_at<R: Files<File = File> + Clock + AllocGlobal>(
    rt: &R,
    path: &str,
    stamp: Option<Stamp>,
) -> io::Result<Vec<CurtainMark>>
    ensures { IfOk result (λ shown. marking.AreShown shown.items) }
{
    let bytes = match stamp {
        Some(_) => bytes_at(rt, path)?,
        None => Vec::new(rt.alloc()),
    };
    let marks = marks_in(rt.alloc(), &bytes)?;
    Ok(shown(rt.alloc(), &marks.list, wall_time(rt) / 1000)?)
}

impl<'a> MarksFile<'a> {
    /// The file at this path, which nobody has read yet.
    pub fn new(path: &'a str) -> MarksFile<'a>
        ensures path { result.path.now ≡ path.now }
        ensures watch { result.watch ≡ None }
    {
        MarksFile {
            path,
            beats: Beat::of(LOOK),
            watch: MarksWatch::new(),
        }
    }

    // Reads its marks of this evening, if the system says this of it.
    fn read_as<R: Files<File = File> + Clock + AllocGlobal>(
        &mut self,
        rt: &R,
        stamp: Option<Stamp>,
    ) -> io::Result<Vec<CurtainMark>>
        ensures shown { IfOk result (λ shown. marking.AreShown shown.items) }
        ensures read { OnOk result (self.new.watch ≡ stamp) }
        ensures unread { OnErr result (self.new.watch ≡ self.old.watch) }
    {
        let marks = marks_at(rt, self.path, stamp)?;
        self.watch.take(stamp);
        Ok(marks)
    }

    /// Reads its marks of this evening: none if it is not there yet.
    pub fn read<R: Files<File = File> + Clock + AllocGlobal>(
        &mut self,
        rt: &R,
    ) -> io::Result<Vec<CurtainMark>>
        ensures { IfOk result (λ shown. marking.AreShown shown.items) }
    {
        let stamp = stamp_at(rt, self.path)?;
        self.read_as(rt, stamp)
    }

    /// Reads its marks again, if a look is due at this moment and finds it changed. If it cannot be read, those of
    /// before stay.
    pub fn fresh<R: Files<File = File> + Clock + AllocGlobal>(
        &mut self,
        rt: &R,
        now: u64,
    ) -> Option<Vec<CurtainMark>>
        ensures { IfSome result (λ shown. marking.AreShown shown.items) }
    {
        if !self.beats.is_due(now) {
            return None;
        }
        let stamp = stamp_at(rt, self.path).ok()?;
        if self.watch.is_changed(stamp) {
            self.read_as(rt, stamp).ok()
        } else {
            None
        }
    }

    /// Puts a mark after the others, with the time of this machine. It is read at the next look.
    pub fn mark<R: Files<File = File> + Clock + AllocGlobal>(
        &mut self,
        rt: &R,
        curtain: CurtainMove,
    ) -> io::Result<()>
        ensures read { self.new.watch ≡ self.old.watch }
        ensures again { OnOk result (self.new.beats ≡ looks.beat 1000) }
    {
        let line = write_mark(rt, self.path, curtain_of(curtain))?;
        drop(line);
        self.beats = Beat::of(LOOK);
        Ok(())
    }
}
