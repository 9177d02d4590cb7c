//! A show file that is looked at while a desk shows it: here it is looked at and read. `cue_file_news` decides.
ghost use Rattle.std.specs.Prelude.{◌≡◌, ◌≢◌, [], IfOk, None, true};
ghost use Rattle.cuedesk.specs.Beginning.{IsBegun};

use cue_desk::ending::Ending;
use cue_desk::ports::controller_port;
use cue_desk::stamps::Stamp;
use cue_desk_run::{Beat, Desk, text_within, wall_time};
use cue_file_news::{Became, FileReading, FileWatch, Look, Reading};
use cue_files_run::read_file;
use cue_show_file::{Group, ShowFile, groups_of};
use std::alloc::{AllocError, Global};
use std::fs::{self, File, Files};
use std::io::{self, Eprint};
use std::net::Net;
use std::time::Clock;

/// How many milliseconds lie between two looks.
const LOOK: u64 = 1_000;

/// The longest file that is read, in bytes: a show file of 1,024 cues with all their parts has less than half of it.
const MAX_LEN: usize = 4_000_000;

/// The show file of a desk, on a disk.
#[derive(Drop)]
pub struct WatchedFile<'a> {
    path: &'a str,
    beats: Beat,
    watch: FileWatch,
}

/// What a desk shows from now on.
#[derive(Drop)]
pub struct Renewal {
    /// The new show file, if there is one.
    pub file: Option<ShowFile>,
    /// What is told of it; if memory is short, what was told stays.
    pub told: Result<Option<String>, AllocError>,
}

/// What a desk begins with: its show file, if it has one, and the port of the controller.
#[derive(Drop)]
pub struct Begun<'a> {
    pub file: Option<ShowFile>,
    pub watch: Option<WatchedFile<'a>>,
    pub port: u16,
}

// What the system says of the file.
fn found_at<R: Files<File = File>>(rt: &R, path: &str) -> Look {
    match fs::metadata(rt, path) {
        Ok(metadata) => Look::There(Stamp::of(&metadata)),
        Err(_) => Look::Gone,
    }
}

// Reads the file, of which the system said this. What is no file, as a pipe that nobody writes, is not opened.
fn reading_at<R: Files<File = File> + Clock + AllocGlobal>(
    rt: &R,
    path: &str,
    stamp: Stamp,
) -> FileReading
    ensures { result.begun.stamp ≡ stamp }
{
    let begun = Reading {
        stamp,
        begun: wall_time(rt),
    };
    let text = text_within(rt, path, MAX_LEN).ok();
    FileReading {
        begun,
        text,
        after: found_at(rt, path),
    }
}

// What a desk begins with that has this show file with this text, and the cues that are stood by together.
fn begin_with<'a>(
    alloc: Global,
    path: &'a str,
    said: Option<u16>,
    file: ShowFile,
    text: String,
) -> Result<(Begun<'a>, Vec<Group>), AllocError>
    ensures { IfOk result (λ begun. IsBegun said begun.0.file begun.0.port begun.1.items) }
{
    let together = groups_of(alloc, &file)?;
    let watch = FileWatch::new(alloc, said, &file, text)?;
    let begun = Begun {
        port: watch.port(),
        file: Some(file),
        watch: Some(WatchedFile {
            path,
            beats: Beat::of(LOOK),
            watch,
        }),
    };
    Ok((begun, together))
}

/// Reads the show file of a desk that begins, if it has one; else each mistake is on standard error. `said` is the port
/// of the controller that the command line or the environment says. Beside it are the cues that are stood by together.
pub fn begin<'a, R: Files<File = File> + Eprint + AllocGlobal>(
    rt: &R,
    path: Option<&'a str>,
    said: Option<u16>,
) -> Result<(Begun<'a>, Vec<Group>), Ending>
    ensures { IfOk result (λ begun. IsBegun said begun.0.file begun.0.port begun.1.items) }
{
    let Some(path) = path else {
        let begun = Begun {
            file: None,
            watch: None,
            port: controller_port(said, None),
        };
        return Ok((begun, Vec::new(rt.alloc())));
    };
    // The text first: what is written between the two readings is found to be new then.
    let text = text_within(rt, path, MAX_LEN).unwrap_or(String::new(rt.alloc()));
    let file = read_file(rt, path)?;
    Ok(begin_with(rt.alloc(), path, said, file, text)?)
}

impl WatchedFile<'_> {
    // Looks at the file, and reads it if that is to be done: the new one, if it is to be shown. If memory runs out, it
    // is read again after the next look.
    fn look<R: Files<File = File> + Clock + AllocGlobal>(
        &mut self,
        rt: &R,
        is_live: bool,
    ) -> Option<ShowFile>
        ensures { is_live ≡ true → result ≡ None }
    {
        let stamp = self.watch.look(found_at(rt, self.path), is_live)?;
        let reading = reading_at(rt, self.path, stamp);
        match self.watch.take(rt.alloc(), reading) {
            Ok(Became::Taken(file, _)) => Some(file),
            _ => None,
        }
    }

    /// What this desk shows from now on: it looks at its file, if a look is due. While an attempt is live no other file
    /// is shown.
    pub fn renew<R: Files<File = File> + Net + Clock + AllocGlobal>(
        &mut self,
        rt: &R,
        desk: &Desk<'_, R>,
    ) -> io::Result<Renewal>
        ensures { desk.now.view.live.items ≢ [] → IfOk result (λ renewal. renewal.file ≡ None) }
    {
        let is_due = self.beats.is_due(desk.now()?);
        let is_live = !desk.view().live.is_empty();
        let file = if is_due { self.look(rt, is_live) } else { None };
        // To read a large file takes a while.
        let now = desk.now()?;
        if file.is_some() {
            self.watch.show(now);
        }
        let told = self.watch.told(rt.alloc(), now);
        Ok(Renewal { file, told })
    }
}
