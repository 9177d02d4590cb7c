//! Loading a show file: what the store has not is added, or a plan puts the file in the place of what differs; and then
//! the store is compared with the file.
ghost use Rattle.std.specs.Prelude.{IfOk};
ghost use Rattle.cue_load_words.specs.Looking.{IsCompared};

use cue_desk::ending::Ending;
use cue_desk::ports::controller_port;
use cue_files_run::{Sound, read_sound};
use cue_load_words::{Loaded, Said, SaidWords, Stored};
use cue_saying::say;
use cue_show::Show;
use cue_show_file::ShowFile;
use std::fs::{File, Files};
use std::io::{self, Eprint, Write};
use std::net::Net;
use std::time::Clock;

/// A load that is done.
#[derive(Drop)]
pub struct Done {
    /// The show that the file makes.
    pub file: Show,
    /// The store as it was read last, if its folder is known.
    pub stored: Option<Stored>,
}

/// A load.
#[derive(Drop)]
pub struct Loading<'a, R> {
    pub rt: &'a R,
    pub what: Loaded<'a>,
    /// The port of the controller.
    pub port: u16,
}

// Says a line, and after it why it is so.
fn say_because<R: Eprint>(rt: &R, words: SaidWords<'_>, why: &io::Error) {
    say(rt, format_args!("{words}: {why}"));
}

impl<'a, R: Eprint + AllocGlobal> Loading<'a, R> {
    /// Says a line.
    pub fn say(&self, said: &Said) {
        let about = self.what.about(self.port);
        let words = SaidWords {
            said,
            about: &about,
        };
        say(self.rt, words);
    }

    /// Says a line, and after it why it is so.
    pub fn say_why(&self, said: &Said, why: &io::Error) {
        let about = self.what.about(self.port);
        let words = SaidWords {
            said,
            about: &about,
        };
        say_because(self.rt, words, why);
    }
}

impl<'a, R: Files<File = File> + Net + Clock + Eprint + AllocGlobal> Loading<'a, R> {
    // Loads a file, which makes this show. If the folder of the store is known, the store is what the file says then.
    fn load_file<W: Write>(
        &self,
        file: &ShowFile,
        show: &Show,
        writer: &mut W,
    ) -> Result<Option<Stored>, Ending>
        ensures { IfOk result (IsCompared self.now.what.dir show.now) }
    {
        match self.what.dir {
            Some(dir) => {
                if self.what.manner.goes_on(false) {
                    self.add_all(file, show, writer)
                } else {
                    Ok(Some(self.replace_all(show, dir, writer)?))
                }
            }
            None => self.add_all(file, show, writer),
        }
    }
}

/// Loads a show file. It may be called again: what is there already is known. A message without a reply is sent again,
/// four times at most. It is refused if something is, or if the store is not what the file says.
pub fn loaded<R: Files<File = File> + Net + Clock + Eprint + AllocGlobal, W: Write>(
    rt: &R,
    what: Loaded<'_>,
    port: Option<u16>,
    writer: &mut W,
) -> Result<Done, Ending>
    ensures { IfOk result (λ done. IsCompared what.entry.dir done.file done.stored) }
{
    let Sound { file, show, .. } = read_sound(rt, what.path)?;
    let port = controller_port(port, file.port);
    let loading = Loading { rt, what, port };
    let stored = loading.load_file(&file, &show, writer)?;
    Ok(Done { file: show, stored })
}

/// The command `load`, which ends as `loaded` does.
pub fn load<R: Files<File = File> + Net + Clock + Eprint + AllocGlobal, W: Write>(
    rt: &R,
    what: Loaded<'_>,
    port: Option<u16>,
    writer: &mut W,
) -> Result<(), Ending> {
    let done = loaded(rt, what, port, writer)?;
    drop(done);
    Ok(())
}
