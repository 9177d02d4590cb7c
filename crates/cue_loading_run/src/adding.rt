//! What a show file has is added, and the store is compared with it, if its folder is known.
ghost use Rattle.std.specs.Prelude.{◌≡◌, IfOk, None, OnOk, false, length};
ghost use Rattle.cue_load_words.specs.Looking.{IsCompared};

use crate::loading::Loading;
use cue_desk::answered::Answered;
use cue_desk::ending::Ending;
use cue_load_machine::{Entry, LoadEnd, LoadMachine, add_entries};
use cue_load_words::{
    Added, Kind, Printed, Progress, Said, Stored, added_line, answers_of, copied_of, done_by,
    ending_of, lines_of_refusals,
};
use cue_show::Show;
use cue_show_file::ShowFile;
use std::fs::{File, Files};
use std::io::{Eprint, Write};
use std::net::Net;
use std::time::Clock;

impl<'a, R: Files<File = File> + Net + Clock + Eprint + AllocGlobal> Loading<'a, R> {
    // Keeps what the store in this folder has, if adding the file changes it.
    fn keep_stored<W: Write>(
        &self,
        dir: &str,
        file: &Show,
        progress: &mut Progress<'_, W>,
    ) -> Result<(), Ending> {
        let stored = self.stored(dir, false)?;
        let copied = copied_of(
            self.rt.alloc(),
            self.what.manner,
            file,
            stored.show(),
            self.port,
        )?;
        if !copied.is_wanted {
            return Ok(());
        }
        let mut machine = LoadMachine::copying(self.rt.alloc(), copied.text)?;
        self.carry_out(&mut machine, progress)
    }

    // Adds all of these: what became of each. To what nobody replied is said, and each that was refused.
    fn add_each<E: Entry, W: Write>(
        &self,
        entries: &[E],
        progress: &mut Progress<'_, W>,
    ) -> Result<Vec<Answered>, Ending>
        ensures { IfOk result (λ answers. length answers.items ≡ length entries.now) }
    {
        let Ok(mut machine) = add_entries(self.rt.alloc(), self.port, entries) else {
            return Err(Ending::Failed);
        };
        let carried = self.carry_out(&mut machine, progress);
        if machine.end() != Some(LoadEnd::Done) {
            progress.clear();
        }
        carried?;
        let Some(answers) = answers_of(self.rt.alloc(), &machine, entries.len())? else {
            if let Some(entry) = entries.get(machine.done()) {
                self.say(&Said::Unanswered(entry.subject()));
            }
            return Err(Ending::Silent);
        };
        progress.pass(entries.len());
        self.tell_refused(entries, &answers, progress)?;
        Ok(answers)
    }

    // Says of each that was refused that it was.
    fn tell_refused<E: Entry, W: Write>(
        &self,
        entries: &[E],
        answers: &[Answered],
        progress: &mut Progress<'_, W>,
    ) -> Result<(), Ending> {
        for said in &lines_of_refusals(self.rt.alloc(), entries, answers)? {
            progress.clear();
            self.say(said);
        }
        Ok(())
    }

    // Adds what the file has, devices first, and says what became of all.
    fn add<W: Write>(
        &self,
        file: &ShowFile,
        progress: &mut Progress<'_, W>,
    ) -> Result<Added, Ending> {
        let devices = self.add_each(&file.devices, progress)?;
        let cues = self.add_each(&file.cues, progress)?;
        progress.clear();
        progress.print(
            &added_line(Kind::Devices, &devices),
            &self.what.about(self.port),
        )?;
        progress.print(&added_line(Kind::Cues, &cues), &self.what.about(self.port))?;
        Ok(Added::by(&devices, &cues))
    }

    // Compares the store with the file after what is new was added: the load is done only if nothing was refused. Without
    // the folder of the store only the order can be known.
    fn conclude<W: Write>(
        &self,
        file: &Show,
        added: Added,
        progress: &mut Progress<'_, W>,
    ) -> Result<Option<Stored>, Ending>
        ensures compared { IfOk result (IsCompared self.now.what.dir file.now) }
        ensures taken { OnOk result (added.is_refused ≡ false) }
        ensures order { self.now.what.dir ≡ None → OnOk result (added.comes_late ≡ false) }
    {
        match self.what.dir {
            Some(dir) => Ok(Some(self.compare(added.is_refused, true, dir, file)?)),
            None => {
                progress.print(&Printed::NotCompared, &self.what.about(self.port))?;
                if added.comes_late {
                    self.say(&Said::OtherOrder);
                }
                done_by(ending_of(added.is_refused, added.comes_late))?;
                Ok(None)
            }
        }
    }

    /// Adds what the file has. If the folder of the store is known, what it had is kept before, and it is compared with
    /// the file after.
    pub fn add_all<W: Write>(
        &self,
        file: &ShowFile,
        show: &Show,
        writer: &mut W,
    ) -> Result<Option<Stored>, Ending>
        ensures { IfOk result (IsCompared self.now.what.dir show.now) }
    {
        let all = file.devices.len().saturating_add(file.cues.len());
        let mut progress = Progress::new(self.rt.alloc(), self.what.tells, all, writer);
        if let Some(dir) = self.what.dir {
            self.keep_stored(dir, show, &mut progress)?;
        }
        let added = self.add(file, &mut progress)?;
        self.conclude(show, added, &mut progress)
    }
}
