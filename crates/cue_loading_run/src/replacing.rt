//! A plan puts a show file in the place of what differs from it in the store.
ghost use Rattle.std.specs.Prelude.{◌≡◌, Some, IfOk, OnOk, true, false};
ghost use Rattle.cue_loading.specs.Steps.{goes_on};
ghost use Rattle.cue_load_machine.specs.Plans.{rests};
ghost use Rattle.cue_load_machine.specs.Stages.{end_of};
ghost use Rattle.cue_load_machine.specs.declared.stage.LoadEnd.TheVariants.{Done};
ghost use Rattle.cue_load_words.specs.Looking.{IsLoaded};
ghost use Rattle.cue_load_words.specs.Planned.{IsPlannedFrom};

use crate::loading::Loading;
use cue_desk::ending::Ending;
use cue_load_machine::{LoadEnd, Planned, is_exact};
use cue_load_words::{
    Kind, Progress, Said, Stored, done_by, ending_of_machine, lines_of_plan, planned_from,
    replaced_line,
};
use cue_show::{CueNo, Show};
use std::fs::{File, Files};
use std::io::{Eprint, Write};
use std::net::Net;
use std::time::Clock;

impl<'a, R: Files<File = File> + Net + Clock + Eprint + AllocGlobal> Loading<'a, R> {
    // Carries a plan out, and says what it came to, if that is not all; the place of the store was this. It is done only
    // if each of its steps was.
    fn follow<W: Write>(
        &self,
        planned: &mut Planned,
        place: Option<CueNo>,
        progress: &mut Progress<'_, W>,
    ) -> Result<(), Ending>
        ensures { OnOk result (end_of planned.new.machine.stage ≡ Some Done) }
    {
        let carried = self.carry_out(&mut planned.machine, progress);
        let end = planned.machine.end();
        if end != Some(LoadEnd::Done) {
            progress.clear();
        }
        let lines = lines_of_plan(planned, place);
        for said in [lines.why, lines.not_whole, lines.place] {
            if let Some(said) = said {
                self.say(&said);
            }
        }
        match carried {
            Ok(()) => done_by(ending_of_machine(end)),
            Err(ending) => Err(ending),
        }
    }

    // Plans how to make of what the store has what the file says; if the stack has no room, that is said.
    fn planned(&self, file: &Show, stored: &Stored) -> Result<Planned, Ending>
        requires at_rest { rests stored.now.live ≡ true }
        requires takes { goes_on self.now.what.manner false ≡ false }
        ensures { IfOk result (IsPlannedFrom self.now.port self.now.what.manner file.now stored.now.show) }
    {
        match planned_from(self.rt.alloc(), self.port, self.what.manner, file, stored)? {
            Some(planned) => Ok(planned),
            None => {
                self.say(&Said::NoRoom);
                Err(Ending::Refused)
            }
        }
    }

    // Puts the file in the place of what differs from it in the store, and says what became of all. What the file does
    // not have keeps its place there, or is removed. What the store had is kept before.
    fn replace<W: Write>(&self, file: &Show, stored: &Stored, writer: &mut W) -> Result<(), Ending>
        requires at_rest { rests stored.now.live ≡ true }
        requires takes { goes_on self.now.what.manner false ≡ false }
    {
        let mut planned = self.planned(file, stored)?;
        let all = planned.steps.len();
        let mut progress = Progress::new(self.rt.alloc(), self.what.tells, all, writer);
        let followed = self.follow(&mut planned, stored.show().place(), &mut progress);
        drop(planned);
        followed?;
        progress.clear();
        for kind in [Kind::Devices, Kind::Cues] {
            let line = replaced_line(kind, is_exact(self.what.manner), file, stored.show());
            progress.print(&line, &self.what.about(self.port))?;
        }
        Ok(())
    }

    /// Puts the file in the place of what differs, and compares the store with it. While a cue is live nothing is
    /// asked.
    pub fn replace_all<W: Write>(
        &self,
        file: &Show,
        dir: &str,
        writer: &mut W,
    ) -> Result<Stored, Ending>
        requires { goes_on self.now.what.manner false ≡ false }
        ensures { IfOk result (IsLoaded file.now) }
    {
        let stored = self.stored(dir, true)?;
        let replaced = self.replace(file, &stored, writer);
        drop(stored);
        replaced?;
        self.compare(false, false, dir, file)
    }
}
