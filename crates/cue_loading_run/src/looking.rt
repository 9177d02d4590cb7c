//! The store in a folder, read while the controller says that it is the one which it serves.
ghost use Rattle.std.specs.Prelude.{◌≡◌, IfOk, OnOk, true, false};
ghost use Rattle.cue_load_machine.specs.Plans.{rests};
ghost use Rattle.cue_load_words.specs.Looking.{IsLoaded};
ghost use Rattle.cue_loading_run.specs.Seen.{IsSeen};

use crate::loading::Loading;
use cue_desk::asking::Asked;
use cue_desk::ending::Ending;
use cue_desk::replying::Status;
use cue_files_run::open_store;
use cue_load_machine::{LoadMachine, status_in};
use cue_load_words::{LiveCues, Look, Said, Stored, compare, done_by, ending_of, look_of};
use cue_saying::say;
use cue_show::Show;
use std::fs::{File, Files};
use std::io::Eprint;
use std::net::Net;
use std::time::Clock;

/// How often the store is read again while it is not what the controller says.
const MAX_LOOKS: u32 = 4;

impl<'a, R: Files<File = File> + Net + Clock + Eprint + AllocGlobal> Loading<'a, R> {
    // Asks how the show stands.
    fn status(&self) -> Result<Status, Ending> {
        let Ok(mut machine) = LoadMachine::asking(self.rt.alloc(), self.port, &Asked::Status) else {
            return Err(Ending::Failed);
        };
        self.ask(&mut machine)?;
        let told = machine.told(self.rt.alloc())?;
        match status_in(&told) {
            Some(status) => Ok(status),
            None => {
                self.say(&Said::NoStatus);
                Err(Ending::Silent)
            }
        }
    }

    // Looks at the store in this folder, right after the controller said how the one stands that it serves.
    #[tactic(auto, using(crate::proofs::SeenLemmas::seen))]
    fn look(&self, dir: &str, is_to_rest: bool) -> Result<Look, Ending>
        ensures { IfOk result (IsSeen is_to_rest) }
    {
        let status = self.status()?;
        match open_store(self.rt, dir) {
            Ok(keeper) => Ok(look_of(self.rt.alloc(), is_to_rest, status, keeper.state())?),
            Err(why) => {
                say(self.rt, why.as_str());
                Err(Ending::Failed)
            }
        }
    }

    /// The show of the store in this folder; else it is said that the controller serves another one. If it is to be at
    /// rest and something is live, it is said that nothing can be replaced now.
    #[tactic(auto, using(crate::proofs::SeenLemmas::at_rest))]
    pub fn stored(&self, dir: &str, is_to_rest: bool) -> Result<Stored, Ending>
        ensures { IfOk result (λ stored. is_to_rest ≡ true → rests stored.live ≡ true) }
    {
        for _ in 0..MAX_LOOKS {
            match self.look(dir, is_to_rest)? {
                Look::Same(stored) => return Ok(stored),
                Look::Other => {}
                Look::Live(cues) => {
                    say(self.rt, LiveCues { cues: &cues });
                    return Err(Ending::Refused);
                }
            }
        }
        self.say(&Said::OtherStore);
        Err(Ending::Refused)
    }

    /// Compares the store with the file, and says what differs, and what to do. The load is done only if nothing does,
    /// and nothing was refused. `is_told` says that the replies have told already which entries are there and differ.
    pub fn compare(
        &self,
        is_refused: bool,
        is_told: bool,
        dir: &str,
        file: &Show,
    ) -> Result<Stored, Ending>
        ensures same { IfOk result (IsLoaded file.now) }
        ensures taken { OnOk result (is_refused ≡ false) }
    {
        let stored = self.stored(dir, false)?;
        let found = compare(self.rt.alloc(), is_told, file, stored.show())?;
        for said in &found.lines {
            self.say(said);
        }
        done_by(ending_of(is_refused, found.differs))?;
        Ok(stored)
    }
}
