//! The alarms of a desk, in a file that outlives it.
ghost use Rattle.std.specs.Prelude.{◌≡◌, false};
ghost use Rattle.cue_desk_run.specs.Leaving.{OnlySends};
ghost use Rattle.cue_desk_run.specs.Working.{OnlyLooks};

use super::Desk;
use crate::alarms::{AlarmsFile, KeptAlarms, keep_at, kept_at};
use cue_station::heard::Heard;
use cue_view::view::Kept;
use std::fs::{File, Files};
use std::io;
use std::net::Net;
use std::time::Clock;

impl<'a, R: Files<File = File> + Net + Clock + AllocGlobal> Desk<'a, R> {
    /// Hears of the alarms that are kept in this file, and keeps its own there from now on, unless it is that of
    /// another desk. A file that has anything else is an error, and stays as it is.
    #[tactic(auto, using(crate::proofs::WorkLemmas::looks_none, crate::proofs::WorkLemmas::looks_then, crate::proofs::LeaveLemmas::sends_none, crate::proofs::LeaveLemmas::sends_then))]
    pub fn keep_alarms(&mut self, file: AlarmsFile<'a>) -> io::Result<()>
        ensures looks { OnlyLooks self.old.station self.new.station }
        ensures sends { OnlySends self.old.station self.new.station self.old.asks.outlet self.new.asks.outlet }
    {
        let mut alarms = KeptAlarms::of(self.rt, file)?;
        let kept = kept_at(&mut alarms.shelf, self.rt.alloc())?;
        self.alarms = Some(alarms);
        self.hear_kept(kept)
    }

    // Hears what is kept in a file, if there is something.
    #[tactic(auto, using(crate::proofs::WorkLemmas::looks_none, crate::proofs::WorkLemmas::looks_then, crate::proofs::LeaveLemmas::sends_none, crate::proofs::LeaveLemmas::sends_then))]
    fn hear_kept(&mut self, kept: Option<Kept>) -> io::Result<()>
        ensures looks { OnlyLooks self.old.station self.new.station }
        ensures sends { OnlySends self.old.station self.new.station self.old.asks.outlet self.new.asks.outlet }
    {
        if let Some(kept) = kept {
            let _ = self.look(Heard::Kept(kept))?;
        }
        Ok(())
    }

    // Hears of the alarms that desks keep there. What cannot be read says nothing.
    fn hear_alarms(&mut self) -> io::Result<()>
        ensures looks { OnlyLooks self.old.station self.new.station }
        ensures sends { OnlySends self.old.station self.new.station self.old.asks.outlet self.new.asks.outlet }
    {
        let kept = match &mut self.alarms {
            Some(alarms) => kept_at(&mut alarms.shelf, self.rt.alloc()).ok().flatten(),
            None => None,
        };
        self.hear_kept(kept)
    }

    // Keeps the alarms, if this desk does. If that fails, it is tried again.
    fn write_alarms(&mut self)
        ensures station { self.new.station ≡ self.old.station }
        ensures view { self.new.view ≡ self.old.view }
        ensures nothing { self.new.asks.outlet ≡ self.old.asks.outlet }
        ensures written { self.new.has_changed ≡ false }
    {
        self.has_changed = false;
        let Some(alarms) = &mut self.alarms else {
            return;
        };
        if !alarms.is_own {
            return;
        }
        let Ok(kept) = self.station.kept(self.rt.alloc()) else {
            return;
        };
        let kept = keep_at(&mut alarms.shelf, self.rt.alloc(), &kept);
        self.keepings.note(kept);
    }

    // Keeps the alarms as soon as there are others, and looks twice a second at what other desks keep.
    #[tactic(auto, using(crate::proofs::WorkLemmas::looks_none, crate::proofs::WorkLemmas::looks_then, crate::proofs::LeaveLemmas::sends_none, crate::proofs::LeaveLemmas::sends_then))]
    pub(super) fn look_at_alarms(&mut self) -> io::Result<()>
        ensures looks { OnlyLooks self.old.station self.new.station }
        ensures sends { OnlySends self.old.station self.new.station self.old.asks.outlet self.new.asks.outlet }
    {
        if self.alarms.is_none() {
            return Ok(());
        }
        let now = self.now()?;
        if self.keeps.is_due(now) {
            self.hear_alarms()?;
        } else if !self.has_changed {
            return Ok(());
        }
        self.write_alarms();
        Ok(())
    }

    /// Why the alarms could not be kept, once, if they could not be since.
    pub fn take_loss(&mut self) -> Option<io::Error>
        ensures station { self.new.station ≡ self.old.station }
        ensures view { self.new.view ≡ self.old.view }
        ensures nothing { self.new.asks.outlet ≡ self.old.asks.outlet }
    {
        self.keepings.take()
    }
}
