//! The copies of the store that a desk hears, and what they say of its devices.
ghost use Rattle.std.specs.Prelude.{◌≡◌};
ghost use Rattle.cue_desk_run.specs.Devices.{known_after};
ghost use Rattle.cue_desk_run.specs.Leaving.{OnlySends};
ghost use Rattle.cue_desk_run.specs.Working.{IsUnpressed, OnlyLooks};

use super::Desk;
use cue_station::heard::Heard;
use cue_whereabouts::Difference;
use std::fs::{File, Files};
use std::io;
use std::net::Net;
use std::time::Clock;

impl<R: Files<File = File> + Net + Clock + AllocGlobal> Desk<'_, R> {
    /// The devices that do not stand as the stack supposes at the place, by the newest copy that was heard: in the
    /// order of the table. It is made once for each copy, and not for each view.
    pub fn differences(&self) -> &[Difference]
        ensures { result.now ≡ self.now.devices.differences.items }
    {
        &self.devices.differences
    }

    // Hears what the files of the store say. A copy that was not heard, for want of memory, is read again.
    #[tactic(auto, using(crate::proofs::WorkLemmas::looks_none, crate::proofs::WorkLemmas::looks_then, crate::proofs::LeaveLemmas::sends_none, crate::proofs::LeaveLemmas::sends_then))]
    fn hear_store(&mut self, heard: Heard) -> io::Result<()>
        requires { IsUnpressed heard }
        ensures looks { OnlyLooks self.old.station self.new.station }
        ensures sends { OnlySends self.old.station self.new.station self.old.asks.outlet self.new.asks.outlet }
        ensures devices { self.new.devices.known ≡ known_after heard self.old.devices.known }
    {
        let is_copy = matches!(heard, Heard::Copied(_));
        let told = self.devices.hear(self.rt.alloc(), &heard);
        let is_heard = self.look(heard)?;
        self.forget_unless(is_heard && told.is_ok());
        self.write_devices(is_copy);
        Ok(())
    }

    // Lets the store be read again, unless it was heard.
    fn forget_unless(&mut self, is_heard: bool)
        ensures station { self.new.station ≡ self.old.station }
        ensures view { self.new.view ≡ self.old.view }
        ensures nothing { self.new.asks.outlet ≡ self.old.asks.outlet }
        ensures devices { self.new.devices ≡ self.old.devices }
    {
        if !is_heard {
            self.store.forget();
        }
    }

    // Looks at the files of the store. What came while they were read is heard before the copy: else the next question
    // for the status could take the place of one whose answer is there.
    #[tactic(auto, using(crate::proofs::WorkLemmas::of_store, crate::proofs::WorkLemmas::looks_none, crate::proofs::WorkLemmas::looks_then, crate::proofs::LeaveLemmas::sends_none, crate::proofs::LeaveLemmas::sends_then))]
    pub(super) fn look_at_store(&mut self) -> io::Result<()>
        ensures looks { OnlyLooks self.old.station self.new.station }
        ensures sends { OnlySends self.old.station self.new.station self.old.asks.outlet self.new.asks.outlet }
    {
        let begun = self.now()?;
        if !self.looks.is_due(&self.view, begun) {
            return Ok(());
        }
        let heard = self.store.look(self.rt, begun);
        if let Err(why) = self.hear_answers() {
            drop(heard);
            return Err(why);
        }
        self.hear_store(heard)
    }
}
