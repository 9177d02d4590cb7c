//! Hears the bytes of a log, line by line.
ghost use Rattle.std.specs.Prelude.{◌≡◌, ◌&&◌, OnOk, false, not, true};
ghost use Rattle.cue_report.specs.Evening as spec;
ghost use Rattle.cue_report.specs.Picture.{Hears, Reads, ReadsEnd, Told, picture};
ghost use Rattle.cue_report.specs.Repeating as repeats;
ghost use Rattle.cue_report.specs.Range.{has};

use super::Evening;
use crate::cutting::Cutter;
use crate::reading::{Dated, Said, read, start_within};
use std::alloc::AllocError;

// A line without the sign that some programs put before its end.
fn without_return(line: &[u8]) -> &[u8] {
    match line {
        [front @ .., b'\r'] => front,
        _ => line,
    }
}

// Whether a second is before that of the last line; or it is the same, and that line was one that stood there before.
fn goes_back(last: Option<u64>, is_repeating: bool, at: u64) -> bool
    ensures { result ≡ spec.goes_back last is_repeating at }
{
    match last {
        Some(last) => at < last || (at == last && is_repeating),
        None => false,
    }
}

impl Evening {
    /// Hears the next bytes of the log, of any number.
    pub fn hear(&mut self, bytes: &[u8]) -> Result<(), AllocError>
        ensures { OnOk result (Hears (picture self.old.attempts) (picture self.new.attempts)) }
    {
        for (place, piece) in bytes.split(|byte| *byte == b'\n').enumerate() {
            self.hear_piece(place, piece)?;
        }
        Ok(())
    }

    // Hears the next piece of a line: of the next line, if it is not the first piece.
    #[tactic(auto, using(crate::proofs::HeardLemmas::hears_none))]
    fn hear_piece(&mut self, place: usize, piece: &[u8]) -> Result<(), AllocError>
        ensures { OnOk result (Hears (picture self.old.attempts) (picture self.new.attempts)) }
    {
        if place > 0 {
            self.end_line()?;
        }
        self.cutter.push(piece)?;
        Ok(())
    }

    /// The log has ended. A last line without an end is heard, too.
    #[tactic(auto, using(crate::proofs::HeardLemmas::hears_none))]
    pub fn finish(&mut self) -> Result<(), AllocError>
        ensures { OnOk result (Hears (picture self.old.attempts) (picture self.new.attempts)) }
    {
        if self.cutter.is_empty() {
            return Ok(());
        }
        self.end_line()?;
        Ok(())
    }

    // Hears the line that is there, and begins the next one.
    fn end_line(&mut self) -> Result<(), AllocError>
        ensures { OnOk result (Hears (picture self.old.attempts) (picture self.new.attempts)) }
    {
        let mut cutter = std::mem::replace(&mut self.cutter, Cutter::new(self.alloc));
        let heard = match cutter.line() {
            Some(line) => self.hear_line(without_return(line)),
            None => self.pass_over(),
        };
        cutter.clear();
        self.cutter = cutter;
        heard
    }

    // Counts a line that is none of the log.
    fn pass_over(&mut self) -> Result<(), AllocError>
        ensures counted { self.new.counts ≡ spec.with_other self.old.counts }
        ensures attempts { picture self.new.attempts ≡ picture self.old.attempts }
    {
        self.counts.others = self.counts.others.saturating_add(1);
        Ok(())
    }

    // Whether a line was heard a moment ago and goes back in time, or follows one that does.
    fn is_repeated(&self, line: &[u8], at: u64) -> bool
        ensures { result ≡ (spec.goes_back self.now.last self.now.is_repeating at
            && repeats.knows self.now.repeats.last.items line.now) }
    {
        goes_back(self.last, self.is_repeating, at) && self.repeats.knows(line)
    }

    // Hears a line. If a start begins within it, the line before that was cut off, as on a full disk.
    #[tactic(auto, using(crate::proofs::HeardLemmas::reads_all, crate::proofs::HeardLemmas::reads_end))]
    fn hear_line(&mut self, line: &[u8]) -> Result<(), AllocError>
        ensures { OnOk result (ReadsEnd line.now (picture self.old.attempts) (picture self.new.attempts)) }
    {
        match start_within(self.alloc, line)? {
            Some(start) => {
                self.pass_over()?;
                self.hear_whole(start)
            }
            None => self.hear_whole(line),
        }
    }

    // Hears a line, if it is one of the log.
    #[tactic(auto, using(crate::proofs::HeardLemmas::reads_none, crate::proofs::HeardLemmas::reads_told))]
    fn hear_whole(&mut self, line: &[u8]) -> Result<(), AllocError>
        ensures { OnOk result (Reads line.now (picture self.old.attempts) (picture self.new.attempts)) }
    {
        match read(self.alloc, line)? {
            Some(said) => self.hear_said(line, &said),
            None => self.pass_over(),
        }
    }

    // Counts a line of another part of the evening.
    fn leave_out(&mut self)
        ensures outside { self.new.is_outside ≡ self.old.is_outside }
        ensures counted { self.new.counts ≡ spec.with_outside self.old.counts }
        ensures attempts { picture self.new.attempts ≡ picture self.old.attempts }
    {
        self.counts.outside = self.counts.outside.saturating_add(1);
    }

    // Whether a line with a date is told: it is of the part of the evening that is, and did not stand there before.
    fn is_new(&mut self, line: &[u8], at: u64) -> bool
        ensures outside { self.new.is_outside ≡ not (has self.old.range self.old.ahead at) }
        ensures left_out { has self.old.range self.old.ahead at ≡ false → result ≡ false }
        ensures attempts { picture self.new.attempts ≡ picture self.old.attempts }
    {
        self.is_outside = !self.is_told(at);
        if self.is_outside {
            self.leave_out();
            return false;
        }
        self.is_repeating = self.is_repeated(line, at);
        if self.is_repeating {
            self.counts.repeated = self.counts.repeated.saturating_add(1);
        }
        !self.is_repeating
    }

    // Hears what a line without a date says: it is told, if the line before it is.
    #[tactic(auto, using(crate::proofs::HeardLemmas::told_none, crate::proofs::HeardLemmas::told_at))]
    fn hear_undated(&mut self, said: &Said<'_>) -> Result<(), AllocError>
        ensures left_out { self.old.is_outside ≡ true → picture self.new.attempts ≡ picture self.old.attempts }
        ensures told { OnOk result (Told said.now (picture self.old.attempts) (picture self.new.attempts)) }
    {
        if self.is_outside {
            self.leave_out();
            return Ok(());
        }
        self.counts.told = self.counts.told.saturating_add(1);
        let before = self.last;
        self.take(before.unwrap_or(0), before, said)
    }

    // Hears what a line of a second says, if it is told.
    #[tactic(auto, using(crate::proofs::HeardLemmas::told_none, crate::proofs::HeardLemmas::told_at))]
    fn hear_dated(&mut self, line: &[u8], at: u64, said: &Said<'_>) -> Result<(), AllocError>
        ensures left_out { has self.old.range self.old.ahead at ≡ false →
            picture self.new.attempts ≡ picture self.old.attempts }
        ensures told { OnOk result (Told said.now (picture self.old.attempts) (picture self.new.attempts)) }
    {
        if !self.is_new(line, at) {
            return Ok(());
        }
        self.repeats.keep(line)?;
        self.counts.told = self.counts.told.saturating_add(1);
        self.first = Some(self.first.unwrap_or(at));
        let before = self.last;
        self.last = Some(at);
        self.take(at, before, said)
    }

    // Hears what a line says, if it is told.
    fn hear_said(&mut self, line: &[u8], said: &Dated<'_>) -> Result<(), AllocError>
        ensures left_out { spec.is_outside self.old.range self.old.ahead self.old.is_outside said.now.at ≡ true →
            picture self.new.attempts ≡ picture self.old.attempts }
        ensures told { OnOk result (Told said.now.said (picture self.old.attempts) (picture self.new.attempts)) }
    {
        match said.at {
            Some(at) => self.hear_dated(line, at, &said.said),
            None => self.hear_undated(&said.said),
        }
    }
}
