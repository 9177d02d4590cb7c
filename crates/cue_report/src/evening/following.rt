//! Follows what the lines say.
ghost use Rattle.std.specs.Prelude.{◌≡◌, OnOk};
ghost use Rattle.cue_report.specs.Asking as spec;
ghost use Rattle.cue_log_lines.specs.declared.line.Line.TheVariants.{Recovered};
ghost use Rattle.cue_report.specs.Picture.{Says, SaysSo, picture};

use super::asking::answer_in;
use super::{Done, Evening};
use crate::attempt::Who;
use crate::reading::Said;
use crate::sentences::shown_bytes;
use cue_log_lines::listed::found_in;
use cue_log_lines::{Line, OrderKind, write};
use cue_operator::CueVerb;
use cue_show::CueNo;
use std::alloc::AllocError;

// The verb that an order of this kind was asked for by; the controller sends CANCEL by itself.
fn verb_of(kind: OrderKind) -> Option<CueVerb>
    ensures { result ≡ spec.verb_of kind }
{
    match kind {
        OrderKind::Standby => Some(CueVerb::Standby),
        OrderKind::Go => Some(CueVerb::Go),
        OrderKind::Cancel => None,
    }
}

// What was asked for, of which cue, that a line says the controller has begun; none if nobody asks for that.
fn asked_for(line: &Line<'_>) -> Option<(CueVerb, Option<CueNo>)>
    ensures { result ≡ spec.asked_for line.now }
{
    match line {
        Line::Ordered(ordered) => {
            let verb = verb_of(ordered.kind)?;
            Some((verb, ordered.attempt.cue))
        }
        Line::GivenUp(attempt, _) => Some((CueVerb::Cancel, attempt.cue)),
        Line::Ready { .. } | Line::Stopped | Line::Own(_) | Line::Recovered(_) => None,
        Line::HeldUp(_) | Line::Replied(_, _) | Line::Kinds(_) => None,
        Line::Alone(_, _) | Line::Ended(_) => None,
    }
}

impl Evening {
    /// Takes what a line says. `before` is the second of the line before it.
    #[tactic(auto, using(crate::proofs::HeardLemmas::says_none))]
    pub(super) fn take(
        &mut self,
        at: u64,
        before: Option<u64>,
        said: &Said<'_>,
    ) -> Result<(), AllocError>
        ensures { OnOk result (SaysSo at said.now (picture self.old.attempts) (picture self.new.attempts)) }
    {
        let silent = if self.is_running { before } else { None };
        // What it says of itself may also be said beside it.
        let is_beside = matches!(
            said,
            Said::Line(Line::Stopped | Line::Own(_)) | Said::Ended(_)
        );
        self.is_running = self.is_running || !is_beside;
        match said {
            Said::Line(Line::Ready { dir, port }) => self.begin(at, silent, dir.bytes(), *port),
            Said::Line(line) => self.take_line(at, line),
            Said::Ended(said) => {
                self.is_running = false;
                self.say(at, "the controller ended by itself: ", said)
            }
        }
    }

    // Who asked for what a line says.
    fn asker_of(&self, at: u64, line: &Line<'_>) -> Who
        ensures { result ≡ spec.asker_of self.now.asking.made.items at line.now }
    {
        match asked_for(line) {
            Some((verb, cue)) => self.asking.asker(verb, &cue, at),
            None => Who::Unseen,
        }
    }

    // Takes a line of the log: what it says of attempts, and all else.
    fn take_line(&mut self, at: u64, line: &Line<'_>) -> Result<(), AllocError>
        ensures { OnOk result (Says at line.now (picture self.old.attempts) (picture self.new.attempts)) }
    {
        let by = self.asker_of(at, line);
        self.attempts.take(at, &by, answer_in(line), line)?;
        self.follow(at, line)?;
        Ok(())
    }

    // Takes what a line says beside that: the attempts that a start has, and what is no attempt.
    #[tactic(auto, using(crate::proofs::HeardLemmas::says_none))]
    fn follow(&mut self, at: u64, line: &Line<'_>) -> Result<(), AllocError>
        ensures { OnOk result (Says at line.now (picture self.old.attempts) (picture self.new.attempts)) }
    {
        match line {
            Line::Stopped => self.stop(at),
            Line::Own(said) => self.say(at, "", said.bytes()),
            Line::Recovered(list) => self.recover(at, list.bytes()),
            Line::HeldUp(_) => self.say_line(at, line),
            Line::Replied(reply, count) => self.reply(at, reply, *count),
            Line::Kinds(count) => self.count(at, *count),
            Line::Ordered(ordered) => self.asking.order(ordered),
            Line::Ready { .. } | Line::Alone(_, _) | Line::GivenUp(_, _) | Line::Ended(_) => Ok(()),
        }
    }

    // The controller was stopped.
    fn stop(&mut self, at: u64) -> Result<(), AllocError>
        ensures { picture self.new.attempts ≡ picture self.old.attempts }
    {
        self.is_running = false;
        self.say(at, "the controller was stopped", b"")
    }

    // It says this line.
    fn say_line(&mut self, at: u64, line: &Line<'_>) -> Result<(), AllocError>
        ensures { picture self.new.attempts ≡ picture self.old.attempts }
    {
        let said = write(self.alloc, line)?;
        self.say(at, "", &said)
    }

    // The controller does this, or says something of itself.
    fn say(&mut self, at: u64, front: &str, words: &[u8]) -> Result<(), AllocError>
        ensures { picture self.new.attempts ≡ picture self.old.attempts }
    {
        let words = shown_bytes(self.alloc, words)?;
        let said = format!(in self.alloc; "{front}{}", words.as_str())?;
        self.deeds.push(Done { at, said })
    }

    // The controller has begun. `silent` is the second of the line before, if it had ended without a word.
    fn begin(
        &mut self,
        at: u64,
        silent: Option<u64>,
        dir: &[u8],
        port: u16,
    ) -> Result<(), AllocError>
        ensures { picture self.new.attempts ≡ picture self.old.attempts }
    {
        let dir = shown_bytes(self.alloc, dir)?;
        let mut said = format!(in self.alloc;
            "the controller began, {} at port {port}",
            dir.as_str()
        )?;
        if let Some(silent) = silent {
            let times = self.times();
            said.push_str("; it had stopped between ")?;
            said.push_str(times.moment(self.alloc, silent)?.as_str())?;
            said.push_str(" and ")?;
            said.push_str(times.moment(self.alloc, at)?.as_str())?;
        }
        self.deeds.push(Done { at, said })
    }

    // Takes what was live when it began.
    #[tactic(auto, using(crate::proofs::HeardLemmas::says_none, crate::proofs::HeardLemmas::says_then, crate::proofs::HeardLemmas::says_found))]
    fn take_found(&mut self, at: u64, list: &[u8]) -> Result<(), AllocError>
        ensures { OnOk result (Says at (Recovered list.now) (picture self.old.attempts) (picture self.new.attempts)) }
    {
        for said in list.split(|byte| *byte == b';') {
            self.attempts.take_found(at, found_in(said.trim_ascii()))?;
        }
        Ok(())
    }

    // It says what was live when it began.
    fn recover(&mut self, at: u64, list: &[u8]) -> Result<(), AllocError>
        ensures { OnOk result (Says at (Recovered list.now) (picture self.old.attempts) (picture self.new.attempts)) }
    {
        self.take_found(at, list)?;
        self.say(at, "recovered: ", list)?;
        Ok(())
    }
}
