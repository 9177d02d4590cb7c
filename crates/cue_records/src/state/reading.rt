//! Reading the parts of a state one after the other.
ghost use Rattle.std.specs.Prelude.{◌≡◌};
ghost use Rattle.cue_show.specs.Show.{is_place_of, with_place};
ghost use Rattle.cue_exchange.specs.Steps.{are_below};
ghost use Rattle.cue_records.specs.Reading.{Gives, where_it};
ghost use Rattle.cue_records.specs.StateReading.{fold_at, device_step, cue_step, place_of, place_at, place_step};
ghost use Rattle.cue_records.specs.StateReading.{table_at, most_cues, cue_count_at, stack_at, show_at, ended_of};
ghost use Rattle.cue_records.specs.StateReading.{ended_at, stage_at, one_answer_at, answers_at, head_at, attempt_at};
ghost use Rattle.cue_records.specs.StateReading.{attempt_step, live_at, tail_of, standing_of};

use crate::fault::ReadFault;
use crate::fields::Reader;
use crate::limits::OLD_MAX_CUES;
use crate::parts_form::PartsForm;
use crate::state::numbers::{answer_of, stage_of};
use cue_core::{Ended, State};
use cue_exchange::{Answer, Answers, Attempt, DeviceAnswer, Live, Outcome, Stage};
use cue_show::limits::MAX_CUES;
use cue_show::{CueNo, Part, Show};
use std::alloc::Global;

impl<'a> Reader<'a> {
    // One device more.
    #[tactic(auto, unfolding(crate::specs::StateReading::device_step))]
    fn add_device(&mut self, show: &mut Show) -> Result<(), ReadFault>
        ensures { Gives (λ _. (show.new, self.new.rest.now)) result (device_step show.old self.old.rest.now) }
    {
        let (device, port) = self.entry()?;
        if !show.can_add_device(device, port) {
            return Err(ReadFault::Malformed);
        }
        show.add_device(device, port)?;
        Ok(())
    }

    // So many devices more.
    fn add_devices(&mut self, show: &mut Show, count: u8) -> Result<(), ReadFault>
        ensures { Gives (λ _. (show.new, self.new.rest.now)) result
            (fold_at device_step count show.old self.old.rest.now) }
    {
        for _ in 0..count {
            self.add_device(show)?;
        }
        Ok(())
    }

    // One cue more.
    #[tactic(auto, unfolding(crate::specs::StateReading::cue_step))]
    fn add_cue(&mut self, alloc: Global, form: PartsForm, show: &mut Show) -> Result<(), ReadFault>
        ensures { Gives (λ _. (show.new, self.new.rest.now)) result (cue_step form show.old self.old.rest.now) }
    {
        let (cue, parts) = self.new_cue(alloc, form)?;
        if !show.can_add_cue(cue, &parts) {
            return Err(ReadFault::Malformed);
        }
        show.add_cue(cue, parts)?;
        Ok(())
    }

    // So many cues more.
    fn add_cues(
        &mut self,
        alloc: Global,
        form: PartsForm,
        show: &mut Show,
        count: u16,
    ) -> Result<(), ReadFault>
        ensures { Gives (λ _. (show.new, self.new.rest.now)) result
            (fold_at (cue_step form) count show.old self.old.rest.now) }
    {
        for _ in 0..count {
            self.add_cue(alloc, form, show)?;
        }
        Ok(())
    }

    #[tactic(auto, unfolding(crate::specs::StateReading::place_at))]
    fn place(&mut self) -> Result<Option<CueNo>, ReadFault>
        ensures { Gives (λ x. (x, self.new.rest.now)) result (place_at self.old.rest.now) }
    {
        let text = self.text()?;
        place_of(text).ok_or(ReadFault::Malformed)
    }

    // The place, if it is one of the show.
    #[tactic(auto, unfolding(crate::specs::StateReading::place_step))]
    fn set_place(&mut self, show: &mut Show) -> Result<(), ReadFault>
        ensures { Gives (λ _. (show.new, self.new.rest.now)) result (place_step show.old self.old.rest.now) }
    {
        let place = self.place()?;
        move_to(show, place)
    }

    // A count, and so many devices more.
    #[tactic(auto, unfolding(crate::specs::StateReading::table_at))]
    fn table(&mut self, show: &mut Show) -> Result<(), ReadFault>
        ensures { Gives (λ _. (show.new, self.new.rest.now)) result (table_at show.old self.old.rest.now) }
    {
        let count = self.byte()?;
        self.add_devices(show, count)
    }

    // A count of cues, no more than an encoding with parts of this form has.
    #[tactic(auto, unfolding(crate::specs::StateReading::cue_count_at))]
    fn cue_count(&mut self, form: PartsForm) -> Result<u16, ReadFault>
        ensures { Gives (λ x. (x, self.new.rest.now)) result (cue_count_at form self.old.rest.now) }
    {
        let count = self.u16()?;
        if usize::from(count) > most_cues(form) {
            return Err(ReadFault::Malformed);
        }
        Ok(count)
    }

    // A count, and so many cues more.
    #[tactic(auto, unfolding(crate::specs::StateReading::stack_at))]
    fn stack(&mut self, alloc: Global, form: PartsForm, show: &mut Show) -> Result<(), ReadFault>
        ensures { Gives (λ _. (show.new, self.new.rest.now)) result (stack_at form show.old self.old.rest.now) }
    {
        let count = self.cue_count(form)?;
        self.add_cues(alloc, form, show, count)
    }

    // The devices, the cues and the place.
    #[tactic(auto, unfolding(crate::specs::StateReading::show_at))]
    fn show(&mut self, alloc: Global, form: PartsForm, show: &mut Show) -> Result<(), ReadFault>
        ensures { Gives (λ _. (show.new, self.new.rest.now)) result (show_at form show.old self.old.rest.now) }
    {
        self.table(show)?;
        self.stack(alloc, form, show)?;
        self.set_place(show)
    }

    // The attempt that ended last.
    #[tactic(auto, unfolding(crate::specs::StateReading::ended_at))]
    fn ended(&mut self) -> Result<Option<Ended>, ReadFault>
        ensures { Gives (λ x. (x, self.new.rest.now)) result (ended_at self.old.rest.now) }
    {
        let seq = self.u32()?;
        let outcome = self.byte()?;
        ended_of(seq, outcome).ok_or(ReadFault::Malformed)
    }

    #[tactic(auto, unfolding(crate::specs::StateReading::stage_at))]
    fn stage(&mut self) -> Result<Stage, ReadFault>
        ensures { Gives (λ x. (x, self.new.rest.now)) result (stage_at self.old.rest.now) }
    {
        let number = self.byte()?;
        stage_of(number).ok_or(ReadFault::Malformed)
    }

    #[tactic(auto, unfolding(crate::specs::StateReading::one_answer_at))]
    fn one_answer(&mut self) -> Result<Answer, ReadFault>
        ensures { Gives (λ x. (x, self.new.rest.now)) result (one_answer_at self.old.rest.now) }
    {
        let number = self.byte()?;
        answer_of(number).ok_or(ReadFault::Malformed)
    }

    // An answer for the device of each part.
    fn answers(&mut self, alloc: Global, parts: &[Part]) -> Result<Answers, ReadFault>
        ensures { Gives (λ x. (x, self.new.rest.now)) result (answers_at parts.now self.old.rest.now) }
    {
        let mut answers = Vec::new(alloc);
        for part in parts {
            let answer = self.one_answer()?;
            let device = part.device;
            let optional = part.optional;
            answers.push(DeviceAnswer {
                device,
                optional,
                answer,
            })?;
        }
        Ok(Answers::of(answers))
    }

    // What stands before the answers of an attempt.
    #[tactic(auto, unfolding(crate::specs::StateReading::head_at))]
    fn head(&mut self) -> Result<(u32, CueNo, u64, Stage), ReadFault>
        ensures { Gives (λ x. ((x.0, (x.1, (x.2, x.3))), self.new.rest.now)) result (head_at self.old.rest.now) }
    {
        let seq = self.sequence()?;
        let cue = self.cue()?;
        let deadline = self.u64()?;
        let stage = self.stage()?;
        Ok((seq, cue, deadline, stage))
    }

    // An attempt at a cue of the show.
    #[tactic(auto, unfolding(crate::specs::StateReading::attempt_at))]
    fn attempt(&mut self, alloc: Global, show: &Show) -> Result<Attempt, ReadFault>
        ensures { Gives (λ x. (x, self.new.rest.now)) result (attempt_at show.now self.old.rest.now) }
    {
        let (seq, cue, deadline, stage) = self.head()?;
        let Some(parts) = show.parts(cue) else {
            return Err(ReadFault::Malformed);
        };
        let answers = self.answers(alloc, parts.as_slice())?;
        Ok(Attempt {
            seq,
            cue,
            deadline,
            stage,
            answers,
        })
    }

    // One attempt more.
    #[tactic(auto, unfolding(crate::specs::StateReading::attempt_step))]
    fn add_attempt(&mut self, alloc: Global, show: &Show, live: &mut Live) -> Result<(), ReadFault>
        ensures { Gives (λ _. (live.new, self.new.rest.now)) result (attempt_step show.now live.old self.old.rest.now) }
    {
        let attempt = self.attempt(alloc, show)?;
        if !are_below(attempt.seq, live.as_slice()) || !live.can_put(&attempt) {
            return Err(ReadFault::Malformed);
        }
        live.put(attempt)?;
        Ok(())
    }

    // So many attempts more.
    fn add_attempts(
        &mut self,
        alloc: Global,
        show: &Show,
        live: &mut Live,
        count: u8,
    ) -> Result<(), ReadFault>
        ensures { Gives (λ _. (live.new, self.new.rest.now)) result
            (fold_at (attempt_step show.now) count live.old self.old.rest.now) }
    {
        for _ in 0..count {
            self.add_attempt(alloc, show, live)?;
        }
        Ok(())
    }

    // A count, and so many attempts more.
    #[tactic(auto, unfolding(crate::specs::StateReading::live_at))]
    fn live(&mut self, alloc: Global, show: &Show, live: &mut Live) -> Result<(), ReadFault>
        ensures { Gives (λ _. (live.new, self.new.rest.now)) result (live_at show.now live.old self.old.rest.now) }
    {
        let count = self.byte()?;
        self.add_attempts(alloc, show, live, count)
    }

    // What stands after the show, to the end.
    #[tactic(auto, unfolding(crate::specs::StateReading::tail_of))]
    fn tail(
        &mut self,
        alloc: Global,
        show: &Show,
        live: &mut Live,
    ) -> Result<(u32, Option<Ended>), ReadFault>
        ensures { Gives (λ x. (x.0, (x.1, live.new))) result (tail_of show.now live.old self.old.rest.now) }
    {
        let last_seq = self.u32()?;
        let ended = self.ended()?;
        self.live(alloc, show, live)?;
        if !self.rest.is_empty() {
            return Err(ReadFault::Malformed);
        }
        Ok((last_seq, ended))
    }
}

// The most cues of an encoding with parts of this form.
fn most_cues(form: PartsForm) -> usize
    ensures { result ≡ most_cues form }
{
    match form {
        PartsForm::Plain => OLD_MAX_CUES,
        PartsForm::Flagged => MAX_CUES,
    }
}

// The place with the text; none if it is empty.
fn place_of(text: &[u8]) -> Option<Option<CueNo>>
    ensures { result ≡ place_of text.now }
{
    if text.is_empty() {
        return Some(None);
    }
    match CueNo::read(text) {
        Some(cue) => Some(Some(cue)),
        None => None,
    }
}

// Sets the place, if it is one of the show.
fn move_to(show: &mut Show, place: Option<CueNo>) -> Result<(), ReadFault>
    ensures { Gives (λ _. show.new) result (where_it (is_place_of show.old place) (with_place show.old place)) }
{
    match place {
        Some(cue) => {
            if !show.has_cue(cue) {
                return Err(ReadFault::Malformed);
            }
            show.set_place(Some(cue));
        }
        None => show.set_place(None),
    }
    Ok(())
}

// The attempt with the number that ended so; none for two zeros.
fn ended_of(seq: u32, outcome: u8) -> Option<Option<Ended>>
    ensures { result ≡ ended_of (seq, outcome) }
{
    if outcome == 0 {
        return if seq == 0 { Some(None) } else { None };
    }
    match Outcome::of_number(outcome) {
        Some(outcome) => Some(Some(Ended { seq, outcome })),
        None => None,
    }
}

// Whether the number is above those of the attempts.
fn are_below(seq: u32, live: &[Attempt]) -> bool
    ensures { result ≡ are_below seq live.now }
{
    live.iter().all(|a| a.seq < seq)
}

/// The state that stands after the number of the version, to the end.
#[tactic(auto, unfolding(crate::specs::StateReading::standing_of))]
pub(crate) fn standing_of(alloc: Global, form: PartsForm, bytes: &[u8]) -> Result<State, ReadFault>
    ensures { Gives (λ x. x) result (standing_of form bytes.now) }
{
    let mut reader = Reader { rest: bytes };
    let mut show = Show::new(alloc);
    reader.show(alloc, form, &mut show)?;
    let mut live = Live::new(alloc);
    let (last_seq, ended) = reader.tail(alloc, &show, &mut live)?;
    State::of(show, live, last_seq, ended).ok_or(ReadFault::Malformed)
}
