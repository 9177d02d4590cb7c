//! The attempts that the lines of a log name, in the order of their first lines.
ghost use Rattle.std.specs.Prelude.{◌≡◌, IfOk, None, OnOk, length, string_bytes};
ghost use Rattle.cue_report.specs.Picture as spec;
ghost use Rattle.cue_report.specs.Seen as seen;

use crate::attempt::{Attempt, Ended, Who};
use crate::sentences::why_words;
use cue_exchange::Reason;
use cue_log_lines::listed::Found;
use cue_log_lines::{Ended as LineOfEnd, Line, Ordered, Try, Why};
use cue_operator::DeviceVerb;
use cue_show::limits::MAX_DEVICES;
use cue_show::{CueNo, DeviceNo};
use std::alloc::{AllocError, Global};
use std::collections::BTreeMap;

/// The attempts that were named so far.
#[derive(Drop)]
pub struct Attempts {
    alloc: Global,
    list: Vec<Attempt>,
    /// The place of the newest attempt with each number.
    newest: BTreeMap<u32, usize>,
    /// For each device the place of the attempt that it is in, or was in last.
    holders: [Option<usize>; MAX_DEVICES],
}

// Whether an attempt had ended before a second.
fn is_over(ended: Option<Ended>, at: u64) -> bool
    ensures { result ≡ spec.is_over at ended }
{
    match ended {
        Some(ended) => ended.at < at,
        None => false,
    }
}

// Whether both are known, and are not the same cue.
fn is_other(one: Option<CueNo>, other: Option<CueNo>) -> bool
    ensures { result ≡ spec.is_other one other }
{
    match (one, other) {
        (Some(one), Some(other)) => one != other,
        (None, _) | (Some(_), None) => false,
    }
}

// Whether a line of this second names the attempt: that has its number, had not ended before, and has no other cue.
fn is_named(known: &Attempt, attempt: &Try, at: u64) -> bool
    ensures { result ≡ spec.is_named at attempt.now (seen.seen known.now) }
{
    known.number == attempt.number
        && (!is_over(known.ended, at) && !is_other(known.cue, attempt.cue))
}

impl Attempts {
    /// No line was heard.
    pub fn new(alloc: Global) -> Attempts
        ensures { spec.picture result ≡ spec.nothing }
    {
        Attempts {
            alloc,
            list: Vec::new(alloc),
            newest: BTreeMap::new(alloc),
            holders: [None; MAX_DEVICES],
        }
    }

    // The place of the attempt that a line of this second names, if it is there.
    #[tactic(auto, unfolding(crate::specs::Picture::named_place))]
    fn named_place(&self, attempt: &Try, at: u64) -> Option<usize>
        ensures { result ≡ spec.named_place at attempt.now (spec.picture self.now) }
    {
        let place = self.newest.get(&attempt.number).copied()?;
        let known = self.list.get(place)?;
        if is_named(known, attempt, at) {
            Some(place)
        } else {
            None
        }
    }

    // Adds an attempt, and answers its place.
    fn add(&mut self, attempt: &Try) -> Result<usize, AllocError>
        ensures place { IfOk result (λ place. place ≡ length self.old.list.items) }
        ensures added { OnOk result (spec.picture self.new ≡ spec.with_new attempt.now (spec.picture self.old)) }
    {
        let place = self.list.len();
        let added = Attempt::new(self.alloc, attempt);
        self.list.push(added)?;
        let _ = self.newest.insert(attempt.number, place)?;
        Ok(place)
    }

    // The place of the attempt that a line of this second names. One that is not there yet is added: also if an
    // attempt of an older store had its number and has ended.
    fn place_of(&mut self, attempt: &Try, at: u64) -> Result<usize, AllocError>
        ensures place { IfOk result (λ place. place ≡ spec.place_of at attempt.now (spec.picture self.old)) }
        ensures named { OnOk result (spec.picture self.new ≡ spec.with_named at attempt.now (spec.picture self.old)) }
    {
        match self.named_place(attempt, at) {
            Some(place) => Ok(place),
            None => self.add(attempt),
        }
    }

    // A device is in the attempt at this place.
    fn hold(&mut self, device: DeviceNo, place: usize)
        ensures { spec.picture self.new ≡ spec.held device place (spec.picture self.old) }
    {
        let device = usize::from(device.number());
        if device < self.holders.len() {
            self.holders[device] = Some(place);
        }
    }

    // The place of the attempt that a device is in.
    fn holder(&self, device: DeviceNo) -> Option<usize>
        ensures { result ≡ spec.holder device (spec.picture self.now) }
    {
        self.holders
            .get(usize::from(device.number()))
            .copied()
            .flatten()
    }

    // An order was sent to a device of the attempt at a place.
    fn order_at(
        &mut self,
        place: usize,
        at: u64,
        by: &Who,
        ordered: &Ordered,
    ) -> Result<(), AllocError>
        ensures { OnOk result (spec.picture self.new ≡
            spec.changed place (seen.after_ordered at by.now ordered.now) (spec.picture self.old)) }
    {
        match self.list.get_mut(place) {
            Some(attempt) => attempt.order(at, by, ordered),
            None => Ok(()),
        }
    }

    // An order was sent.
    fn order(&mut self, at: u64, by: &Who, ordered: &Ordered) -> Result<(), AllocError>
        ensures { OnOk result (spec.picture self.new ≡
            spec.after_order_line at by.now ordered.now (spec.picture self.old)) }
    {
        let place = self.place_of(&ordered.attempt, at)?;
        self.order_at(place, at, by, ordered)?;
        self.hold(ordered.device, place);
        Ok(())
    }

    // A device of the attempt at a place has answered, or was released.
    fn answer_at(
        &mut self,
        place: usize,
        at: u64,
        word: DeviceVerb,
        device: DeviceNo,
    ) -> Result<(), AllocError>
        ensures { OnOk result (spec.picture self.new ≡
            spec.changed place (seen.after_word at word device) (spec.picture self.old)) }
    {
        match self.list.get_mut(place) {
            Some(attempt) => attempt.answer(at, word, device),
            None => Ok(()),
        }
    }

    // A device has answered, or was released: that counts for the attempt that it is in.
    fn answer(&mut self, at: u64, word: DeviceVerb, device: DeviceNo) -> Result<(), AllocError>
        ensures { OnOk result (spec.picture self.new ≡ spec.after_answer at word device (spec.picture self.old)) }
    {
        match self.holder(device) {
            Some(place) => self.answer_at(place, at, word, device),
            None => Ok(()),
        }
    }

    // An attempt is named.
    fn name(&mut self, attempt: &Try, at: u64) -> Result<(), AllocError>
        ensures { OnOk result (spec.picture self.new ≡ spec.with_named at attempt.now (spec.picture self.old)) }
    {
        let _ = self.place_of(attempt, at)?;
        Ok(())
    }

    // The attempt at a place was given up.
    fn give_up_at(&mut self, place: usize, at: u64, by: &Who, why: String)
        ensures { spec.picture self.new ≡
            spec.changed place (seen.after_give_up at by.now (string_bytes why)) (spec.picture self.old) }
    {
        match self.list.get_mut(place) {
            Some(attempt) => attempt.give_up(at, by, why),
            None => {}
        }
    }

    // A preparation was given up.
    fn give_up(&mut self, at: u64, by: &Who, attempt: &Try, why: Why) -> Result<(), AllocError>
        ensures { OnOk result (spec.picture self.new ≡
            spec.after_give_up_line at by.now attempt.now why (spec.picture self.old)) }
    {
        let why = why_words(self.alloc, why)?;
        let place = self.place_of(attempt, at)?;
        self.give_up_at(place, at, by, why);
        Ok(())
    }

    // The attempt at a place has ended.
    fn end_at(&mut self, place: usize, at: u64, end: &LineOfEnd<'_>) -> Result<(), AllocError>
        ensures { OnOk result (spec.picture self.new ≡
            spec.changed place (seen.after_end at end.now) (spec.picture self.old)) }
    {
        match self.list.get_mut(place) {
            Some(attempt) => attempt.end(at, end),
            None => Ok(()),
        }
    }

    // An attempt has ended.
    fn end(&mut self, at: u64, end: &LineOfEnd<'_>) -> Result<(), AllocError>
        ensures { OnOk result (spec.picture self.new ≡ spec.after_end_line at end.now (spec.picture self.old)) }
    {
        let place = self.place_of(&end.attempt, at)?;
        self.end_at(place, at, end)
    }

    /// What a start found of an attempt, if that can be read: what was preparing is given up.
    pub fn take_found(&mut self, at: u64, found: Option<(Try, Found)>) -> Result<(), AllocError>
        ensures { OnOk result (spec.picture self.new ≡ spec.after_found at found (spec.picture self.old)) }
    {
        match found {
            Some((attempt, Found::Lost)) => {
                self.give_up(at, &Who::Unseen, &attempt, Why::Said(Reason::Power))
            }
            Some((attempt, Found::Preparing | Found::Given | Found::GivenUp)) => {
                self.name(&attempt, at)
            }
            None => Ok(()),
        }
    }

    // A device has answered, if a reply says so.
    fn reply(&mut self, at: u64, answer: Option<(DeviceVerb, DeviceNo)>) -> Result<(), AllocError>
        ensures { OnOk result (spec.picture self.new ≡ spec.after_reply at answer (spec.picture self.old)) }
    {
        match answer {
            Some((word, device)) => self.answer(at, word, device),
            None => Ok(()),
        }
    }

    /// Takes what a line of this second says of attempts: `by` asked for it, and a reply says that a device has
    /// answered so. What the line of a start found is not taken here, but one by one.
    pub fn take(
        &mut self,
        at: u64,
        by: &Who,
        answer: Option<(DeviceVerb, DeviceNo)>,
        line: &Line<'_>,
    ) -> Result<(), AllocError>
        ensures { OnOk result (spec.picture self.new ≡
            spec.after_line at by.now answer None line.now (spec.picture self.old)) }
    {
        match line {
            Line::Ordered(ordered) => self.order(at, by, ordered),
            Line::Alone(attempt, _) => self.name(attempt, at),
            Line::GivenUp(attempt, why) => self.give_up(at, by, attempt, *why),
            Line::Ended(end) => self.end(at, end),
            Line::Replied(_, _) => self.reply(at, answer),
            Line::Ready { .. } | Line::Stopped | Line::Own(_) => Ok(()),
            Line::Recovered(_) | Line::HeldUp(_) | Line::Kinds(_) => Ok(()),
        }
    }

    /// The attempts, in the order of their first lines.
    pub fn list(&self) -> &[Attempt]
        ensures { result.now ≡ self.now.list.items }
    {
        &self.list
    }
}
