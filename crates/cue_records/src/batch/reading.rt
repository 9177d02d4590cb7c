//! Reading events one after the other.
ghost use Rattle.std.specs.Prelude.{◌≡◌};
ghost use Rattle.cue_records.specs.Reading.{Gives, list_at};
ghost use Rattle.cue_records.specs.BatchReading.{kind_at, start_at, answer_at, cancel_at, mixed_cue_at, body_at};
ghost use Rattle.cue_records.specs.BatchReading.{event_at, event_count_at, batch_of};

use crate::batch::Batch;
use crate::batch::kind::{Kind, kind_of};
use crate::fault::ReadFault;
use crate::fields::Reader;
use crate::limits::MAX_EVENTS;
use crate::parts_form::{PartsForm, are_required};
use cue_core::Event;
use cue_exchange::Reason;
use cue_show::{CueNo, DeviceNo, Parts};
use std::alloc::Global;

impl<'a> Reader<'a> {
    #[tactic(auto, unfolding(crate::specs::BatchReading::kind_at))]
    fn kind(&mut self) -> Result<Kind, ReadFault>
        ensures { Gives (λ x. (x, self.new.rest.now)) result (kind_at self.old.rest.now) }
    {
        let number = self.byte()?;
        kind_of(number).ok_or(ReadFault::Malformed)
    }

    // A number, a cue and a time.
    #[tactic(auto, unfolding(crate::specs::BatchReading::start_at))]
    fn start(&mut self) -> Result<(u32, CueNo, u64), ReadFault>
        ensures { Gives (λ x. ((x.0, (x.1, x.2)), self.new.rest.now)) result (start_at self.old.rest.now) }
    {
        let seq = self.sequence()?;
        let cue = self.cue()?;
        let deadline = self.u64()?;
        Ok((seq, cue, deadline))
    }

    // A number and a device.
    #[tactic(auto, unfolding(crate::specs::BatchReading::answer_at))]
    fn answer(&mut self) -> Result<(u32, DeviceNo), ReadFault>
        ensures { Gives (λ x. (x, self.new.rest.now)) result (answer_at self.old.rest.now) }
    {
        let seq = self.sequence()?;
        let device = self.device()?;
        Ok((seq, device))
    }

    // A number and a reason.
    #[tactic(auto, unfolding(crate::specs::BatchReading::cancel_at))]
    fn cancel(&mut self) -> Result<(u32, Reason), ReadFault>
        ensures { Gives (λ x. (x, self.new.rest.now)) result (cancel_at self.old.rest.now) }
    {
        let seq = self.sequence()?;
        let reason = self.reason()?;
        Ok((seq, reason))
    }

    // A cue and its parts, at least one of them optional.
    #[tactic(auto, unfolding(crate::specs::BatchReading::mixed_cue_at))]
    fn mixed_cue(&mut self, alloc: Global) -> Result<(CueNo, Parts), ReadFault>
        ensures { Gives (λ x. (x, self.new.rest.now)) result (mixed_cue_at self.old.rest.now) }
    {
        let (cue, parts) = self.new_cue(alloc, PartsForm::Flagged)?;
        if are_required(&parts) {
            return Err(ReadFault::Malformed);
        }
        Ok((cue, parts))
    }

    // What stands after a kind.
    #[tactic(auto, unfolding(crate::specs::BatchReading::body_at))]
    fn body(&mut self, alloc: Global, kind: Kind) -> Result<Event, ReadFault>
        ensures { Gives (λ x. (x, self.new.rest.now)) result (body_at kind self.old.rest.now) }
    {
        match kind {
            Kind::Device => self
                .entry()
                .map(|(device, port)| Event::Device(device, port)),
            Kind::NoDevice => Ok(Event::NoDevice(self.device()?)),
            Kind::Cue => self
                .new_cue(alloc, PartsForm::Plain)
                .map(|(cue, parts)| Event::Cue(cue, parts)),
            Kind::MixedCue => self
                .mixed_cue(alloc)
                .map(|(cue, parts)| Event::Cue(cue, parts)),
            Kind::NoCue => Ok(Event::NoCue(self.cue()?)),
            Kind::Place => Ok(Event::Place(self.cue()?)),
            Kind::Start => self
                .start()
                .map(|(seq, cue, deadline)| Event::Start(seq, cue, deadline)),
            Kind::Go => Ok(Event::Go(self.sequence()?)),
            Kind::Cancel => self
                .cancel()
                .map(|(seq, reason)| Event::Cancel(seq, reason)),
            Kind::Ready => self.answer().map(|(seq, device)| Event::Ready(seq, device)),
            Kind::Done => self.answer().map(|(seq, device)| Event::Done(seq, device)),
            Kind::LetGo => self.answer().map(|(seq, device)| Event::LetGo(seq, device)),
            Kind::Failed => self
                .answer()
                .map(|(seq, device)| Event::Failed(seq, device)),
            Kind::Excuse => self
                .answer()
                .map(|(seq, device)| Event::Excuse(seq, device)),
        }
    }

    #[tactic(auto, unfolding(crate::specs::BatchReading::event_at))]
    fn event(&mut self, alloc: Global) -> Result<Event, ReadFault>
        ensures { Gives (λ x. (x, self.new.rest.now)) result (event_at self.old.rest.now) }
    {
        let kind = self.kind()?;
        self.body(alloc, kind)
    }

    // A count of events.
    #[tactic(auto, unfolding(crate::specs::BatchReading::event_count_at))]
    fn event_count(&mut self) -> Result<u16, ReadFault>
        ensures { Gives (λ x. (x, self.new.rest.now)) result (event_count_at self.old.rest.now) }
    {
        let count = self.u16()?;
        if count < 1 || usize::from(count) > MAX_EVENTS {
            return Err(ReadFault::Malformed);
        }
        Ok(count)
    }

    // So many events.
    fn event_list(&mut self, alloc: Global, count: u16) -> Result<Vec<Event>, ReadFault>
        ensures { Gives (λ x. (x.items, self.new.rest.now)) result (list_at event_at count self.old.rest.now) }
    {
        let mut events = Vec::new(alloc);
        for _ in 0..count {
            let event = self.event(alloc)?;
            events.push(event)?;
        }
        Ok(events)
    }
}

/// The events of the bytes, all of the bytes.
#[tactic(auto, unfolding(crate::specs::BatchReading::batch_of))]
pub(crate) fn batch_of(alloc: Global, bytes: &[u8]) -> Result<Batch, ReadFault>
    ensures { Gives (λ batch. batch) result (batch_of bytes.now) }
{
    let mut reader = Reader { rest: bytes };
    let count = reader.event_count()?;
    let events = reader.event_list(alloc, count)?;
    if !reader.rest.is_empty() {
        return Err(ReadFault::Malformed);
    }
    Ok(Batch::from_vec(events))
}
