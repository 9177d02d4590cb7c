//! What an event makes of a state.
ghost use Rattle.std.specs.Prelude.{◌≡◌, ◌+◌, nat_eq, IsTrue, IfOk, OnOk, OnErr};
ghost use Rattle.cue_core.specs.Steps.{acceptable, after, are_acceptable, can_begin, ended_as, after_events};
ghost use Rattle.cue_core.specs.Steps.{place_after, AppliesFirst};
ghost use Rattle.cue_core.specs.State.{cue_parts};
ghost use Rattle.cue_show.specs.Show.{has_cue};
ghost use Rattle.cue_core.specs.declared.event.Event.TheVariants as event;

use crate::event::{Ended, Event};
use crate::state::State;
use cue_exchange::{Live, Outcome, Reason};
use cue_show::{CueNo, DeviceNo, Parts, Show};
use std::alloc::AllocError;

impl State {
    /// Whether the event may happen in the state. For whoever reads events from outside.
    pub fn can_apply(&self, event: &Event) -> bool
        ensures { result ≡ acceptable self.now event.now }
    {
        match event {
            Event::Device(device, port) => self.show.can_add_device(*device, *port),
            Event::NoDevice(device) => self.show.can_remove_device(*device),
            Event::Cue(cue, parts) => self.show.can_add_cue(*cue, parts),
            Event::NoCue(cue) => self.show.has_cue(*cue) && self.live.of_cue(*cue).is_none(),
            Event::Place(cue) => self.show.has_cue(*cue),
            Event::Start(seq, cue, deadline) => can_begin(
                &self.show,
                &self.live,
                self.last_seq,
                *seq,
                *cue,
                *deadline,
            ),
            Event::Ready(seq, device) => self.live.can_ready(*seq, *device),
            Event::Go(seq) => self.live.can_go(*seq),
            Event::Done(seq, device) => self.live.can_done(*seq, *device),
            Event::Cancel(seq, _) => self.live.can_cancel(*seq),
            Event::LetGo(seq, device) => self.live.can_let_go(*seq, *device),
            Event::Failed(seq, device) => self.live.can_fail(*seq, *device),
            Event::Excuse(seq, device) => self.live.can_excuse(*seq, *device),
        }
    }

    /// Applies the events in order. If memory runs out, those before the one that it ran out at are applied, and
    /// no other.
    pub fn apply_all(&mut self, events: &[Event]) -> Result<(), AllocError>
        requires { IsTrue (are_acceptable self.old events.now) }
        ensures ok { OnOk result (self.new ≡ after_events self.old events.now) }
        ensures err { OnErr result (AppliesFirst self.old events.now self.new) }
    {
        for event in events {
            self.apply(event)?;
        }
        Ok(())
    }

    /// Applies an event. If memory runs out nothing changes.
    ///
    /// Whoever reads events from outside asks `can_apply` first; the events of `judge` are acceptable in turn.
    pub fn apply(&mut self, event: &Event) -> Result<(), AllocError>
        requires { IsTrue (acceptable self.old event.now) }
        ensures ok { OnOk result (self.new ≡ after self.old event.now) }
        ensures err { OnErr result (self.new ≡ self.old) }
    {
        match event {
            Event::Device(device, port) => return self.add_device(*device, *port),
            Event::NoDevice(device) => self.remove_device(*device),
            Event::Cue(cue, parts) => return self.add_cue(*cue, parts),
            Event::NoCue(cue) => self.remove_cue(*cue),
            Event::Place(cue) => self.move_to(*cue),
            Event::Start(seq, cue, deadline) => return self.start(*seq, *cue, *deadline),
            Event::Ready(seq, device) => self.ready(*seq, *device),
            Event::Go(seq) => self.go(*seq),
            Event::Done(seq, device) => self.done(*seq, *device),
            Event::Cancel(seq, reason) => self.cancel(*seq, *reason),
            Event::LetGo(seq, device) => self.let_go(*seq, *device),
            Event::Failed(seq, device) => self.failed(*seq, *device),
            Event::Excuse(seq, device) => self.excuse(*seq, *device),
        }
        Ok(())
    }

    fn add_device(&mut self, device: DeviceNo, port: u16) -> Result<(), AllocError>
        requires { IsTrue (acceptable self.old (event.Device device port)) }
        ensures ok { OnOk result (self.new ≡ after self.old (event.Device device port)) }
        ensures err { OnErr result (self.new ≡ self.old) }
    {
        self.show.add_device(device, port)?;
        Ok(())
    }

    fn remove_device(&mut self, device: DeviceNo)
        requires { IsTrue (acceptable self.old (event.NoDevice device)) }
        ensures { self.new ≡ after self.old (event.NoDevice device) }
    {
        self.show.remove_device(device);
    }

    fn add_cue(&mut self, cue: CueNo, parts: &Parts) -> Result<(), AllocError>
        requires { IsTrue (acceptable self.old (event.Cue cue parts.now)) }
        ensures ok { OnOk result (self.new ≡ after self.old (event.Cue cue parts.now)) }
        ensures err { OnErr result (self.new ≡ self.old) }
    {
        let parts = clone_of(parts)?;
        self.show.add_cue(cue, parts)?;
        Ok(())
    }

    fn remove_cue(&mut self, cue: CueNo)
        requires { IsTrue (acceptable self.old (event.NoCue cue)) }
        ensures { self.new ≡ after self.old (event.NoCue cue) }
    {
        self.show.remove_cue(cue);
    }

    fn move_to(&mut self, cue: CueNo)
        requires { IsTrue (acceptable self.old (event.Place cue)) }
        ensures { self.new ≡ after self.old (event.Place cue) }
    {
        self.show.set_place(Some(cue));
    }

    fn start(&mut self, seq: u32, cue: CueNo, deadline: u64) -> Result<(), AllocError>
        requires { IsTrue (acceptable self.old (event.Start seq cue deadline)) }
        ensures ok { OnOk result (self.new ≡ after self.old (event.Start seq cue deadline)) }
        ensures err { OnErr result (self.new ≡ self.old) }
    {
        let parts = cue_parts(&self.show, cue);
        self.live.start(seq, cue, deadline, parts)?;
        self.last_seq = seq;
        Ok(())
    }

    fn ready(&mut self, seq: u32, device: DeviceNo)
        requires { IsTrue (acceptable self.old (event.Ready seq device)) }
        ensures { self.new ≡ after self.old (event.Ready seq device) }
    {
        self.live.ready(seq, device);
    }

    fn excuse(&mut self, seq: u32, device: DeviceNo)
        requires { IsTrue (acceptable self.old (event.Excuse seq device)) }
        ensures { self.new ≡ after self.old (event.Excuse seq device) }
    {
        self.live.excuse(seq, device);
    }

    // The place goes on to the cue that follows that of the attempt.
    fn go(&mut self, seq: u32)
        requires { IsTrue (acceptable self.old (event.Go seq)) }
        ensures { self.new ≡ after self.old (event.Go seq) }
    {
        let place = place_after(&self.show, &self.live, seq);
        self.show.set_place(place);
        self.live.go(seq);
    }

    fn done(&mut self, seq: u32, device: DeviceNo)
        requires { IsTrue (acceptable self.old (event.Done seq device)) }
        ensures { self.new ≡ after self.old (event.Done seq device) }
    {
        let outcome = self.live.done(seq, device);
        self.ended = ended_as(seq, outcome, self.ended);
    }

    fn cancel(&mut self, seq: u32, reason: Reason)
        requires { IsTrue (acceptable self.old (event.Cancel seq reason)) }
        ensures { self.new ≡ after self.old (event.Cancel seq reason) }
    {
        self.live.cancel(seq, reason);
    }

    fn let_go(&mut self, seq: u32, device: DeviceNo)
        requires { IsTrue (acceptable self.old (event.LetGo seq device)) }
        ensures { self.new ≡ after self.old (event.LetGo seq device) }
    {
        let outcome = self.live.let_go(seq, device);
        self.ended = ended_as(seq, outcome, self.ended);
    }

    fn failed(&mut self, seq: u32, device: DeviceNo)
        requires { IsTrue (acceptable self.old (event.Failed seq device)) }
        ensures { self.new ≡ after self.old (event.Failed seq device) }
    {
        let outcome = self.live.failed(seq, device);
        self.ended = ended_as(seq, outcome, self.ended);
    }
}

// Whether an attempt at the cue may start: its number is the one after the last, and the cue is in the stack.
fn can_begin(show: &Show, live: &Live, last_seq: u32, seq: u32, cue: CueNo, deadline: u64) -> bool
    ensures { result ≡ can_begin show.now live.now last_seq seq cue deadline }
{
    match show.parts(cue) {
        Some(parts) => is_next(seq, last_seq) && live.can_start(seq, deadline, parts),
        None => false,
    }
}

fn is_next(seq: u32, last_seq: u32) -> bool
    ensures { result ≡ nat_eq seq (last_seq + 1) }
{
    seq > last_seq && seq - last_seq == 1
}

fn clone_of(parts: &Parts) -> Result<Parts, AllocError>
    ensures { IfOk result (λ copy. copy ≡ parts.now) }
{
    parts.clone()
}

fn cue_parts(show: &Show, cue: CueNo) -> &Parts
    requires { IsTrue (has_cue show.now cue) }
    ensures { result.now ≡ cue_parts show.now cue }
{
    show.parts(cue).unwrap()
}

// The cue that follows that of the attempt, or none.
fn place_after(show: &Show, live: &Live, seq: u32) -> Option<CueNo>
    ensures { result ≡ place_after show.now live.now seq }
{
    match live.of_seq(seq) {
        Some(attempt) => show.following(attempt.cue),
        None => None,
    }
}

// The attempt that ended last, after one has ended or not.
fn ended_as(seq: u32, outcome: Option<Outcome>, ended: Option<Ended>) -> Option<Ended>
    ensures { result ≡ ended_as seq outcome ended }
{
    match outcome {
        Some(outcome) => Some(Ended { seq, outcome }),
        None => ended,
    }
}
