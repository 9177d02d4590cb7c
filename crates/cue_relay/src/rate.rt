//! How much of a device goes on to the controller.
ghost use Rattle.std.specs.Prelude.{◌≡◌, ◌<◌, [], IfOk, replicate};
ghost use Rattle.cue_relay.specs.Rates.{admits, has_room, is_past, meters_after, times_after, times_noted};

use crate::route::{Opening, Side};
use circular_buffer::HeapCircularBuffer;
use std::alloc::{AllocError, Global};
use std::marker::Model;

/// How many datagrams of one device go on to the controller within a second, at most.
pub const RATE: usize = 100;

/// A second, in milliseconds.
pub const SECOND: u64 = 1_000;

// Whether a second and more has passed since this time, or the clock was put back before it.
fn is_past(time: u64, now: u64) -> bool
    ensures { result ≡ is_past time now }
{
    now < time || now - time >= SECOND
}

/// When the last hundred datagrams of a device went on to the controller, in milliseconds since 1970, the latest first.
#[derive(Drop)]
pub struct Meter {
    times: HeapCircularBuffer<u64>,
}

impl Model for Meter {
    ghost use Rattle.std.specs.Prelude.{◌≡◌, ℕ, List};
    ghost use Rattle.cue_relay.specs.declared.rate.TheConstants.{RATE};

    ghost Value = { List ℕ };

    ghost view = { λ m. m.times.items };

    ghost invariant = { λ m. m.times.capacity ≡ RATE };
}

impl Meter {
    /// None went on yet.
    pub fn new(alloc: Global) -> Result<Meter, AllocError>
        ensures { IfOk result (λ m. m ≡ []) }
    {
        let times = HeapCircularBuffer::with_capacity(alloc, RATE)?;
        Ok(Meter { times })
    }

    // Whether one more may go on now.
    fn has_room(&self, now: u64) -> bool
        ensures { result ≡ has_room self.now now }
    {
        match self.times.get(RATE - 1) {
            Some(time) => is_past(*time, now),
            None => true,
        }
    }

    // One more went on.
    fn note(&mut self, now: u64)
        ensures { self.new ≡ times_after self.old now }
    {
        self.times.push_front(now);
    }

    /// Whether one more may go on now, which is noted then.
    pub fn admit(&mut self, now: u64) -> bool
        ensures admits { result ≡ has_room self.old now }
        ensures after { self.new ≡ times_noted self.old now }
    {
        let has_room = self.has_room(now);
        if has_room {
            self.note(now);
        }
        has_room
    }
}

/// A meter for each of so many routes: nothing went on yet.
#[tactic(auto, using(crate::proofs::MeterLemmas::one_more))]
pub fn meters(alloc: Global, count: usize) -> Result<Vec<Meter>, AllocError>
    ensures { IfOk result (λ meters. meters.items ≡ replicate count []) }
{
    let mut meters = Vec::with_capacity(alloc, count)?;
    for _made in 0..count {
        let meter = Meter::new(alloc)?;
        meters.push(meter)?;
    }
    Ok(meters)
}

/// Whether what may go on from this opening goes on now, which is noted then: of a device its meter decides.
pub fn admit(meters: &mut Vec<Meter>, at: Opening, now: u64) -> bool
    ensures admits { result ≡ admits meters.old.items at now }
    ensures after { meters.new.items ≡ meters_after meters.old.items at now }
{
    match at.side {
        Side::Controller => true,
        Side::Stage => {
            if at.route >= meters.len() {
                return true;
            }
            meters[at.route].admit(now)
        }
    }
}
