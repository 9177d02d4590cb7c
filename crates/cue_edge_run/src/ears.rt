//! Ears over sockets and the clock: all sockets are waited at in one loop.
ghost use Rattle.std.specs.Prelude.{◌≡◌, None, IfOk, length};
ghost use Rattle.cue_edge_run.specs.Hearing.{IsTryWithin, is_reached, is_time, patience, woken};

use crate::addresses::address_of;
use crate::missed::{Missed, why_missed};
use crate::moments::Moments;
use crate::ready::Ready;
use cue_machine::{Ears, EarsFault, Input, Turn};
use mio::net::UdpSocket;
use mio::{Events, Interest, Poll, Token};
use std::io;
use std::net::Net;
use std::time::{Clock, Duration};

/// How many datagrams are read before it is looked again which sockets have some.
const BATCH: u32 = 64;

/// The most tries of one call, before it answers a wake.
const MAX_TRIES: u32 = 65_536;

/// The sockets and the clock. It shows nothing of what it told.
#[derive(Drop)]
pub struct NetEars<'a, C: Clock> {
    clock: &'a C,
    moments: Moments,
    sockets: &'a [UdpSocket],
    poll: Poll,
    events: Events,
    ready: Ready,
    // The moment that was told last.
    last: u64,
    // How many datagrams may still be read before it is looked again.
    left: u32,
}

// Has each socket say when it has something to read.
fn register(poll: &Poll, sockets: &mut [UdpSocket]) -> io::Result<()> {
    for (place, socket) in sockets.iter_mut().enumerate() {
        poll.registry()
            .register(socket, Token(place), Interest::READABLE)?;
    }
    Ok(())
}

// Whether this moment has come.
fn is_reached(until: Option<u64>, now: u64) -> bool
    ensures { result ≡ is_reached until now }
{
    match until {
        Some(until) => until <= now,
        None => false,
    }
}

// Whether it is time to wake.
fn is_time(last: u64, until: Option<u64>, now: u64) -> bool
    ensures { result ≡ is_time last until now }
{
    now < last || is_reached(until, now)
}

// How long to wait, in milliseconds.
fn patience(until: Option<u64>, now: u64) -> Option<u64>
    ensures { result ≡ patience until now }
{
    match until {
        Some(until) => Some(until.saturating_sub(now)),
        None => None,
    }
}

// A wake at this moment.
fn woken(now: u64) -> Turn
    ensures { result ≡ woken now }
{
    Turn::Comes {
        now,
        input: Input::Wake,
        n: 0,
    }
}

impl<'a, C: Clock> NetEars<'a, C> {
    // Ears at all of these sockets, with these moments.
    fn at<R: Net + AllocGlobal>(
        rt: &R,
        clock: &'a C,
        sockets: &'a mut [UdpSocket],
        moments: Moments,
    ) -> io::Result<NetEars<'a, C>> {
        let alloc = rt.alloc();
        let last = moments.now(clock)?;
        let poll = Poll::new(rt)?;
        register(&poll, sockets)?;
        let count = sockets.len();
        Ok(NetEars {
            clock,
            moments,
            sockets,
            poll,
            events: Events::with_capacity(alloc, count.max(1))?,
            ready: Ready::new(alloc, count)?,
            last,
            left: 0,
        })
    }

    /// Ears at all of these sockets. Moments are milliseconds since 1970.
    pub fn new<R: Net + AllocGlobal>(
        rt: &R,
        clock: &'a C,
        sockets: &'a mut [UdpSocket],
    ) -> io::Result<NetEars<'a, C>> {
        NetEars::at(rt, clock, sockets, Moments::Wall)
    }

    /// Ears at all of these sockets. Moments are milliseconds since now, by a clock that nobody sets.
    pub fn steady<R: Net + AllocGlobal>(
        rt: &R,
        clock: &'a C,
        sockets: &'a mut [UdpSocket],
    ) -> io::Result<NetEars<'a, C>> {
        let moments = Moments::steady(clock)?;
        NetEars::at(rt, clock, sockets, moments)
    }

    /// The sockets that it waits at.
    pub fn sockets(&self) -> &'a [UdpSocket] {
        self.sockets
    }

    /// The moment that was told last, or that of its start.
    pub fn now(&self) -> u64
        ensures { result ≡ self.now.last }
    {
        self.last
    }

    // Waits until a socket has something to read or the moment comes, or looks which ones have if some wait already.
    fn look(&mut self, until: Option<u64>, now: u64) -> io::Result<()> {
        let wait = if self.ready.is_empty() {
            patience(until, now)
        } else {
            Some(0)
        };
        self.poll
            .poll(&mut self.events, wait.map(Duration::from_millis))?;
        for event in self.events.iter() {
            self.ready.add(event.token().0)?;
        }
        self.left = BATCH;
        Ok(())
    }

    // The next datagram at the socket of this place. A socket stays in turn until it has nothing more.
    fn receive(&mut self, place: usize, now: u64, buffer: &mut [u8]) -> io::Result<Option<Turn>>
        ensures { IfOk result (λ turn. IsTryWithin turn (length buffer.old)) }
    {
        let Some(socket) = self.sockets.get(place) else {
            return Ok(None);
        };
        match socket.recv_from(buffer) {
            Ok((n, peer)) => {
                self.ready.add(place)?;
                let Some(from) = address_of(peer) else {
                    return Ok(None);
                };
                let input = Input::Datagram { at: place, from };
                Ok(Some(Turn::Comes { now, input, n }))
            }
            Err(error) => {
                if self.is_refused(place, error)? {
                    let input = Input::Refused { at: place };
                    return Ok(Some(Turn::Comes { now, input, n: 0 }));
                }
                Ok(None)
            }
        }
    }

    // Whether nobody listens where the socket of this place sent to, which gave no datagram. If another call may give
    // one, it stays in turn.
    fn is_refused(&mut self, place: usize, error: io::Error) -> io::Result<bool> {
        let Some(missed) = why_missed(error.kind()) else {
            return Err(error);
        };
        if missed == Missed::Nothing {
            return Ok(false);
        }
        self.ready.add(place)?;
        Ok(missed == Missed::Refused)
    }

    // One try: a wake that is due, or the next datagram of a socket in its turn.
    fn try_next(&mut self, until: Option<u64>, buffer: &mut [u8]) -> io::Result<Option<Turn>>
        ensures { IfOk result (λ turn. IsTryWithin turn (length buffer.old)) }
    {
        let now = self.moments.now(self.clock)?;
        if is_time(self.last, until, now) {
            self.last = now;
            return Ok(Some(woken(now)));
        }
        if self.left == 0 {
            self.look(until, now)?;
            return Ok(None);
        }
        self.left -= 1;
        self.last = now;
        match self.ready.next() {
            Some(place) => self.receive(place, now, buffer),
            None => {
                self.left = 0;
                Ok(None)
            }
        }
    }
}

impl<'a, C: Clock> Ears for NetEars<'a, C> {
    ghost told = { λ _. None };

    fn hear(&mut self, until: Option<u64>, buffer: &mut [u8]) -> Result<Turn, EarsFault> {
        for _ in 0..MAX_TRIES {
            match self.try_next(until, buffer) {
                Ok(Some(turn)) => return Ok(turn),
                Ok(None) => {}
                Err(_) => return Err(EarsFault),
            }
        }
        Ok(woken(self.last))
    }
}
