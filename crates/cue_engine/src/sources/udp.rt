//! The network: one UDP socket on 127.0.0.1.
ghost use Rattle.std.specs.Prelude.{◌≡◌, ◌∷◌, [], Some, None, length, IfOk, IfSome, false};
ghost use Rattle.std.specs.Net.Socket.{socket_ip, socket_port};
ghost use Rattle.cue_engine.specs.Sources.{GaveAll, IsWithin, Waited, WaitsWithin, gave};
ghost use Rattle.cue_engine.specs.Tries.{Tried, try_of};
ghost use Rattle.cue_engine.specs.Udp.{CameWithin, ComesNow, IsFoundNow, IsThisMachine, LooksAfterTicks, NextWithin, TickComesFirst, is_tick_due, is_whole};

mod came;
mod ear;
mod held;
mod receive;
mod ticks;
mod tries;

use crate::sources::source::{Source, SourceFault, Turn, Waiting};
use crate::wire::{Wire, WireFault};
use came::{Came, waiting_of};
use ear::Ear;
use held::Held;
pub use receive::{Receive, UdpReceiver};
use std::io;
use std::net::{IpAddr, Ipv4Addr, SocketAddr, UdpSocket};
use std::time::Clock;
use ticks::Ticks;
use tries::MAX_DROPPED;
pub use tries::{Tries, first_turn, udp_limits};

/// A port of this machine.
pub fn local(port: u16) -> SocketAddr
    ensures machine { IsThisMachine (socket_ip result) }
    ensures port { socket_port result ≡ port }
{
    SocketAddr::new(IpAddr::V4(Ipv4Addr::LOCALHOST), port)
}

/// The datagrams of a receiver, and ticks between them: one if the clock shows 250 ms since the last tick or was put
/// back, or if the receiver waited and no datagram came. A tick that is due comes before any datagram, also before one
/// that came while a call waited or looked: that one is held, and comes after the tick. So what came too late for a
/// deadline is judged after the tick at which the deadline has passed, however long the program was stopped. It reports
/// nothing. Of the 65,536 datagrams that a call drops at most no contract speaks; a test counts them.
#[derive(Drop)]
pub struct UdpSource<'a, C: Clock, R: Receive + Drop> {
    ear: Ear<'a, C, R>,
    ticks: Ticks,
    held: Held,
}

impl<'a, C: Clock, R: Receive + Drop> UdpSource<'a, C, R> {
    /// Listens at a receiver that is bound to this port, whose own datagrams are dropped. Its time begins now.
    pub fn new(clock: &'a C, receiver: R, own: u16) -> io::Result<UdpSource<'a, C, R>> {
        let mut ear = Ear::new(clock, receiver, own);
        let ticks = Ticks::new(ear.now()?);
        Ok(UdpSource {
            ear,
            ticks,
            held: Held::none(),
        })
    }

    // Waits for a datagram. Answers what came, and when the wait was over.
    fn wait(&mut self, buffer: &mut [u8]) -> io::Result<(Came, u64)>
        ensures within { IfOk result (λ waited. CameWithin waited.0 (length buffer.old)) }
        ensures moment { IfOk result (λ waited. self.new.ear.shown ≡ Some waited.1) }
        ensures ticks { self.new.ticks ≡ self.old.ticks }
    {
        let came = self.ear.wait(buffer)?;
        Ok((came, self.ear.now()?))
    }

    // Looks whether a datagram is there that no tick comes before. One that a tick comes before is held.
    fn look(&mut self, buffer: &mut [u8]) -> io::Result<Option<Waiting>>
        ensures within { IfOk result (λ found. WaitsWithin (Ok found) (length buffer.old)) }
        ensures tick_first { IfOk result (LooksAfterTicks self.new.ticks.last) }
        ensures moment { IfOk result (IsFoundNow self.new.ear.shown) }
    {
        if self.held.is_some() {
            return Ok(None);
        }
        let came = self.ear.look(buffer)?;
        let now = self.ear.now()?;
        if self.ticks.is_due(now) {
            self.hold(came, buffer);
            return Ok(None);
        }
        Ok(waiting_of(came, now))
    }

    // Holds the datagram, if one came.
    fn hold(&mut self, came: Came, buffer: &[u8])
        requires { CameWithin came (length buffer.now) }
        ensures ticks { self.new.ticks ≡ self.old.ticks }
        ensures ear { self.new.ear ≡ self.old.ear }
    {
        if let Came::Datagram { from, n } = came {
            self.held.put(from, &buffer[..n]);
        }
    }

    // What comes next at a moment at which no tick is due: what is held, or else what a wait brings.
    fn after_ticks(&mut self, now: u64, buffer: &mut [u8]) -> io::Result<Option<Turn>>
        requires not_due { is_tick_due self.old.ticks.last now ≡ false }
        requires moment { self.old.ear.shown ≡ Some now }
        ensures within { IfOk result (λ next. NextWithin next (length buffer.old)) }
        ensures tick_first { IfOk result (λ next. IfSome next (TickComesFirst self.new.ticks.last)) }
        ensures moment { IfOk result (λ next. IfSome next (ComesNow self.new.ear.shown)) }
    {
        if let Some((from, n)) = self.held.take(buffer) {
            return Ok(Some(Turn::Datagram { now, from, n }));
        }
        let (came, now) = self.wait(buffer)?;
        if let Some(tick) = self.ticks.due(now) {
            self.hold(came, buffer);
            return Ok(Some(tick));
        }
        Ok(self.ticks.after(came, now))
    }
}

impl<'a, C: Clock, R: Receive + Drop> Tries for UdpSource<'a, C, R> {
    ghost left = { λ _. None };

    ghost allows = { λ source turn. TickComesFirst source.ticks.last turn × ComesNow source.ear.shown turn };

    fn try_next(&mut self, buffer: &mut [u8]) -> io::Result<Option<Turn>> {
        let now = self.ear.now()?;
        match self.ticks.due(now) {
            Some(tick) => Ok(Some(tick)),
            None => self.after_ticks(now, buffer),
        }
    }
}

impl<'a, C: Clock, R: Receive + Drop> Source for UdpSource<'a, C, R> {
    ghost left = { λ _. None };

    fn next(&mut self, buffer: &mut [u8]) -> Result<Turn, SourceFault>
        ensures within { IsWithin result (length buffer.old) }
        ensures gave { GaveAll (length buffer.old) None (gave result buffer.new ∷ []) None }
        ensures tick_first { IfOk result (TickComesFirst self.new.ticks.last) }
        ensures moment { IfOk result (ComesNow self.new.ear.shown) }
    {
        first_turn(self, MAX_DROPPED, buffer)
    }

    fn waiting(&mut self, buffer: &mut [u8]) -> Result<Option<Waiting>, SourceFault>
        ensures within { WaitsWithin result (length buffer.old) }
        ensures waited { Waited (length buffer.old) result buffer.new None None }
        ensures tick_first { IfOk result (LooksAfterTicks self.new.ticks.last) }
        ensures moment { IfOk result (IsFoundNow self.new.ear.shown) }
    {
        match self.look(buffer) {
            Ok(found) => Ok(found),
            Err(_) => Err(SourceFault),
        }
    }
}

// Whether a send that was answered so took a whole datagram of this length.
fn is_whole(sent: io::Result<usize>, len: usize) -> bool
    ensures { result ≡ is_whole sent len }
{
    match sent {
        Ok(sent) => sent == len,
        Err(_) => false,
    }
}

/// Sends to ports of this machine. It reports nothing.
#[derive(Drop)]
pub struct UdpWire<'a> {
    socket: &'a UdpSocket,
}

impl<'a> UdpWire<'a> {
    pub fn new(socket: &'a UdpSocket) -> UdpWire<'a> {
        UdpWire { socket }
    }
}

impl<'a> Wire for UdpWire<'a> {
    ghost told = { λ _. None };

    fn send(&mut self, to: u16, bytes: &[u8]) -> Result<(), WireFault> {
        if is_whole(self.socket.send_to(bytes, local(to)), bytes.len()) {
            Ok(())
        } else {
            Err(WireFault)
        }
    }
}
