//! A receiver with the clock beside it: what comes has the moment at which it was heard.
ghost use Rattle.std.specs.Prelude.{◌≡◌, ◌≤◌, ◌/◌, length, Some, None, IfOk};
ghost use Rattle.std.specs.Duration.{as_nanos};
ghost use Rattle.cue_engine.specs.Udp.{CameWithin};

use super::came::{Came, what_came};
use super::receive::Receive;
use std::io::{self, ErrorKind};
use std::time::{Clock, Duration};

// Whole milliseconds. The error is that a number of 64 bits cannot hold them.
fn millis_of(since: Duration) -> io::Result<u64>
    ensures { IfOk result (λ millis. millis ≡ as_nanos since / 1_000_000) }
{
    match u64::try_from(since.as_millis()) {
        Ok(millis) => Ok(millis),
        Err(_) => Err(io::Error::from(ErrorKind::InvalidData)),
    }
}

/// A receiver with the clock beside it. What the clock showed counts until the receiver hears again: then it is looked
/// at anew. So nothing that came is given a moment of before it came.
#[derive(Drop)]
pub struct Ear<'a, C: Clock, R: Receive + Drop> {
    clock: &'a C,
    receiver: R,
    own: u16,
    // What the clock showed, in milliseconds since 1970, if nothing was heard since.
    shown: Option<u64>,
}

impl<'a, C: Clock, R: Receive + Drop> Ear<'a, C, R> {
    /// A receiver that is bound to this port, whose own datagrams are noise.
    pub fn new(clock: &'a C, receiver: R, own: u16) -> Ear<'a, C, R>
        ensures { result.shown ≡ None }
    {
        Ear {
            clock,
            receiver,
            own,
            shown: None,
        }
    }

    /// Milliseconds since 1970, as the clock shows them now.
    pub fn now(&mut self) -> io::Result<u64>
        ensures shown { IfOk result (λ now. self.new.shown ≡ Some now) }
    {
        let now = millis_of(self.clock.since_1970()?)?;
        self.shown = Some(now);
        Ok(now)
    }

    /// Waits for a datagram, for as long as a tick is apart.
    pub fn wait(&mut self, buffer: &mut [u8]) -> io::Result<Came>
        ensures within { IfOk result (λ came. CameWithin came (length buffer.old)) }
        ensures anew { self.new.shown ≡ None }
    {
        self.shown = None;
        what_came(self.own, self.receiver.receive(buffer))
    }

    /// The same of a datagram that is there already: it does not wait.
    pub fn look(&mut self, buffer: &mut [u8]) -> io::Result<Came>
        ensures within { IfOk result (λ came. CameWithin came (length buffer.old)) }
        ensures anew { self.new.shown ≡ None }
    {
        self.shown = None;
        what_came(self.own, self.receiver.receive_waiting(buffer))
    }
}
