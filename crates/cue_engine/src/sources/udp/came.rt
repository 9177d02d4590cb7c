//! What came while a call waited for a datagram.
ghost use Rattle.std.specs.Prelude.{◌≡◌};
ghost use Rattle.cue_engine.specs.Udp.{came_of, meaning_of, waiting_of};

use crate::sources::source::Waiting;
use std::io::{self, ErrorKind};

/// What came while a call waited.
#[derive(Clone, Copy)]
pub enum Came {
    Nothing,
    /// It is passed over: a datagram of the own port, or word that nobody got an earlier reply.
    Noise,
    Datagram { from: u16, n: usize },
}

// What a wait means that ended so; None if the socket failed.
fn meaning_of(kind: ErrorKind) -> Option<Came>
    ensures { result ≡ meaning_of kind }
{
    match kind {
        ErrorKind::WouldBlock => Some(Came::Nothing),
        ErrorKind::TimedOut => Some(Came::Nothing),
        ErrorKind::ConnectionRefused => Some(Came::Noise),
        ErrorKind::Interrupted => Some(Came::Noise),
        _ => None,
    }
}

/// What a wait at this port brought: a datagram's length and the port that it is from, or an error.
pub fn what_came(own: u16, received: io::Result<(usize, u16)>) -> io::Result<Came>
    ensures { result ≡ came_of own received }
{
    match received {
        Ok((_, from)) if from == own => Ok(Came::Noise),
        Ok((n, from)) => Ok(Came::Datagram { from, n }),
        Err(error) => match meaning_of(error.kind()) {
            Some(came) => Ok(came),
            None => Err(error),
        },
    }
}

/// The datagram that a look found at this time; None if nothing came, or noise.
pub fn waiting_of(came: Came, now: u64) -> Option<Waiting>
    ensures { result ≡ waiting_of came now }
{
    match came {
        Came::Nothing => None,
        Came::Noise => None,
        Came::Datagram { from, n } => Some(Waiting { now, from, n }),
    }
}
