//! What it means that a socket gave no datagram.
ghost use Rattle.std.specs.Prelude.{◌≡◌};
ghost use Rattle.cue_edge_run.specs.Missing.{why_missed};

use std::io::ErrorKind;

/// Why a socket gave no datagram, though it did not fail.
#[derive(Clone, Copy, Debug, PartialEq, Eq)]
pub enum Missed {
    /// It has none.
    Nothing,
    /// Another call may give one.
    Again,
    /// Nobody listens where it sent to.
    Refused,
}

/// Why a socket gave no datagram; none if it failed.
pub fn why_missed(kind: ErrorKind) -> Option<Missed>
    ensures { result ≡ why_missed kind }
{
    match kind {
        ErrorKind::WouldBlock => Some(Missed::Nothing),
        ErrorKind::TimedOut => Some(Missed::Nothing),
        ErrorKind::ConnectionRefused => Some(Missed::Refused),
        ErrorKind::Interrupted => Some(Missed::Again),
        _ => None,
    }
}
