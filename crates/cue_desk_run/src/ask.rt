//! An ask whose answer is awaited, at a socket of its own.
ghost use Rattle.std.specs.Prelude.{◌≡◌, IfSome};
ghost use Rattle.cue_desk_run.specs.Asking.{is_of_kind};
ghost use Rattle.cue_desk_run.specs.Hearing.{IsCome, IsHeardOf, IsRead, IsUnreplied, heard_of, unheard};

use cue_ask_machine::Letter;
use cue_desk::replying::Replied;
use cue_osc::MAX_LEN;
use cue_station::heard::Heard;
use mio::net::UdpSocket;
use std::alloc::Global;
use std::io::ErrorKind;

/// How many datagrams are read of one ask before the others have their turn.
const MAX_READ: u32 = 64;

/// An ask whose answer has not come.
#[derive(Drop)]
pub(crate) struct Ask {
    pub(crate) letter: Letter,
    pub(crate) socket: UdpSocket,
}

/// What comes to a socket.
#[derive(Clone, Copy, PartialEq, Eq)]
enum Came {
    Replied(Replied),
    // Nobody listens at the controller's port.
    Nobody,
    // Something that is no answer.
    Noise,
    Nothing,
}

// What it means that a call brought no datagram.
fn unheard(kind: ErrorKind) -> Came
    ensures value { result ≡ unheard kind }
    ensures unreplied { IsUnreplied result }
{
    match kind {
        ErrorKind::ConnectionRefused => Came::Nobody,
        ErrorKind::Interrupted => Came::Noise,
        _ => Came::Nothing,
    }
}

// What the machine hears of the ask with this number.
fn heard_of(number: u64, came: Came) -> Option<Heard>
    ensures { result ≡ heard_of number came }
{
    match came {
        Came::Replied(replied) => Some(Heard::Replied(number, replied)),
        Came::Nobody => Some(Heard::Nobody(number)),
        Came::Noise => None,
        Came::Nothing => None,
    }
}

impl Ask {
    /// Whether it is a question for the status, or else whether it is none.
    pub(crate) fn is_of_kind(&self, is_status: bool) -> bool
        ensures { result ≡ is_of_kind is_status self.now }
    {
        if is_status {
            self.letter.is_status
        } else {
            !self.letter.is_status
        }
    }

    // What the datagram says. If memory runs out nothing is heard, as of a datagram that is lost.
    fn read(&self, alloc: Global, datagram: &[u8]) -> Came
        ensures { IsRead self.now.letter datagram.now result }
    {
        match self.letter.answer_in(alloc, datagram) {
            Ok(Some(replied)) => Came::Replied(replied),
            Ok(None) => Came::Noise,
            Err(_) => Came::Noise,
        }
    }

    // What comes next, of what is there.
    #[tactic(auto, using(crate::proofs::HearLemmas::come_read, crate::proofs::HearLemmas::come_none))]
    fn next(&self, alloc: Global) -> Came
        ensures { IsCome self.now.letter result }
    {
        let mut buffer = [0; MAX_LEN];
        match self.socket.recv(&mut buffer) {
            Ok(n) => self.read(alloc, &buffer[..n]),
            Err(error) => unheard(error.kind()),
        }
    }

    /// Its answer, if that is there.
    #[tactic(auto, using(crate::proofs::HearLemmas::heard_come))]
    pub(crate) fn answer(&self, alloc: Global) -> Option<Heard>
        ensures { IfSome result (IsHeardOf self.now.letter) }
    {
        for _ in 0..MAX_READ {
            let came = self.next(alloc);
            if came != Came::Noise {
                return heard_of(self.letter.number, came);
            }
        }
        None
    }
}
