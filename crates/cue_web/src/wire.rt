//! One connection to the page over its socket: what comes goes to its machine, and what that says is written.
ghost use Rattle.std.specs.Prelude.{◌≡◌, ◌+◌, ◌≤◌, false, true, length, IfSome};
ghost use Rattle.cue_connection.specs.Asking.{AsksIn};
ghost use Rattle.cue_connection.specs.Connecting.{IsFresh};
ghost use Rattle.cue_connection.specs.Stages.{AsksOnce, is_asking};
ghost use Rattle.cue_connection.specs.declared.connection.TheConstants.{PATIENCE};
ghost use Rattle.cue_web.specs.Serving.{IsDropped, IsWithin, is_here};

use cue_connection::{Answer, Asking, Connection, Stage};
use cue_request::identity::PageIdentity;
use mio::net::TcpStream;
use std::alloc::Global;
use std::io::{ErrorKind, Read, Write};
use std::net::Shutdown;

/// How many bytes are read at once.
const PIECE: usize = 1024;

/// How many pieces are read of one connection before the others have their turn.
const PIECES: usize = 16;

/// What comes of a reading.
enum Came {
    /// So many bytes.
    Bytes(usize),
    /// Nothing is there at this moment.
    Nothing,
    /// A signal came first: nobody knows what is there.
    Interrupted,
    /// The other side has closed its way of speaking.
    Ended,
    /// It cannot be read any more.
    Broken,
}

/// A connection over its socket.
#[derive(Drop)]
pub struct Wire {
    stream: TcpStream,
    connection: Connection,
}

// Reads what is there, into this room.
fn read_from<S: Read>(stream: &mut S, room: &mut [u8]) -> Came
    ensures { IsWithin result (length room.new) }
{
    match stream.read(room) {
        Ok(0) => Came::Ended,
        Ok(n) => Came::Bytes(n),
        Err(why) => match why.kind() {
            ErrorKind::WouldBlock => Came::Nothing,
            ErrorKind::Interrupted => Came::Interrupted,
            _ => Came::Broken,
        },
    }
}

impl Wire {
    /// A connection that begins now.
    pub fn new(alloc: Global, stream: TcpStream, now: u64) -> Wire
        ensures fresh { IsFresh result.connection }
        ensures soon { result.connection.until ≤ now + PATIENCE }
    {
        Wire {
            stream,
            connection: Connection::new(alloc, now),
        }
    }

    /// Whether it is still there.
    pub fn is_here(&self) -> bool
        ensures { result ≡ is_here self.now }
    {
        self.connection.is_here()
    }

    // Reads a piece, and hands it on. Answers whether there may be more.
    fn read_piece(&mut self, room: &mut [u8]) -> bool
        ensures once { AsksOnce self.old.connection.stage self.new.connection.stage }
        ensures dropped { IsDropped self.old.connection self.new.connection }
    {
        match read_from(&mut self.stream, room) {
            Came::Bytes(n) => {
                self.connection.take(&room[..n]);
                true
            }
            Came::Interrupted => true,
            Came::Nothing => false,
            Came::Ended => {
                self.connection.end();
                false
            }
            Came::Broken => {
                self.connection.leave();
                false
            }
        }
    }

    // Reads what has come, as long as its machine wants more of it.
    fn read_on(&mut self)
        ensures once { AsksOnce self.old.connection.stage self.new.connection.stage }
        ensures dropped { IsDropped self.old.connection self.new.connection }
    {
        let mut room = [0; PIECE];
        for _ in 0..PIECES {
            if !self.connection.reads() || !self.read_piece(&mut room) {
                return;
            }
        }
    }

    // Reads its request, if that is awaited.
    fn read_request(&mut self)
        ensures once { AsksOnce self.old.connection.stage self.new.connection.stage }
    {
        if self.connection.stage() == Stage::Asking {
            self.read_on();
        }
    }

    /// Hears what it asks, once, if that has come whole, is refused, came too late or has ended before.
    pub fn hear(&mut self, identity: &PageIdentity<'_>, now: u64) -> Option<Asking>
        ensures asks { IfSome result (AsksIn identity.now self.new.connection.input.items) }
        ensures first { IfSome result (λ _. is_asking self.old.connection.stage ≡ true) }
        ensures once { AsksOnce self.old.connection.stage self.new.connection.stage }
    {
        self.read_request();
        self.connection.ask(identity, now)
    }

    /// Answers it.
    pub fn tell(&mut self, answer: Answer, now: u64)
        ensures over { is_asking self.new.connection.stage ≡ false }
        ensures input { self.new.connection.input ≡ self.old.connection.input }
    {
        self.connection.tell(answer, now);
    }

    /// It is closed without an answer.
    pub fn leave(&mut self)
        ensures over { is_asking self.new.connection.stage ≡ false }
        ensures input { self.new.connection.input ≡ self.old.connection.input }
    {
        self.connection.leave();
    }

    // Says that nothing follows its answer.
    fn finish(&mut self)
        ensures once { AsksOnce self.old.connection.stage self.new.connection.stage }
        ensures input { self.new.connection.input ≡ self.old.connection.input }
    {
        match self.stream.shutdown(Shutdown::Write) {
            Ok(()) => self.connection.finish(),
            Err(_) => self.connection.leave(),
        }
    }

    // Writes as much of its answer as there is room for. Answers whether there may be room for more.
    fn write_piece(&mut self, page: &str) -> bool
        ensures once { AsksOnce self.old.connection.stage self.new.connection.stage }
        ensures input { self.new.connection.input ≡ self.old.connection.input }
    {
        let rest = self.connection.rest(page);
        if rest.is_empty() {
            self.finish();
            return false;
        }
        match self.stream.write(rest) {
            Ok(n) => {
                self.connection.wrote(n);
                true
            }
            Err(why) => match why.kind() {
                ErrorKind::WouldBlock => false,
                ErrorKind::Interrupted => true,
                _ => {
                    self.connection.leave();
                    false
                }
            },
        }
    }

    // Writes its answer.
    fn write_on(&mut self, page: &str)
        ensures once { AsksOnce self.old.connection.stage self.new.connection.stage }
        ensures input { self.new.connection.input ≡ self.old.connection.input }
    {
        for _ in 0..PIECES {
            if !self.write_piece(page) {
                return;
            }
        }
    }

    // Does what is next for its answer.
    fn step(&mut self, page: &str)
        ensures once { AsksOnce self.old.connection.stage self.new.connection.stage }
        ensures input { self.new.connection.input ≡ self.old.connection.input }
    {
        match self.connection.stage() {
            Stage::Hearing => self.write_on(page),
            Stage::Leaving => self.read_on(),
            Stage::Asking | Stage::Asked | Stage::Gone => {}
        }
    }

    /// Goes on with its answer; this is the page. If it asks no more, it does not ask again.
    #[tactic(auto, using(crate::proofs::ServeLemmas::once_then))]
    pub fn go_on(&mut self, page: &str, now: u64)
        ensures once { AsksOnce self.old.connection.stage self.new.connection.stage }
        ensures input { self.new.connection.input ≡ self.old.connection.input }
    {
        self.step(page);
        self.connection.pass(now);
    }
}
