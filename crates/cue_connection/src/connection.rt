//! One connection to the page: it asks once, is answered, and is closed.
ghost use Rattle.std.specs.Prelude.{◌≡◌, ◌+◌, ◌≤◌, false, true, length, IfSome};
ghost use Rattle.cue_connection.specs.Asking.{AsksIn, AsksNow};
ghost use Rattle.cue_connection.specs.Connecting as connecting;
ghost use Rattle.cue_connection.specs.Connecting.{AsksAt, IsFresh, IsIncomplete, ReadsIf, Takes, bytes_of, is_here};
ghost use Rattle.cue_connection.specs.Connecting.{is_read, rest_of};
ghost use Rattle.cue_connection.specs.Stages.{AsksOnce, is_asking};

use crate::asking::{Asking, asking_after};
use crate::scanning::Scan;
use crate::stage::Stage;
use cue_request::identity::PageIdentity;
use cue_request::request::{MAX_BODY, MAX_HEAD, Refusal};
use std::alloc::Global;
use std::mem;

/// How long a connection has for its request, and again for its answer, in milliseconds.
pub const PATIENCE: u64 = 1_000;

/// How many bytes of a connection are kept: the longest head, and the longest body.
pub const MAX_INPUT: usize = MAX_HEAD + MAX_BODY;

/// What a connection is answered.
#[derive(Drop)]
pub enum Answer {
    /// The page, which all connections are lent.
    Page,
    Text(String),
}

impl Answer {
    // Its bytes, of which these are those of the page.
    fn bytes<'b>(&'b self, page: &'b str) -> &'b [u8]
        ensures { result.now ≡ bytes_of self.now page.now }
    {
        match self {
            Answer::Page => page.as_bytes(),
            Answer::Text(text) => text.as_bytes(),
        }
    }
}

/// A connection: all that is known of it, but for its socket.
#[derive(Drop)]
pub struct Connection {
    stage: Stage,
    // What has come of its request, and how far its head has come in that.
    input: Vec<u8>,
    scan: Scan,
    // Whether something came since it was asked last.
    has_grown: bool,
    // Whether nothing more comes: the other side has closed its way of speaking.
    has_ended: bool,
    // What it is answered, and how much of that is written.
    output: Answer,
    written: usize,
    // When its stage ends at the latest, in milliseconds since the start.
    until: u64,
}

// The part of a piece that is kept, if so much was kept before.
fn kept_of(before: usize, piece: &[u8]) -> &[u8]
    ensures { result.now ≡ connecting.kept_of before piece.now }
{
    let room = MAX_INPUT.saturating_sub(before);
    piece.split_at(room.min(piece.len())).0
}

impl Connection {
    /// A connection that begins now.
    pub fn new(alloc: Global, now: u64) -> Connection
        ensures fresh { IsFresh result }
        ensures soon { result.until ≤ now + PATIENCE }
    {
        Connection {
            stage: Stage::Asking,
            input: Vec::new(alloc),
            scan: Scan::new(),
            has_grown: false,
            has_ended: false,
            output: Answer::Text(String::new(alloc)),
            written: 0,
            until: now.saturating_add(PATIENCE),
        }
    }

    /// Whether it is still there.
    pub fn is_here(&self) -> bool
        ensures { result ≡ is_here self.now }
    {
        self.stage.is_here()
    }

    /// How far it has come.
    pub fn stage(&self) -> Stage
        ensures { result ≡ self.now.stage }
    {
        self.stage
    }

    /// Whether more of it is read now: of its request, until as much is kept as may be, or nothing more comes; and
    /// after its answer what is left, which is dropped.
    pub fn reads(&self) -> bool
        ensures { result ≡ connecting.reads self.now }
    {
        match self.stage {
            Stage::Asking => !self.has_ended && self.input.len() < MAX_INPUT,
            Stage::Leaving => true,
            Stage::Asked | Stage::Hearing | Stage::Gone => false,
        }
    }

    /// A piece came. If its request is awaited, it is kept, up to so many bytes in all; else it is dropped. If there is
    /// no memory for it, the connection is closed.
    pub fn take(&mut self, piece: &[u8])
        ensures takes { Takes piece.now self.old self.new }
        ensures once { AsksOnce self.old.stage self.new.stage }
        ensures few { length self.old.input.items ≤ MAX_INPUT → length self.new.input.items ≤ MAX_INPUT }
    {
        if !self.stage.is_asking() {
            return;
        }
        let before = self.input.len();
        let kept = kept_of(before, piece);
        if self.input.extend_from_slice(kept).is_err() {
            self.stage = Stage::Gone;
            return;
        }
        self.scan = self.scan.after_all(before, kept);
        self.has_grown = true;
    }

    /// Nothing more comes: the other side has closed its way of speaking. One that was answered is done with.
    pub fn end(&mut self)
        ensures once { AsksOnce self.old.stage self.new.stage }
        ensures input { self.new.input ≡ self.old.input }
    {
        self.has_ended = true;
        if self.stage == Stage::Leaving {
            self.stage = Stage::Gone;
        }
    }

    /// It is closed without an answer, or without more of it.
    pub fn leave(&mut self)
        ensures over { is_asking self.new.stage ≡ false }
        ensures gone { is_here self.new ≡ false }
        ensures input { self.new.input ≡ self.old.input }
    {
        self.stage = Stage::Gone;
    }

    // What it asks by all that came; none while that cannot be said.
    fn asking(&self, identity: &PageIdentity<'_>) -> Option<Asking>
        ensures { AsksNow identity.now self.now.scan self.now.input.items result }
    {
        match self.scan {
            Scan::NoHead => Some(Asking::Refused(Refusal::Unreadable)),
            Scan::Ended(length) if length <= MAX_HEAD => {
                let (head, rest) = self.input.split_at(length.min(self.input.len()));
                asking_after(identity, head, rest)
            }
            Scan::Ended(_) => Some(Asking::Refused(Refusal::LongHead)),
            Scan::Open(_, _) if self.input.len() > MAX_HEAD => {
                Some(Asking::Refused(Refusal::LongHead))
            }
            Scan::Open(_, _) => None,
        }
    }

    // The same, if something came since it was asked last: what has not grown is not read again.
    fn asking_anew(&mut self, identity: &PageIdentity<'_>) -> Option<Asking>
        ensures reads { ReadsIf self.old.has_grown identity.now self.old result }
        ensures after { self.new ≡ is_read self.old }
    {
        if mem::replace(&mut self.has_grown, false) {
            self.asking(identity)
        } else {
            None
        }
    }

    // What becomes of a request that has not come whole: it is refused once its time is over, or nothing more comes.
    // One that said nothing is closed without an answer.
    fn incomplete(&mut self, now: u64) -> Option<Asking>
        ensures { IsIncomplete now self.old result self.new }
    {
        if now < self.until && !self.has_ended {
            return None;
        }
        if self.input.is_empty() {
            self.stage = Stage::Gone;
            return None;
        }
        self.stage = Stage::Asked;
        Some(Asking::Refused(if self.has_ended {
            Refusal::Unreadable
        } else {
            Refusal::Late
        }))
    }

    /// What it asks now, once: as soon as that can be said by all that came; and once its time is over, that it is
    /// refused. It asks nothing after that.
    #[tactic(auto, using(crate::proofs::AskingLemmas::reads_in))]
    pub fn ask(&mut self, identity: &PageIdentity<'_>, now: u64) -> Option<Asking>
        ensures asks { AsksAt identity.now now self.old result self.new }
        ensures came { IfSome result (AsksIn identity.now self.new.input.items) }
        ensures first { IfSome result (λ _. is_asking self.old.stage ≡ true) }
        ensures over { IfSome result (λ _. is_asking self.new.stage ≡ false) }
        ensures once { AsksOnce self.old.stage self.new.stage }
        ensures late { self.old.until ≤ now → is_asking self.new.stage ≡ false }
        ensures input { self.new.input ≡ self.old.input }
    {
        if !self.stage.is_asking() {
            return None;
        }
        match self.asking_anew(identity) {
            Some(asking) => {
                self.stage = Stage::Asked;
                Some(asking)
            }
            None => self.incomplete(now),
        }
    }

    /// Answers it.
    pub fn tell(&mut self, answer: Answer, now: u64)
        ensures over { is_asking self.new.stage ≡ false }
        ensures output { self.new.output ≡ answer }
        ensures begins { self.new.written ≡ 0 }
        ensures soon { self.new.until ≤ now + PATIENCE }
        ensures input { self.new.input ≡ self.old.input }
    {
        self.output = answer;
        self.written = 0;
        self.stage = Stage::Hearing;
        self.until = now.saturating_add(PATIENCE);
    }

    /// What of its answer is still to be written; this is the page.
    pub fn rest<'b>(&'b self, page: &'b str) -> &'b [u8]
        ensures { result.now ≡ rest_of self.now page.now }
    {
        if self.stage != Stage::Hearing {
            return &[];
        }
        self.output.bytes(page).get(self.written..).unwrap_or(&[])
    }

    /// So many more bytes of its answer are written.
    pub fn wrote(&mut self, count: usize)
        ensures stage { self.new.stage ≡ self.old.stage }
        ensures input { self.new.input ≡ self.old.input }
        ensures output { self.new.output ≡ self.old.output }
        ensures written { self.old.written + count ≤ usize.MAX → self.new.written ≡ self.old.written + count }
    {
        self.written = self.written.saturating_add(count);
    }

    /// All of its answer is written: what it still says is read and dropped.
    pub fn finish(&mut self)
        ensures once { AsksOnce self.old.stage self.new.stage }
        ensures input { self.new.input ≡ self.old.input }
    {
        if self.stage == Stage::Hearing {
            self.stage = Stage::Leaving;
        }
    }

    /// Time passes: an answer has as long as a request, and then the connection is closed.
    pub fn pass(&mut self, now: u64)
        ensures once { AsksOnce self.old.stage self.new.stage }
        ensures late { is_asking self.old.stage ≡ false → self.old.until ≤ now → is_here self.new ≡ false }
        ensures input { self.new.input ≡ self.old.input }
    {
        if !self.stage.is_asking() && now >= self.until {
            self.stage = Stage::Gone;
        }
    }
}
