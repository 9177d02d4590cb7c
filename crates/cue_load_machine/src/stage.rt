//! How far a load has come.
ghost use Rattle.std.specs.Prelude.{◌≡◌};
ghost use Rattle.cue_load_machine.specs.Stages as stages;

use crate::asks::{Form, MAX_SENDINGS};
use cue_loading::Manner;
use cue_machine::Output;

/// By how many sockets a load sends. One at which a reply did not come in time is used again only after all others:
/// so a late reply is not taken for that to another message.
pub const SOCKETS: usize = 32;

/// A message that is to be sent.
#[derive(Clone, Copy, Debug, PartialEq, Eq)]
pub struct Try {
    /// Its place in the load.
    pub place: usize,
    /// How often it may be sent yet.
    pub left: u32,
    /// By which socket.
    pub socket: usize,
}

/// A message that was sent.
#[derive(Clone, Copy, Debug, PartialEq, Eq)]
pub struct Waits {
    pub of: Try,
    /// When it was sent, or when the last reply to it came.
    pub since: u64,
    /// How many of its replies have not come.
    pub rest: usize,
    /// The place of what the next one is for.
    pub slot: usize,
}

/// How a load ended.
#[derive(Clone, Copy, Debug, PartialEq, Eq)]
pub enum LoadEnd {
    /// All was replied to.
    Done,
    /// The message of this place was refused by this code, and the load stopped.
    Refused { place: usize, code: i32 },
    /// Nobody replied to the message of this place, as often as it was sent.
    Silent { place: usize },
    /// Nobody listened where the message of this place was sent.
    Nobody { place: usize },
    /// The copy of the store could not be written, and without it nothing is taken away.
    NotKept,
}

/// How far a load has come.
#[derive(Clone, Copy, Debug, PartialEq, Eq)]
pub enum Stage {
    /// The copy of the store is to be written.
    Copies,
    /// A message is to be sent.
    Sends(Try),
    /// It was sent, and not all of its replies have come.
    Waits(Waits),
    Over(LoadEnd),
}

/// The socket after this one.
pub fn next_socket(socket: usize) -> usize
    ensures { result ≡ stages.next_socket socket }
{
    if socket < SOCKETS - 1 { socket + 1 } else { 0 }
}

/// The place after this one, and after so many more.
pub fn next_place(place: usize, covers: usize) -> usize
    ensures { result ≡ stages.next_place place covers }
{
    place.saturating_add(1).saturating_add(covers)
}

/// The place of the first thing that this message asks.
pub fn first_slot(form: Form, place: usize) -> usize
    ensures { result ≡ stages.first_slot form place }
{
    match form {
        Form::Alone => place,
        Form::Together(_) => place.saturating_add(1),
    }
}

/// The place after this one.
pub fn next_slot(slot: usize) -> usize
    ensures { result ≡ stages.next_slot slot }
{
    slot.saturating_add(1)
}

/// When the time for the next reply ends, to a message that was sent, or replied to last, at this moment.
pub fn late_at(form: Form, since: u64) -> u64
    ensures { result ≡ stages.late_at form since }
{
    since.saturating_add(form.patience())
}

/// Whether it has ended.
pub fn is_late(form: Form, since: u64, now: u64) -> bool
    ensures { result ≡ stages.is_late form since now }
{
    late_at(form, since) <= now
}

impl Try {
    /// Once it was sent at this moment.
    pub fn sent(self, form: Form, now: u64) -> Waits
        ensures { result ≡ stages.sent form self now }
    {
        let left = self.left.saturating_sub(1);
        Waits {
            of: Try {
                place: self.place,
                left,
                socket: self.socket,
            },
            since: now,
            rest: form.replies(),
            slot: first_slot(form, self.place),
        }
    }

    /// The same, by the next socket.
    pub fn again(self) -> Try
        ensures { result ≡ stages.again self }
    {
        Try {
            place: self.place,
            left: self.left,
            socket: next_socket(self.socket),
        }
    }
}

impl Waits {
    /// One of its replies has come at this moment.
    pub fn one_less(self, now: u64) -> Waits
        ensures { result ≡ stages.one_less self now }
    {
        Waits {
            of: self.of,
            since: now,
            rest: self.rest.saturating_sub(1),
            slot: next_slot(self.slot),
        }
    }
}

impl LoadEnd {
    /// The place of the message at which it ended; if all is done, this one.
    pub fn place(self, all: usize) -> usize
        ensures { result ≡ stages.end_place all self }
    {
        match self {
            LoadEnd::Done => all,
            LoadEnd::Refused { place, .. } => place,
            LoadEnd::Silent { place } => place,
            LoadEnd::Nobody { place } => place,
            LoadEnd::NotKept => 0,
        }
    }

    // How many messages were asked, of so many.
    fn asked(self, all: usize) -> usize
        ensures { result ≡ stages.end_asked all self }
    {
        match self {
            LoadEnd::Done => all,
            LoadEnd::Refused { place, .. } => next_slot(place),
            LoadEnd::Silent { place } => next_slot(place),
            LoadEnd::Nobody { place } => next_slot(place),
            LoadEnd::NotKept => 0,
        }
    }
}

impl Stage {
    /// The stage once it was told that this was lost. If that was the copy, a load that takes something away is over; a
    /// message that was lost is one to which nobody replies.
    pub fn lost(self, manner: Manner, output: Output) -> Stage
        ensures { result ≡ stages.lost manner self output }
    {
        match output {
            Output::Replace => {
                if manner.goes_on(false) {
                    self
                } else {
                    Stage::Over(LoadEnd::NotKept)
                }
            }
            Output::Send { .. } => self,
            Output::Print => self,
            Output::Say => self,
        }
    }

    /// The place of the message whose turn it is; if all is done, this one.
    pub fn place(self, all: usize) -> usize
        ensures { result ≡ stages.place_of all self }
    {
        match self {
            Stage::Copies => 0,
            Stage::Sends(of) => of.place,
            Stage::Waits(waits) => waits.of.place,
            Stage::Over(end) => end.place(all),
        }
    }

    /// How many messages were asked, of so many.
    pub fn asked(self, all: usize) -> usize
        ensures { result ≡ stages.asked_at all self }
    {
        match self {
            Stage::Copies => 0,
            Stage::Sends(of) => {
                if of.left < MAX_SENDINGS {
                    next_slot(of.place)
                } else {
                    of.place
                }
            }
            Stage::Waits(waits) => next_slot(waits.of.place),
            Stage::Over(end) => end.asked(all),
        }
    }

    /// How it ended, if it is over.
    pub fn end(self) -> Option<LoadEnd>
        ensures { result ≡ stages.end_of self }
    {
        match self {
            Stage::Copies => None,
            Stage::Sends(_) => None,
            Stage::Waits(_) => None,
            Stage::Over(end) => Some(end),
        }
    }

    /// Whether it is over.
    pub fn is_over(self) -> bool
        ensures { result ≡ stages.is_over self }
    {
        match self {
            Stage::Copies => false,
            Stage::Sends(_) => false,
            Stage::Waits(_) => false,
            Stage::Over(_) => true,
        }
    }
}
