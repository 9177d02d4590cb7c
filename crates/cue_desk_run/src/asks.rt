//! What a desk asks: a socket for each ask, so that no reply is taken for that to another one. Nothing here waits.
ghost use Rattle.std.specs.Prelude.{◌≡◌, ◌<◌, [], IfNone, IfSome, OnErr, OnOk, count_by, position, remove};
ghost use Rattle.std.specs.Prelude.{vec_capacity, vec_len};
ghost use Rattle.cue_ask_machine.specs.Letters as letter;
ghost use Rattle.cue_desk_run.specs.Asking as asking;
ghost use Rattle.cue_desk_run.specs.Failing.{noted};
ghost use Rattle.cue_desk_run.specs.Leaving.{IsUnused, MessageLeaves, NothingLeaves};
ghost use Rattle.cue_desk_run.specs.Working.{IsUnpressed};

use crate::ask::Ask;
use crate::outlet::{Outlet, Way};
use cue_ask_machine::{Letter, is_status};
use cue_desk::orders::DeskCommand;
use cue_show_file::Group;
use cue_station::heard::Heard;
use mio::Registry;
use mio::net::UdpSocket;
use std::alloc::Global;
use std::io;
use std::net::Net;

/// The most presses whose answers are awaited at once. With the newest question for the status they are all asks.
const MAX_PRESSES: usize = 2;

/// The asks whose answers are awaited, the oldest first, and the way out.
#[derive(Drop)]
pub(crate) struct Asks<'a> {
    outlet: Outlet<'a>,
    awaited: Vec<Ask>,
}

// The most asks of a kind that are open.
fn most_of(is_status: bool) -> usize
    ensures { result ≡ asking.most_of is_status }
{
    if is_status { 1 } else { MAX_PRESSES }
}

// How many asks are of a kind.
fn count_of(asks: &[Ask], is_status: bool) -> usize
    ensures { result ≡ count_by (asking.is_of_kind is_status) asks.now }
{
    asks.iter().filter(|ask| ask.is_of_kind(is_status)).count()
}

// The place of the oldest ask of a kind.
fn oldest_of(asks: &[Ask], is_status: bool) -> Option<usize>
    ensures { result ≡ position (asking.is_of_kind is_status) asks.now }
{
    asks.iter().position(|ask| ask.is_of_kind(is_status))
}

// The first answer that is there, with the place of its ask.
fn first_answer(asks: &[Ask], alloc: Global) -> Option<(usize, Heard)>
    ensures { IfSome result (λ found. asking.IsAnswer asks.now found.0 found.1) }
{
    for (place, ask) in asks.iter().enumerate() {
        if let Some(heard) = ask.answer(alloc) {
            return Some((place, heard));
        }
    }
    None
}

impl<'a> Asks<'a> {
    /// Nothing is asked yet.
    pub(crate) fn new(alloc: Global, way: Way<'a>) -> Asks<'a>
        ensures stay { result.awaited.items ≡ [] }
        ensures unused { IsUnused result.outlet }
        ensures way { result.outlet.way ≡ way.entry }
    {
        Asks {
            outlet: Outlet::new(alloc, way),
            awaited: Vec::new(alloc),
        }
    }

    /// The cues that stand by together.
    pub(crate) fn together(&self) -> &'a [Group]
        ensures { result.now ≡ self.now.outlet.way.together.now }
    {
        self.outlet.together()
    }

    // Closes the ask at this place.
    fn close(&mut self, place: usize)
        requires { place < vec_len self.old.awaited }
        ensures closed { self.new.awaited.items ≡ remove self.old.awaited.items place }
        ensures outlet { self.new.outlet ≡ self.old.outlet }
    {
        let _ = self.awaited.remove(place);
    }

    /// Closes what this asks anew: the last question for the status, or the older one of two presses.
    #[tactic(auto, using(crate::proofs::AskLemmas::room_there, crate::proofs::AskLemmas::room_none, crate::proofs::AskLemmas::room_made, crate::proofs::AskLemmas::oldest_within))]
    pub(crate) fn make_room(&mut self, order: DeskCommand)
        ensures room { self.new.awaited.items ≡ asking.with_room (letter.is_status order) self.old.awaited.items }
        ensures outlet { self.new.outlet ≡ self.old.outlet }
    {
        let is_status = is_status(order);
        if count_of(&self.awaited, is_status) < most_of(is_status) {
            return;
        }
        if let Some(place) = oldest_of(&self.awaited, is_status) {
            self.close(place);
        }
    }

    // Sends a letter, once there is memory for one more ask.
    fn send<R: Net + AllocGlobal>(
        &mut self,
        rt: &R,
        registry: &Registry,
        letter: &Letter,
    ) -> io::Result<UdpSocket>
        ensures stay { self.new.awaited.items ≡ self.old.awaited.items }
        ensures left { OnOk result (MessageLeaves letter.now.message.items self.old.outlet self.new.outlet) }
        ensures lost { OnErr result (self.new.outlet ≡ self.old.outlet) }
        ensures room { OnOk result (vec_len self.new.awaited < vec_capacity self.new.awaited) }
    {
        self.awaited.reserve(1)?;
        self.outlet.send(rt, registry, letter)
    }

    /// Sends a letter, once, from a socket of its own, at which its answer is awaited then. There is to be room for it.
    #[tactic(auto, using(crate::proofs::AskLemmas::adds))]
    pub(crate) fn post<R: Net + AllocGlobal>(
        &mut self,
        rt: &R,
        registry: &Registry,
        letter: Letter,
    ) -> io::Result<()>
        ensures asked { OnOk result (asking.Adds letter self.old.awaited.items self.new.awaited.items) }
        ensures left { OnOk result (MessageLeaves letter.message.items self.old.outlet self.new.outlet) }
        ensures stay { OnErr result (self.new.awaited.items ≡ self.old.awaited.items) }
        ensures lost { OnErr result (self.new.outlet ≡ self.old.outlet) }
    {
        match self.send(rt, registry, &letter) {
            Ok(socket) => Ok(self.awaited.push(Ask { letter, socket })?),
            Err(why) => {
                drop(letter);
                Err(why)
            }
        }
    }

    /// Notes what became of a try to send.
    pub(crate) fn note(&mut self, posted: io::Result<()>)
        ensures left { NothingLeaves self.old.outlet self.new.outlet }
        ensures noted { self.new.outlet.tries ≡ noted posted self.old.outlet.tries }
    {
        self.outlet.note(posted);
    }

    /// Why what was to be sent could not be, once.
    pub(crate) fn take_fault(&mut self) -> Option<io::Error>
        ensures { NothingLeaves self.old.outlet self.new.outlet }
    {
        self.outlet.take_fault()
    }

    /// The next answer that is there. Its ask is closed then: it has one answer at most.
    #[tactic(auto, using(crate::proofs::AskLemmas::closes, crate::proofs::AskLemmas::answer_unpressed, crate::proofs::AskLemmas::answer_within))]
    pub(crate) fn hear(&mut self, alloc: Global) -> Option<Heard>
        ensures unpressed { IfSome result IsUnpressed }
        ensures closes { IfSome result (λ heard. asking.Closes heard self.old.awaited.items self.new.awaited.items) }
        ensures none { IfNone result (self.new.awaited.items ≡ self.old.awaited.items) }
        ensures outlet { self.new.outlet ≡ self.old.outlet }
    {
        let (place, heard) = first_answer(&self.awaited, alloc)?;
        self.close(place);
        Some(heard)
    }
}
