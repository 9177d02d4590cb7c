//! The connections to the page. None of them can keep the others waiting: each has a second, and if there are many
//! the one that has waited longest gives way.
ghost use Rattle.std.specs.Prelude.{◌≡◌, ◌+◌, ◌≤◌, [], filter, length, vec_capacity, IfOk};
ghost use Rattle.cue_web.specs.Admitting.{Admits, Come, newest};
ghost use Rattle.cue_connection.specs.Stages.{AsksOnce};
ghost use Rattle.cue_web.specs.Serving.{HasRound, OnlyAsked, Serves, ServesEach, is_here};

use crate::pages::Pages;
use crate::wire::Wire;
use cue_desk_run::Desk;
use mio::net::{TcpListener, TcpStream};
use mio::{Interest, Registry, Token};
use std::alloc::{AllocError, Global};
use std::fs::{File, Files};
use std::io;
use std::net::{IpAddr, Ipv4Addr, Net, SocketAddr};
use std::time::Clock;

/// The most connections that are open at once.
const MAX_CONNECTIONS: usize = 128;

/// The most that are taken in one round: each of them is heard before it may have to give way.
const MAX_ADMITTED: usize = 64;

/// The token of the listener in a poll, and that of each connection.
const LISTENER: Token = Token(0);

const CONNECTION: Token = Token(1);

/// The connections, and where they come from.
#[derive(Drop)]
pub struct Connections {
    listener: TcpListener,
    // Those that are here, in the order in which they came.
    here: Vec<Wire>,
}

// The next connection that waits; none if there is none.
fn next_stream(listener: &TcpListener, registry: &Registry) -> Option<TcpStream> {
    let (mut stream, _) = listener.accept().ok()?;
    let both = Interest::READABLE | Interest::WRITABLE;
    registry.register(&mut stream, CONNECTION, both).ok()?;
    Some(stream)
}

// Hears one connection, and answers what it asks: once, and then it asks nothing more. One for whose answer there is no
// memory is closed without one.
#[tactic(auto, using(crate::proofs::ServeLemmas::served, crate::proofs::ServeLemmas::unasked, crate::proofs::ServeLemmas::once_over))]
fn serve_one<R: Files<File = File> + Net + Clock + AllocGlobal>(
    alloc: Global,
    connection: &mut Wire,
    desk: &mut Desk<'_, R>,
    pages: &mut Pages<'_>,
    now: u64,
)
    ensures serves { Serves pages.old.identity pages.old.guard pages.new.guard now connection.old connection.new
        desk.old.station desk.new.station desk.old.view desk.new.view }
    ensures once { AsksOnce connection.old.connection.stage connection.new.connection.stage }
    ensures identity { pages.new.identity ≡ pages.old.identity }
{
    let Some(asking) = connection.hear(pages.identity(), now) else {
        return;
    };
    match pages.answer(desk, alloc, &asking, now) {
        Ok(answer) => connection.tell(answer, now),
        Err(AllocError) => connection.leave(),
    }
}

// The same, and goes on with its answer: what it said stays, and it does not ask again.
#[tactic(auto, using(crate::proofs::ServeLemmas::serves_on, crate::proofs::ServeLemmas::once_then))]
fn serve_next<R: Files<File = File> + Net + Clock + AllocGlobal>(
    alloc: Global,
    connection: &mut Wire,
    desk: &mut Desk<'_, R>,
    pages: &mut Pages<'_>,
    now: u64,
)
    ensures serves { Serves pages.old.identity pages.old.guard pages.new.guard now connection.old connection.new
        desk.old.station desk.new.station desk.old.view desk.new.view }
    ensures once { AsksOnce connection.old.connection.stage connection.new.connection.stage }
    ensures identity { pages.new.identity ≡ pages.old.identity }
{
    serve_one(alloc, connection, desk, pages, now);
    connection.go_on(pages.page(), now);
}

// Serves each of these connections, one after the other.
fn serve_each<R: Files<File = File> + Net + Clock + AllocGlobal>(
    alloc: Global,
    here: &mut Vec<Wire>,
    desk: &mut Desk<'_, R>,
    pages: &mut Pages<'_>,
    now: u64,
)
    ensures each { ServesEach pages.old.identity pages.new.identity pages.old.guard pages.new.guard now here.old.items
        here.new.items desk.old.station desk.new.station }
    ensures room { vec_capacity here.new ≡ vec_capacity here.old }
{
    for connection in here.iter_mut() {
        serve_next(alloc, connection, desk, pages, now);
    }
}

// Sends away those that have waited longest, if more are here than may be: they stand in the order in which they came.
fn make_room(here: &mut Vec<Wire>)
    ensures newest { here.new.items ≡ newest here.old.items }
    ensures room { vec_capacity here.new ≡ vec_capacity here.old }
{
    let surplus = here.len().saturating_sub(MAX_CONNECTIONS);
    for _ in 0..surplus {
        let _ = here.remove(0);
    }
}

// Drops those that are gone.
fn drop_gone(here: &mut Vec<Wire>)
    ensures stay { here.new.items ≡ filter is_here here.old.items }
    ensures room { vec_capacity here.new ≡ vec_capacity here.old }
{
    here.retain(|connection| connection.is_here());
}

impl Connections {
    /// Listens at this port of 127.0.0.1 alone. Nobody is here yet.
    pub fn new<R: Net + AllocGlobal>(
        rt: &R,
        registry: &Registry,
        port: u16,
    ) -> io::Result<Connections>
        ensures nobody { IfOk result (λ connections. connections.here.items ≡ []) }
        ensures room { IfOk result (λ connections.
            MAX_CONNECTIONS + MAX_ADMITTED ≤ vec_capacity connections.here) }
    {
        let address = SocketAddr::new(IpAddr::V4(Ipv4Addr::LOCALHOST), port);
        let mut listener = TcpListener::bind(rt, address)?;
        registry.register(&mut listener, LISTENER, Interest::READABLE)?;
        Ok(Connections {
            listener,
            here: Vec::with_capacity(rt.alloc(), MAX_CONNECTIONS + MAX_ADMITTED)?,
        })
    }

    // Takes those that wait, one after the other, and drops one for which there is no memory. Answers whether more may
    // wait.
    fn take_waiting(&mut self, alloc: Global, registry: &Registry, now: u64) -> bool
        ensures come { Come (vec_capacity self.old.here) self.old.here.items self.new.here.items result }
        ensures room { vec_capacity self.old.here ≤ vec_capacity self.new.here }
    {
        for _ in 0..MAX_ADMITTED {
            let Some(stream) = next_stream(&self.listener, registry) else {
                return false;
            };
            let _ = self.here.push(Wire::new(alloc, stream, now));
        }
        true
    }

    /// Takes the connections that wait. Answers whether more of them may: then the next round must not be waited for.
    #[tactic(auto, using(crate::proofs::AdmitLemmas::admits, crate::proofs::AdmitLemmas::newest_few))]
    pub fn admit(&mut self, alloc: Global, registry: &Registry, now: u64) -> bool
        ensures admits { Admits (vec_capacity self.old.here) self.old.here.items self.new.here.items result }
        ensures few { length self.new.here.items ≤ MAX_CONNECTIONS }
        ensures room { vec_capacity self.old.here ≤ vec_capacity self.new.here }
    {
        let may_wait = self.take_waiting(alloc, registry, now);
        make_room(&mut self.here);
        may_wait
    }

    /// One round over all connections. Each is served once, and none asks again that has asked; the desk hears no other
    /// press.
    #[tactic(auto, using(crate::proofs::RoundLemmas::has_round, crate::proofs::RoundLemmas::round_asked))]
    pub fn serve<R: Files<File = File> + Net + Clock + AllocGlobal>(
        &mut self,
        alloc: Global,
        desk: &mut Desk<'_, R>,
        pages: &mut Pages<'_>,
        now: u64,
    )
        ensures round { HasRound pages.old.identity pages.new.identity pages.old.guard pages.new.guard now
            self.old.here.items self.new.here.items desk.old.station desk.new.station }
        ensures asked { OnlyAsked pages.old.identity pages.new.identity pages.old.guard pages.new.guard
            desk.old.station desk.new.station }
        ensures room { vec_capacity self.new.here ≡ vec_capacity self.old.here }
    {
        serve_each(alloc, &mut self.here, desk, pages, now);
        drop_gone(&mut self.here);
    }
}
