//! The one way out of a desk. Each letter leaves here and nowhere else, and what has left stands here: so a contract
//! can say it, though none can say what a socket does.
ghost use Rattle.std.specs.Prelude.{◌≡◌, ◌<◌, ◌-◌, ◌^◌, [], IfOk, IfSome, OnErr, OnOk, is_err, is_some, option_map};
ghost use Rattle.cue_ask_machine.specs.Sending.{Leaves};
ghost use Rattle.cue_desk_run.specs.Failing.{noted};
ghost use Rattle.cue_desk_run.specs.Leaving.{IsUnused, MessageLeaves, NothingLeaves, SaysWhoAsks, is_said};

use crate::addresses::local;
use crate::failing::Tries;
use cue_ask_machine::{Letter, name_datagram, send_letter};
use cue_asker::AskerName;
use cue_edge_run::SocketPost;
use cue_machine::{Post, PostFault};
use cue_show_file::Group;
use mio::net::UdpSocket;
use mio::{Interest, Registry, Token};
use std::alloc::Global;
use std::io::{self, ErrorKind};
use std::net::Net;
use std::slice;

/// The token of these sockets in a poll.
const REPLIES: Token = Token(2);

/// How what a desk sends is written, and where it goes.
#[derive(Clone, Copy)]
pub(crate) struct Way<'a> {
    /// The controller's port of this machine.
    pub(crate) port: u16,
    /// Who presses, if that is to be said.
    pub(crate) name: Option<AskerName>,
    /// The cues that stand by together.
    pub(crate) together: &'a [Group],
}

/// The way out, and what has left by it.
#[derive(Drop)]
pub(crate) struct Outlet<'a> {
    way: Way<'a>,
    // How many letters have left, and the datagram of the newest.
    count: u64,
    newest: Vec<u8>,
    // What became of the tries to send.
    tries: Tries,
}

// A socket of its own, which hears the controller's port and no other.
fn open_socket<R: Net>(rt: &R, registry: &Registry, port: u16) -> io::Result<UdpSocket> {
    let mut socket = UdpSocket::bind(rt, local(0))?;
    socket.connect(local(port))?;
    registry.register(&mut socket, REPLIES, Interest::READABLE)?;
    Ok(socket)
}

// The datagram that says who asks, if that is to be said: a question for the status does not say it.
fn name_for(alloc: Global, name: Option<AskerName>, is_status: bool) -> io::Result<Option<Vec<u8>>>
    ensures said { IfOk result (λ said. is_some said ≡ is_said is_status name) }
    ensures who { IfOk result (λ said. IfSome said (λ bytes. SaysWhoAsks bytes.items)) }
{
    match name {
        Some(name) if !is_status => match name_datagram(alloc, name.text()) {
            Ok(message) => Ok(Some(message)),
            Err(_) => Err(io::Error::from(ErrorKind::OutOfMemory)),
        },
        _ => Ok(None),
    }
}

// Why a datagram did not leave.
fn why_lost(fault: Option<io::Error>) -> io::Error {
    match fault {
        Some(why) => why,
        None => io::Error::from(ErrorKind::Other),
    }
}

impl<'a> Outlet<'a> {
    /// The way out, by which nothing has left yet.
    pub(crate) fn new(alloc: Global, way: Way<'a>) -> Outlet<'a>
        ensures unused { IsUnused result }
        ensures way { result.way ≡ way.entry }
    {
        Outlet {
            way,
            count: 0,
            newest: Vec::new(alloc),
            tries: Tries::new(),
        }
    }

    /// The cues that stand by together.
    pub(crate) fn together(&self) -> &'a [Group]
        ensures { result.now ≡ self.now.way.together.now }
    {
        self.way.together
    }

    // Lets a message out, after who asks, if that is to be said. It is the newest, if it left.
    fn let_out<P: Post>(
        &mut self,
        post: &mut P,
        name: Option<&[u8]>,
        message: Vec<u8>,
    ) -> Result<(), PostFault>
        requires { self.old.count < 2 ^ 64 - 1 }
        ensures posted { Leaves self.old.way.port (option_map (λ v. v.now) name.entry) message.items (is_err result)
            (P.left post.old) (P.left post.new) }
        ensures left { OnOk result (MessageLeaves message.items self.old self.new) }
        ensures lost { OnErr result (self.new ≡ self.old) }
    {
        match send_letter(post, self.way.port, name, &message) {
            Ok(()) => {
                self.count += 1;
                self.newest = message;
                Ok(())
            }
            Err(PostFault) => {
                drop(message);
                Err(PostFault)
            }
        }
    }

    // Sends a letter from this socket. Once as many have left as can be counted, no more do.
    #[tactic(auto, using(crate::proofs::LeaveLemmas::message_as))]
    fn post(&mut self, alloc: Global, socket: &UdpSocket, letter: &Letter) -> io::Result<()>
        ensures left { OnOk result (MessageLeaves letter.now.message.items self.old self.new) }
        ensures lost { OnErr result (self.new ≡ self.old) }
    {
        if self.count == u64::MAX {
            return Err(io::Error::from(ErrorKind::OutOfMemory));
        }
        let name = name_for(alloc, self.way.name, letter.is_status)?;
        let message = letter.message.clone()?;
        let mut post = SocketPost::new(slice::from_ref(socket));
        match self.let_out(&mut post, name.as_deref(), message) {
            Ok(()) => Ok(()),
            Err(PostFault) => Err(why_lost(post.take_fault())),
        }
    }

    /// Sends a letter, once, and gives the socket of its own from which it left.
    pub(crate) fn send<R: Net + AllocGlobal>(
        &mut self,
        rt: &R,
        registry: &Registry,
        letter: &Letter,
    ) -> io::Result<UdpSocket>
        ensures left { OnOk result (MessageLeaves letter.now.message.items self.old self.new) }
        ensures lost { OnErr result (self.new ≡ self.old) }
    {
        let socket = open_socket(rt, registry, self.way.port)?;
        match self.post(rt.alloc(), &socket, letter) {
            Ok(()) => Ok(socket),
            Err(why) => {
                drop(socket);
                Err(why)
            }
        }
    }

    /// Notes what became of a try to send.
    pub(crate) fn note(&mut self, posted: io::Result<()>)
        ensures left { NothingLeaves self.old self.new }
        ensures noted { self.new.tries ≡ noted posted self.old.tries }
    {
        self.tries.note(posted);
    }

    /// Why what was to be sent could not be, once.
    pub(crate) fn take_fault(&mut self) -> Option<io::Error>
        ensures { NothingLeaves self.old self.new }
    {
        self.tries.take()
    }
}
