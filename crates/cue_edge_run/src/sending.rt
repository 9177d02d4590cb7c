//! A datagram that goes out, and a post for no more than that.
ghost use Rattle.std.specs.Prelude.{None};

use crate::addresses::socket_address;
use cue_machine::{Address, Output, Post, PostFault};
use mio::net::UdpSocket;
use std::io::{self, ErrorKind};

/// Sends a datagram whole, by the socket of this place.
pub fn send_by(sockets: &[UdpSocket], by: usize, to: Address, bytes: &[u8]) -> io::Result<()> {
    let Some(socket) = sockets.get(by) else {
        return Err(io::Error::from(ErrorKind::NotFound));
    };
    if socket.send_to(bytes, socket_address(to))? == bytes.len() {
        Ok(())
    } else {
        Err(io::Error::from(ErrorKind::WriteZero))
    }
}

/// The post of a machine that sends datagrams and gives nothing else. It shows nothing of what went out, and knows why
/// what was lost last did not.
#[derive(Drop)]
pub struct SocketPost<'a> {
    sockets: &'a [UdpSocket],
    fault: Option<io::Error>,
}

impl<'a> SocketPost<'a> {
    /// By these sockets.
    pub fn new(sockets: &'a [UdpSocket]) -> SocketPost<'a> {
        SocketPost {
            sockets,
            fault: None,
        }
    }

    /// Why what was lost last did not go out, once.
    pub fn take_fault(&mut self) -> Option<io::Error> {
        self.fault.take()
    }
}

impl<'a> Post for SocketPost<'a> {
    ghost left = { λ _. None };

    fn post(&mut self, output: Output, bytes: &[u8]) -> Result<(), PostFault> {
        let done = match output {
            Output::Send { by, to } => send_by(self.sockets, by, to, bytes),
            Output::Print | Output::Say | Output::Replace => {
                Err(io::Error::from(ErrorKind::NotFound))
            }
        };
        match done {
            Ok(()) => Ok(()),
            Err(why) => {
                self.fault = Some(why);
                Err(PostFault)
            }
        }
    }
}
