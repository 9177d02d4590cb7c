//! Where datagrams are received.
ghost use Rattle.std.specs.Prelude.{◌≡◌, ◌≤◌, length, IfOk};
ghost use Rattle.std.specs.Net.Socket.{socket_port};

use super::ticks::TICK;
use std::io::{self, ErrorKind};
use std::net::{SocketAddr, UdpSocket};
use std::time::Duration;

/// Where datagrams are received: a socket, or what stands for one in a test.
pub trait Receive {
    /// Waits for a datagram, for as long as a tick is apart. Answers how many bytes of it are in the buffer, and the
    /// port that it is from.
    fn receive(&mut self, buffer: &mut [u8]) -> io::Result<(usize, u16)>
        ensures within { IfOk result (λ received. received.0 ≤ length buffer.old) };

    /// The same of a datagram that is there already: it does not wait, and if none is there it is an error of the
    /// kind `WouldBlock`.
    fn receive_waiting(&mut self, buffer: &mut [u8]) -> io::Result<(usize, u16)>
        ensures within { IfOk result (λ received. received.0 ≤ length buffer.old) };
}

/// How often a socket is looked at after a datagram came, before a call waits at it: for some 50 µs.
const LOOKS: u32 = 200;

/// A socket that is waited at, or only looked at. It is set from one to the other if the calls change: of datagrams
/// that wait together each but the first costs one system call. A call that follows a datagram looks for the next one
/// before it waits: what comes at once, as the answers of several devices do, is heard without the time that it takes
/// to be woken.
#[derive(Drop)]
pub struct UdpReceiver<'a> {
    socket: &'a UdpSocket,
    waits: bool,
    // Whether a datagram came, and none was looked for in vain since.
    is_awake: bool,
}

impl<'a> UdpReceiver<'a> {
    /// From now on a wait at the socket lasts 250 ms at most.
    pub fn new(socket: &'a UdpSocket) -> io::Result<UdpReceiver<'a>> {
        socket.set_read_timeout(Some(Duration::from_millis(TICK)))?;
        socket.set_nonblocking(false)?;
        Ok(UdpReceiver {
            socket,
            waits: true,
            is_awake: false,
        })
    }

    // Has calls wait at the socket, or not.
    fn set_waits(&mut self, waits: bool) -> io::Result<()> {
        if self.waits != waits {
            self.socket.set_nonblocking(!waits)?;
            self.waits = waits;
        }
        Ok(())
    }

    // Looks for a datagram until one is there, `LOOKS` times at most.
    fn receive_soon(&mut self, buffer: &mut [u8]) -> io::Result<(usize, u16)>
        ensures within { IfOk result (λ received. received.0 ≤ length buffer.old) }
    {
        self.set_waits(false)?;
        for _ in 1..LOOKS {
            let received = self.receive_now(buffer);
            if !is_empty(&received) {
                return received;
            }
        }
        self.receive_now(buffer)
    }

    fn receive_now(&self, buffer: &mut [u8]) -> io::Result<(usize, u16)>
        ensures within { IfOk result (λ received. received.0 ≤ length buffer.old) }
    {
        let received = self.socket.recv_from(buffer)?;
        Ok(with_port(received))
    }
}

// How many bytes came, and the port of whom they came from.
fn with_port(received: (usize, SocketAddr)) -> (usize, u16)
    ensures { result ≡ (received.0, socket_port received.1) }
{
    (received.0, received.1.port())
}

// Whether no datagram was there.
fn is_empty(received: &io::Result<(usize, u16)>) -> bool {
    match received {
        Ok(_) => false,
        Err(error) => error.kind() == ErrorKind::WouldBlock,
    }
}

impl<'a> Receive for UdpReceiver<'a> {
    fn receive(&mut self, buffer: &mut [u8]) -> io::Result<(usize, u16)> {
        if self.is_awake {
            let soon = self.receive_soon(buffer);
            if !is_empty(&soon) {
                return soon;
            }
            self.is_awake = false;
        }
        self.set_waits(true)?;
        let received = self.receive_now(buffer)?;
        self.is_awake = true;
        Ok(received)
    }

    fn receive_waiting(&mut self, buffer: &mut [u8]) -> io::Result<(usize, u16)> {
        self.set_waits(false)?;
        self.receive_now(buffer)
    }
}
