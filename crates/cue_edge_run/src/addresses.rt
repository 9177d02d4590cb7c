//! Addresses of this machine's sockets, and of who is at the other end.
ghost use Rattle.std.specs.Prelude.{◌≡◌, ◌+◌, IfOk, OnOk, length, vec_len};

use cue_machine::Address;
use mio::net::UdpSocket;
use std::io;
use std::net::{IpAddr, Ipv4Addr, Net, SocketAddr};

/// There is no socket at this address.
#[derive(Debug, Drop)]
pub struct BindFault {
    pub address: Address,
    pub why: io::Error,
}

/// The address as a socket has it.
pub fn socket_address(address: Address) -> SocketAddr {
    SocketAddr::new(IpAddr::V4(Ipv4Addr::from_bits(address.host)), address.port)
}

/// Who is at the other end; none of IPv6: no socket here has such a peer.
pub fn address_of(peer: SocketAddr) -> Option<Address> {
    match peer {
        SocketAddr::V4(peer) => Some(Address {
            host: peer.ip().to_bits(),
            port: peer.port(),
        }),
        SocketAddr::V6(_) => None,
    }
}

// One socket more, if there is one at this address.
fn bind_one<R: Net>(rt: &R, sockets: &mut Vec<UdpSocket>, address: Address) -> io::Result<()>
    ensures { OnOk result (vec_len sockets.new ≡ vec_len sockets.old + 1) }
{
    let socket = UdpSocket::bind(rt, socket_address(address))?;
    sockets.push(socket)?;
    Ok(())
}

/// A socket at each of these addresses, in their order.
pub fn bind<R: Net + AllocGlobal>(
    rt: &R,
    addresses: &[Address],
) -> Result<Vec<UdpSocket>, BindFault>
    ensures { IfOk result (λ sockets. vec_len sockets ≡ length addresses.now) }
{
    let mut sockets = Vec::new(rt.alloc());
    for address in addresses {
        if let Err(why) = bind_one(rt, &mut sockets, *address) {
            return Err(BindFault {
                address: *address,
                why,
            });
        }
    }
    Ok(sockets)
}

/// One socket of the same host as this address, connected to it: it hears no other, and the system says at it that
/// nobody listens there.
pub fn connected<R: Net + AllocGlobal>(rt: &R, to: Address) -> io::Result<Vec<UdpSocket>>
    ensures { IfOk result (λ sockets. vec_len sockets ≡ 1) }
{
    let from = Address {
        host: to.host,
        port: 0,
    };
    let socket = UdpSocket::bind(rt, socket_address(from))?;
    socket.connect(socket_address(to))?;
    Ok(vec![in rt.alloc(); socket]?)
}
