//! Addresses of this machine.
ghost use Rattle.std.specs.Prelude.{◌≡◌};
ghost use Rattle.std.specs.Net.Socket.{socket_ip, socket_port};
ghost use Rattle.cue_desk_run.specs.Sockets.{IsHome};

use std::net::{IpAddr, Ipv4Addr, SocketAddr};

/// A port of this machine: no other one reaches it, and it reaches no other.
pub fn local(port: u16) -> SocketAddr
    ensures host { IsHome (socket_ip result) }
    ensures port { socket_port result ≡ port }
{
    SocketAddr::new(IpAddr::V4(Ipv4Addr::LOCALHOST), port)
}
