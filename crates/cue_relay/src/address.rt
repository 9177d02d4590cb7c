//! The address of a device, as a text.
ghost use Rattle.std.specs.Prelude.{◌≡◌, IfNone, IfSome, IsTrue};
ghost use Rattle.std.specs.Net.Addr.{ipv4_bits};
ghost use Rattle.std.specs.Net.Grammar.{IsSocketV4Text};
ghost use Rattle.std.specs.declared.net.socket_addr.SocketAddrV4 as std_net;
ghost use Rattle.cue_relay.specs.Addresses.{Names};
ghost use Rattle.cue_relay.specs.Fitting.{FitsAddress};
ghost use Rattle.cue_relay.specs.Status.{is_address};
ghost use Rattle.cue_relay.specs.declared.route.Address as declared;

use crate::route::Address;
use std::fmt;
use std::net::{Ipv4Addr, SocketAddrV4};

impl fmt::Display for Address {
    ghost use Rattle.std.specs.Prelude.{Some};
    ghost use Rattle.cue_relay.specs.Status.{address_text};

    ghost output = { λ address. Some (address_text address) };

    fn fmt<W: fmt::Write>(&self, f: &mut fmt::Formatter<W>) -> fmt::Result {
        write!(f, "{}:{}", Ipv4Addr::from_bits(self.host), self.port)
    }
}

impl Address {
    // Whether it has neither the host 0.0.0.0 nor the port 0.
    pub(crate) fn is_fit(self) -> bool
        ensures { result ≡ is_address self }
    {
        self.host != 0 && self.port != 0
    }

    // The address that std has so.
    fn of_socket(socket: &SocketAddrV4) -> Address
        ensures host { result.host ≡ ipv4_bits socket.now.ip }
        ensures port { result.port ≡ socket.now.port }
    {
        Address {
            host: socket.ip().to_bits(),
            port: socket.port(),
        }
    }

    /// The address that a text as `10.0.7.31:9001` names; None if it names none, or the host 0.0.0.0 or the port 0.
    /// Files that name devices are read by it.
    pub fn read(text: &str) -> Option<Address>
        ensures found { IfSome result (λ a. Names text.now a) }
        ensures fit { IfSome result (λ a. IsTrue (is_address a)) }
        ensures none { IfNone result ((a : declared.Address) → FitsAddress a → IsTrue (is_address a)
            → Names text.now a → ⊥) }
    {
        let Some(socket) = socket_in(text) else {
            return None;
        };
        let address = Address::of_socket(&socket);
        if address.is_fit() {
            Some(address)
        } else {
            None
        }
    }
}

// What std reads a text as.
fn socket_in(text: &str) -> Option<SocketAddrV4>
    ensures found { IfSome result (λ s. IsSocketV4Text text.now s) }
    ensures none { IfNone result ((s : std_net.SocketAddrV4) → IsSocketV4Text text.now s → ⊥) }
{
    match text.parse() {
        Ok(socket) => Some(socket),
        Err(_) => None,
    }
}
