//! Who is on a network.
use std::fmt;
use std::net::Ipv4Addr;

/// An IPv4 address and a port.
#[derive(Clone, Copy, Debug, PartialEq, Eq)]
pub struct Address {
    /// The four octets as one number, the first one highest.
    pub host: u32,
    pub port: u16,
}

impl fmt::Display for Address {
    ghost use Rattle.std.specs.Prelude.{Some};
    ghost use Rattle.cue_machine.specs.Addresses.{address_text};

    ghost output = { λ address. Some (address_text address) };

    fn fmt<W: fmt::Write>(&self, f: &mut fmt::Formatter<W>) -> fmt::Result {
        write!(f, "{}:{}", Ipv4Addr::from_bits(self.host), self.port)
    }
}
