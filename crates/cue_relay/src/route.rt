//! Who may send to whom through the relay.
ghost use Rattle.std.specs.Prelude.{◌≡◌};
ghost use Rattle.cue_relay.specs.Relaying.{across, is_same, way_by, way_of, who_is_at};

use cue_osc::MAX_LEN;
use cue_show::DeviceNo;

/// An IPv4 address and a port.
#[derive(Clone, Copy, Debug, PartialEq, Eq)]
pub struct Address {
    /// The four octets as one number, the first one highest.
    pub host: u32,
    pub port: u16,
}

/// The way of a device's datagrams: from the controller at a local port to the device's own address, and back.
#[derive(Clone, Copy, Debug, PartialEq, Eq)]
pub struct Route {
    pub device: DeviceNo,
    /// The port at which the relay has a socket on either side.
    pub port: u16,
    /// If the device itself is, on the stage's network.
    pub address: Address,
}

/// The two sides of the relay.
#[derive(Clone, Copy, Debug, PartialEq, Eq)]
pub enum Side {
    /// 127.0.0.1, where the controller is.
    Controller,
    /// The stage's network, where the devices are.
    Stage,
}

/// A socket of the relay: that of one route on one side.
#[derive(Clone, Copy, Debug, PartialEq, Eq)]
pub struct Opening {
    /// The place of the route among all of them, from 0.
    pub route: usize,
    pub side: Side,
}

/// How a datagram goes on.
#[derive(Clone, Copy, Debug, PartialEq, Eq)]
pub struct Way {
    /// The socket that it leaves by.
    pub out: Opening,
    /// Whom it is for.
    pub to: Address,
}

// The other side.
fn across(side: Side) -> Side
    ensures { result ≡ across side }
{
    match side {
        Side::Controller => Side::Stage,
        Side::Stage => Side::Controller,
    }
}

// Who is at a side of a route.
fn who_is_at(controller: Address, route: &Route, side: Side) -> Address
    ensures { result ≡ who_is_at controller route.now side }
{
    match side {
        Side::Controller => controller,
        Side::Stage => route.address,
    }
}

// Whether it is the same host and port.
fn is_same(one: Address, other: Address) -> bool
    ensures { result ≡ is_same one other }
{
    one.host == other.host && one.port == other.port
}

// How a datagram goes on that came at an opening of this route from this sender.
fn way_by(controller: Address, route: &Route, at: Opening, from: Address) -> Option<Way>
    ensures { result ≡ way_by controller route.now at from }
{
    if !is_same(from, who_is_at(controller, route, at.side)) {
        return None;
    }
    let side = across(at.side);
    let out = Opening {
        route: at.route,
        side,
    };
    let to = who_is_at(controller, route, side);
    Some(Way { out, to })
}

/// How a datagram of so many bytes goes on that came at this opening from this sender; None if it is dropped.
pub fn way_of(
    controller: Address,
    routes: &[Route],
    at: Opening,
    from: Address,
    len: usize,
) -> Option<Way>
    ensures { result ≡ way_of controller routes.now at from len }
{
    if len > MAX_LEN {
        return None;
    }
    match routes.get(at.route) {
        Some(route) => way_by(controller, route, at, from),
        None => None,
    }
}
