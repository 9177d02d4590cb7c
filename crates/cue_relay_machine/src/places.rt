//! Places: the two sockets of a route stand side by side, the controller's first.
ghost use Rattle.std.specs.Prelude.{◌≡◌, IfOk, flat_map};
ghost use Rattle.cue_relay_machine.specs.Places.{across_from, both_addresses, machine_address};
ghost use Rattle.cue_relay_machine.specs.Places.{opening_at, relay_address};

use cue_machine::Address;
use cue_relay::{Address as RouteAddress, Opening, Route, Side};
use std::alloc::{AllocError, Global};

/// The opening whose socket stands at this place.
pub fn opening_at(place: usize) -> Opening
    ensures { result ≡ opening_at place }
{
    let side = if place % 2 == 0 {
        Side::Controller
    } else {
        Side::Stage
    };
    Opening {
        route: place / 2,
        side,
    }
}

/// The place of the other socket of its route.
pub fn across_from(place: usize) -> usize
    ensures { result ≡ across_from place }
{
    if place % 2 == 0 { place + 1 } else { place - 1 }
}

/// The address as the relay has it.
pub fn relay_address(address: Address) -> RouteAddress
    ensures { result ≡ relay_address address }
{
    RouteAddress {
        host: address.host,
        port: address.port,
    }
}

/// The address as the loop has it.
pub fn machine_address(address: RouteAddress) -> Address
    ensures { result ≡ machine_address address }
{
    Address {
        host: address.host,
        port: address.port,
    }
}

/// Where the sockets are, by their places: of each route one on the controller's machine, and one on the stage's
/// network.
pub fn addresses(
    alloc: Global,
    controller: u32,
    stage: u32,
    routes: &[Route],
) -> Result<Vec<Address>, AllocError>
    ensures { IfOk result (λ found. found.items ≡ flat_map (both_addresses controller stage) routes.now) }
{
    let mut found = Vec::new(alloc);
    for route in routes {
        let port = route.port;
        found.push(Address {
            host: controller,
            port,
        })?;
        found.push(Address { host: stage, port })?;
    }
    Ok(found)
}
