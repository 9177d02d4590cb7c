//! The routes of a relay, as a show file has them.
ghost use Rattle.std.specs.Prelude.{◌≡◌, IfOk};
ghost use Rattle.std.specs.List.{filter_map};
ghost use Rattle.cue_show_file.specs.Routes.{route_of};

use crate::file::DeviceEntry;
use cue_relay::Route;
use std::alloc::{AllocError, Global};

// The route of a device that is on the stage's network.
fn route_of(entry: &DeviceEntry) -> Option<Route>
    ensures { result ≡ route_of entry.now }
{
    match entry.address {
        Some(address) => Some(Route {
            device: entry.number,
            port: entry.port,
            address,
        }),
        None => None,
    }
}

/// A route for each device that has an address, in the order of the file.
pub fn routes(alloc: Global, entries: &[DeviceEntry]) -> Result<Vec<Route>, AllocError>
    ensures { IfOk result (λ routes. routes.items ≡ filter_map route_of entries.now) }
{
    entries
        .iter()
        .filter_map(|entry| route_of(entry))
        .collect(alloc)
}

// Whether a later route has the port.
fn is_shared(port: u16, later: &[Route]) -> bool {
    later.iter().any(|route| route.port == port)
}

/// A port that two of the routes have, if there is one: one socket cannot stand for two devices.
pub fn shared_port(routes: &[Route]) -> Option<u16> {
    for (index, route) in routes.iter().enumerate() {
        if is_shared(route.port, &routes[index + 1..]) {
            return Some(route.port);
        }
    }
    None
}
