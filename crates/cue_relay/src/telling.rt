//! When a device is heard to tell something of itself.
ghost use Rattle.std.specs.Prelude.{◌≡◌, option_and_then, slice_get};
ghost use Rattle.cue_relay.specs.Telling as telling;

use crate::claims::{Claim, claim_in};
use crate::relaying::Relay;
use crate::route::{Address, Opening, Route, Side, way_of};

// What is told at this side of a route: by its device, at the stage's side.
fn claim_by(side: Side, route: &Route, datagram: &[u8]) -> Option<Claim>
    ensures { result ≡ telling.claim_by side route.now datagram.now }
{
    match side {
        Side::Controller => None,
        Side::Stage => claim_in(route.device, datagram),
    }
}

// What is told in a datagram that came at this opening.
fn claim_at(routes: &[Route], at: Opening, datagram: &[u8]) -> Option<Claim>
    ensures { result
        ≡ option_and_then (λ route. telling.claim_by at.side route datagram.now) (slice_get routes.now at.route) }
{
    match routes.get(at.route) {
        Some(route) => claim_by(at.side, route, datagram),
        None => None,
    }
}

/// What a device tells of itself in a datagram that came at this opening from this sender; None if the sender is not
/// the device of that route at its own address, at the stage's side, or says something else. The relay asks it of a
/// datagram that does not go on.
pub fn claim_from(relay: Relay<'_>, at: Opening, from: Address, datagram: &[u8]) -> Option<Claim>
    ensures { result ≡ telling.claim_from relay.entry at from datagram.now }
{
    match way_of(relay.controller, relay.routes, at, from, datagram.len()) {
        Some(_) => claim_at(relay.routes, at, datagram),
        None => None, // nobody who may send there
    }
}
