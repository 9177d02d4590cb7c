//! Which of the datagrams that come may go on.
ghost use Rattle.std.specs.Prelude.{◌≡◌};
ghost use Rattle.cue_relay.specs.Relayed.{way_and_message};
ghost use Rattle.cue_relay.specs.Relaying.{message_at};

use crate::messages::{Message, message_in};
use crate::relaying::Relay;
use crate::route::{Address, Opening, Route, Way, way_of};

/// How a datagram goes on, and what it says.
#[derive(Clone, Copy, Debug, PartialEq, Eq)]
pub struct Going {
    pub way: Way,
    pub message: Message,
}

// What a datagram says that came at this opening; none if it says nothing that may go on there.
fn message_at(routes: &[Route], at: Opening, datagram: &[u8]) -> Option<Message>
    ensures { result ≡ message_at routes.now at datagram.now }
{
    match routes.get(at.route) {
        Some(route) => message_in(at.side, route.device, datagram),
        None => None,
    }
}

/// How a datagram would go on that came at this opening from this sender, whatever went on before it.
pub fn way_and_message(
    relay: Relay<'_>,
    at: Opening,
    from: Address,
    datagram: &[u8],
) -> Option<Going>
    ensures { result ≡ way_and_message relay.entry at from datagram.now }
{
    let way = way_of(relay.controller, relay.routes, at, from, datagram.len())?;
    let message = message_at(relay.routes, at, datagram)?;
    Some(Going { way, message })
}
