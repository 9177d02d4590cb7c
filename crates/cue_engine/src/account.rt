//! What an input came to, as values, for whoever writes a log.
ghost use Rattle.std.specs.Prelude.{◌≡◌, ◌≤◌, take, length};
ghost use Rattle.cue_engine.specs.Accounts.{plain_reply};

use crate::taken::Taken;
use cue_show::{DeviceNo, ShortBytes};

/// The most bytes of an address that a reply shows.
const SHOWN: usize = 64;

/// The reply to a message, or to a datagram that is refused whole or has no message.
#[derive(Drop)]
pub struct Reply {
    /// The port that asked.
    pub port: u16,
    /// The address that was asked, as the reply shows it: at most 64 bytes; none if there is no message.
    pub address: ShortBytes<SHOWN>,
    pub counts: Taken,
    /// Of the first command that was refused, or of the datagram; 0 if none was.
    pub code: u16,
    /// How many statuses are sent after it.
    pub statuses: usize,
    /// How many events of the input's batch its commands made: those after the events of the replies before it.
    pub events: usize,
}

impl Reply {
    /// A reply without statuses and events.
    pub(crate) fn plain(port: u16, address: &[u8], counts: Taken, code: u16) -> Reply
        ensures { result ≡ plain_reply port address.now counts code }
    {
        Reply {
            port,
            address: shown_of(address),
            counts,
            code,
            statuses: 0,
            events: 0,
        }
    }
}

// The bytes that a reply shows of an address.
fn shown_of(address: &[u8]) -> ShortBytes<SHOWN>
    ensures { result ≡ take 64 address.now }
{
    match ShortBytes::read(front_of(address, SHOWN)) {
        Some(shown) => shown,
        None => unreachable!(),
    }
}

// So many bytes at most, from the front.
fn front_of(text: &[u8], most: usize) -> &[u8]
    ensures front { result.now ≡ take most text.now }
    ensures short { length result.now ≤ most }
{
    if text.len() <= most {
        text
    } else {
        &text[..most]
    }
}

/// What a device is ordered.
#[derive(Clone, Copy, Debug, PartialEq, Eq)]
pub enum OrderKind {
    Standby,
    Go,
    Cancel,
}

/// An order that is sent to a device.
#[derive(Clone, Copy, Debug, PartialEq, Eq)]
pub struct Order {
    pub kind: OrderKind,
    /// The number of the attempt.
    pub attempt: u32,
    pub device: DeviceNo,
    /// The port that it goes to.
    pub port: u16,
    /// Whether the input made it pending: its events start, decide or cancel the attempt. Else it is sent again.
    pub is_new: bool,
}

/// What is sent for an input, as values: the replies, each with its statuses, and then the orders.
#[derive(Drop)]
pub struct Account {
    pub replies: Vec<Reply>,
    pub orders: Vec<Order>,
}
