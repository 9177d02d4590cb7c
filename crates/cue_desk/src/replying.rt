//! What the controller replies to the desk.
ghost use Rattle.std.specs.Prelude.{◌≡◌, IfOk, Ok, map};
ghost use Rattle.cue_osc.specs.Argument.{arg_view};
ghost use Rattle.cue_osc.specs.Content.{view};
ghost use Rattle.cue_osc.specs.Reading.{datagram_at};
ghost use Rattle.cue_desk.specs.Replies.{replied_by, replied_in, reply_in, status_in};

use cue_osc::{Arg, Fault, Message, Packet, read};
use cue_show::CueNo;
use std::alloc::{AllocError, Global};

/// How a show stands, as `/status` says it.
#[derive(Clone, Copy, Debug, PartialEq, Eq)]
pub struct Status {
    /// The number of the attempt that was started last; 0 before the first.
    pub last: i32,
    pub place: Option<CueNo>,
    /// How many attempts are live.
    pub live: i32,
    /// The attempt that ended last; 0 before the first.
    pub ended: i32,
    /// How it ended: 1 complete, 2 cancelled, 3 failed; 0 before the first.
    pub outcome: i32,
}

/// What the controller sends to who asked.
#[derive(Clone, Copy, Debug, PartialEq, Eq)]
pub enum Replied {
    /// The reply: how many commands were made, known and refused, and the code of the first that was refused.
    Reply {
        made: i32,
        known: i32,
        refused: i32,
        code: i32,
    },
    /// The status, which follows the reply to `/status`.
    Status(Status),
}

// The reply that these arguments are, if its address, cut at 64 bytes, is the one that was asked.
fn reply_in(asked: &[u8], args: &[Arg<'_>]) -> Option<Replied>
    ensures { result ≡ reply_in asked.now (map arg_view args.now) }
{
    match args {
        [
            Arg::Text(address),
            Arg::Int(made),
            Arg::Int(known),
            Arg::Int(refused),
            Arg::Int(code),
        ] if *address == asked => Some(Replied::Reply {
            made: *made,
            known: *known,
            refused: *refused,
            code: *code,
        }),
        _ => None,
    }
}

// The status that these arguments are.
fn status_in(args: &[Arg<'_>]) -> Option<Replied>
    ensures { result ≡ status_in (map arg_view args.now) }
{
    match args {
        [
            Arg::Int(last),
            Arg::Text(place),
            Arg::Int(live),
            Arg::Int(ended),
            Arg::Int(outcome),
        ] => Some(Replied::Status(Status {
            last: *last,
            place: CueNo::read(place),
            live: *live,
            ended: *ended,
            outcome: *outcome,
        })),
        _ => None,
    }
}

// What a message says, by its address.
fn replied_by(asked: &[u8], message: &Message<'_>) -> Option<Replied>
    ensures { result ≡ replied_by asked.now message.now.address.now message.now.args }
{
    let args = message.args.as_slice();
    if message.address == b"/reply".as_slice() {
        reply_in(asked, args)
    } else if message.address == b"/status".as_slice() {
        status_in(args)
    } else {
        None
    }
}

// What a packet says.
fn said_by(asked: &[u8], packet: &Packet<'_>) -> Option<Replied>
    ensures { result ≡ replied_in asked.now (Ok (view packet.now)) }
{
    match packet {
        Packet::Message(message) => replied_by(asked, message),
        Packet::Discarded { .. } | Packet::Bundle { .. } => None,
    }
}

/// What a datagram of the controller says to who asked at this address. None if it is something else, as the reply
/// to an earlier message. It fails only if memory ran out.
pub fn read_reply(
    alloc: Global,
    asked: &[u8],
    datagram: &[u8],
) -> Result<Option<Replied>, AllocError>
    ensures { IfOk result (λ replied. replied ≡ replied_in asked.now (datagram_at datagram.now)) }
{
    match read(alloc, datagram) {
        Ok(packet) => Ok(said_by(asked, &packet)),
        Err(Fault::Memory) => Err(AllocError),
        Err(_) => Ok(None),
    }
}
