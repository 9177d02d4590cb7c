//! How long a packet's spelling is, before any of it is written.

ghost use Rattle.std.specs.Prelude.{◌≡◌, ◌<◌, ◌≤◌, ◌+◌, ◌-◌, ◌%◌, ◌^◌, map, length};
ghost use Rattle.std.specs.List.{flat_map};
ghost use Rattle.cue_osc.specs.Argument.{arg_view};
ghost use Rattle.cue_osc.specs.Content.{view, contents_of};
ghost use Rattle.cue_osc.specs.Spelling.{argument, message_text};
ghost use Rattle.cue_osc.specs.Writing.{text_of, elements_text, room_left};

use crate::limits::{BUNDLE_FRAME_LEN, SIZE_LEN};
use crate::packet::{Arg, Packet};

/// What an OSC-string of so many bytes takes.
fn string_len(len: usize) -> usize
    requires { len < 2 ^ 63 }
    ensures { result ≡ len + (4 - len % 4) }
{
    len + (4 - len % 4)
}

/// What an argument takes.
fn arg_len(arg: &Arg<'_>) -> usize
    ensures { result ≡ length (argument (arg_view arg.now)) }
{
    match arg {
        Arg::Int(_) => 4,
        Arg::Text(text) => string_len(text.len()),
        Arg::Blob(content) => {
            let len = content.len();
            4 + len + (4 - len % 4) % 4
        }
    }
}

fn room_after_args(args: &[Arg<'_>], room: usize) -> Option<usize>
    ensures { result ≡ room_left room (length (flat_map argument (map arg_view args.now))) }
{
    let mut left = room;
    for arg in args {
        left = left.checked_sub(arg_len(arg))?;
    }
    Some(left)
}

/// What is left of so many bytes after a message, if it fits.
pub(crate) fn room_after_message(address: &[u8], args: &[Arg<'_>], room: usize) -> Option<usize>
    ensures { result ≡ room_left room (length (message_text address.now (map arg_view args.now))) }
{
    let left = room.checked_sub(string_len(address.len()))?;
    let left = left.checked_sub(string_len(args.len() + 1))?;
    room_after_args(args, left)
}

/// What is left of so many bytes after the spelling of a packet, if it fits.
#[cycle(room)]
pub(crate) fn room_after(packet: &Packet<'_>, room: usize) -> Option<usize>
    ensures { result ≡ room_left room (length (text_of (view packet.now))) }
{
    match packet {
        Packet::Message(message) => {
            room_after_message(message.address, message.args.as_slice(), room)
        }
        Packet::Discarded { .. } => Some(room),
        Packet::Bundle { items, .. } => {
            let left = room.checked_sub(BUNDLE_FRAME_LEN)?;
            room_after_elements(items, left)
        }
    }
}

#[cycle(room)]
fn room_after_elements(items: &[Packet<'_>], room: usize) -> Option<usize>
    ensures { result ≡ room_left room (length (elements_text (contents_of (map view items.now)))) }
{
    let mut left = room;
    for item in items {
        let behind_size = left.checked_sub(SIZE_LEN)?;
        left = room_after(item, behind_size)?;
    }
    Some(left)
}
