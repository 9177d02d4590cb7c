//! The reply to a message.
ghost use Rattle.std.specs.Prelude.{◌≡◌, ◌≤◌, IfOk, take, length};
ghost use Rattle.cue_osc.specs.Spelling.{IsText};
ghost use Rattle.cue_outbox.specs.Sending.{reply, datagram};
ghost use Rattle.cue_outbox.specs.Views.{out_view};

use crate::message::{int, write_message};
use crate::out::Out;
use cue_osc::Arg;
use std::alloc::{AllocError, Global};

/// The most bytes of an address that a reply shows.
const SHOWN: usize = 64;

/// The reply to a message: its address, of which the first 64 bytes are shown, how many of its commands were made,
/// were known and were refused, and the code of the first that was refused, 0 if none was.
#[tactic(auto, unfolding(crate::specs::Sending::send_content, crate::specs::Sending::datagram))]
pub fn reply(
    alloc: Global,
    to: u16,
    address: &[u8],
    made: u16,
    known: u16,
    refused: u16,
    code: u16,
) -> Result<Out, AllocError>
    requires { IsText address.now }
    ensures { IfOk result (λ out. out_view out ≡ datagram (to, reply (take 64 address.now) made known refused code)) }
{
    let args = [
        Arg::Text(front_of(address, SHOWN)),
        int(u32::from(made)),
        int(u32::from(known)),
        int(u32::from(refused)),
        int(u32::from(code)),
    ];
    write_message(alloc, to, b"/reply", &args)
}

fn front_of(text: &[u8], most: usize) -> &[u8]
    requires { IsText text.now }
    ensures front { result.now ≡ take most text.now }
    ensures text { IsText result.now }
    ensures short { length result.now ≤ most }
{
    if text.len() <= most {
        text
    } else {
        &text[..most]
    }
}
