//! One message as the bytes of a datagram.
ghost use Rattle.std.specs.Prelude.{◌≡◌, ◌≤◌, IfOk, map, length};
ghost use Rattle.cue_osc.specs.Argument.{arg_view};
ghost use Rattle.cue_osc.specs.Content.{message};
ghost use Rattle.cue_osc.specs.Plain.{IsPlain};
ghost use Rattle.cue_osc.specs.Writing.{text_of};
ghost use Rattle.cue_osc.specs.declared.limits.TheConstants.{MAX_LEN};
ghost use Rattle.cue_outbox.specs.Sending.{number as number_of};

use crate::out::Out;
use cue_osc::{Arg, WriteFault};
use cue_show::Bytes;
use std::alloc::{AllocError, Global};

// The datagram of a message that is known to be short.
pub(crate) fn write_message(
    alloc: Global,
    to: u16,
    address: &[u8],
    args: &[Arg<'_>],
) -> Result<Out, AllocError>
    requires plain { IsPlain 8 (message address.now (map arg_view args.now)) }
    requires short { length (text_of (message address.now (map arg_view args.now))) ≤ MAX_LEN }
    ensures to { IfOk result (λ out. out.to ≡ to) }
    ensures bytes { IfOk result (λ out. out.bytes ≡ text_of (message address.now (map arg_view args.now))) }
{
    match cue_osc::write_message(alloc, address, args) {
        Ok(bytes) => Ok(Out {
            to,
            bytes: Bytes::from_vec(bytes),
        }),
        Err(WriteFault::Memory) => Err(AllocError),
        Err(WriteFault::TooLong) => unreachable!(),
    }
}

// A number that an int32 holds.
pub(crate) fn int<'a>(number: u32) -> Arg<'a>
    requires { number ≤ 2147483647 }
    ensures { arg_view result ≡ number_of number }
{
    Arg::Int(number as i32)
}
