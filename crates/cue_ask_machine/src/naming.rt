//! The message by which a socket says who asks from it.
ghost use Rattle.std.specs.Prelude.{IfOk, IsErrOf};
ghost use Rattle.cue_ask_machine.specs.Naming.{SaysWho, name_message};
ghost use Rattle.cue_desk.specs.Asks.{IsUnwritable};
ghost use Rattle.cue_desk.specs.declared.asking.AskFault.TheVariants.{Unwritable};

use cue_desk::asking::{AskFault, datagram_of};
use cue_osc::{Args, Message, Packet};
use std::alloc::Global;

/// The datagram of the message `/as/NAME`, without an argument, by which a socket says who asks from it. The controller
/// refuses it, since it knows no such method, and so its log has the name beside the port. If it is called, the name
/// is one that `AskerName` reads: no sign in it means anything to OSC.
pub fn name_datagram(alloc: Global, name: &[u8]) -> Result<Vec<u8>, AskFault>
    ensures says { IfOk result (λ bytes. SaysWho name.now bytes.items) }
    ensures unwritable { IsErrOf result Unwritable → IsUnwritable (name_message name.now) }
{
    let mut address = Vec::from_slice(alloc, b"/as/")?;
    address.extend_from_slice(name)?;
    let packet = Packet::Message(Message {
        address: &address,
        args: Args::from_vec(Vec::new(alloc)),
    });
    datagram_of(alloc, &packet)
}
