//! What the desk asks of the controller: each as exactly one message of the protocol, by itself or with others.
ghost use Rattle.std.specs.Prelude.{◌≡◌, ◌++◌, ◌∷◌, [], IsErrOf, IsTrue, Ok, IfOk, OnOk, map};
ghost use Rattle.cue_osc.specs.Argument.{arg_view, text};
ghost use Rattle.cue_osc.specs.Content.{message, view};
ghost use Rattle.cue_osc.specs.Reading.{datagram_at};
ghost use Rattle.cue_operator.specs.Methods.{address_of, under};
ghost use Rattle.cue_operator.specs.declared.method.Method.TheVariants.{OfCue, OfDevice};
ghost use Rattle.cue_desk.specs.Asks.{AsksFor, IsUnwritable, arguments_of, command_of, flag_of, flagged_parts};
ghost use Rattle.cue_desk.specs.Asks.{is_askable, method_of};
ghost use Rattle.cue_desk.specs.Loading.{message_of};
ghost use Rattle.cue_desk.specs.declared.asking.AskFault.TheVariants.{Unwritable};

mod bundling;

pub use bundling::{bundle_of_cues, bundle_of_devices, cues_that_fit, devices_that_fit};
use cue_operator::{CueVerb, DeviceVerb};
use cue_osc::{Arg, Args, Message, Packet, WriteFault};
use cue_show::{CueNo, DeviceNo, Part, Parts};
use itoa::Buffer;
use std::alloc::{AllocError, Global};

/// What the desk asks of the controller.
#[derive(Clone, Copy)]
pub enum Asked<'a> {
    /// To have the status replied.
    Status,
    /// To put the device with its port, 1 to 65,535, into the table.
    AddDevice(DeviceNo, u16),
    /// To put the cue with its parts on the stack.
    AddCue(CueNo, &'a Parts),
    /// To stand the cue by, give it, give it up, move to it or remove it.
    OfCue(CueVerb, CueNo),
    /// To wait no longer for the device.
    Release(DeviceNo),
    /// To take the device out of the table.
    RemoveDevice(DeviceNo),
}

impl Asked<'_> {
    /// Whether the numbers and parts are ones that there are: a port is not 0, and the parts are ones that a cue can
    /// have.
    pub fn is_askable(&self) -> bool
        ensures { result ≡ is_askable self.now }
    {
        match self {
            Asked::AddDevice(device, port) => {
                // Called for its clause that the number is in range.
                let _number = device.number();
                *port >= 1
            }
            Asked::AddCue(cue, parts) => {
                // Called for its clause that the text is a cue number.
                let _text = cue.text();
                parts.is_fit()
            }
            Asked::Status | Asked::OfCue(_, _) | Asked::Release(_) | Asked::RemoveDevice(_) => true,
        }
    }
}

/// Why there is no datagram.
#[derive(Clone, Copy, Debug, PartialEq, Eq)]
pub enum AskFault {
    /// An allocation was refused.
    Memory,
    /// The message would be longer than a datagram. What a show can have never is.
    Unwritable,
}

impl From<AllocError> for AskFault {
    ghost use Rattle.cue_desk.specs.declared.asking.AskFault.TheVariants.{Memory};

    ghost from_gives = { λ _ fault. fault ≡ Memory };

    fn from(_: AllocError) -> AskFault {
        AskFault::Memory
    }
}

/// The address at which it is asked, in its one spelling without wildcards.
pub fn address(alloc: Global, asked: &Asked<'_>) -> Result<Vec<u8>, AllocError>
    ensures { IfOk result (λ bytes. bytes.items ≡ address_of (method_of asked.now)) }
{
    match asked {
        Asked::Status => Vec::from_slice(alloc, b"/status"),
        Asked::AddDevice(_, _) => Vec::from_slice(alloc, b"/show/device"),
        Asked::AddCue(_, _) => Vec::from_slice(alloc, b"/show/mixed"),
        Asked::OfCue(verb, cue) => cue_address(alloc, *verb, *cue),
        Asked::Release(device) => device_address(alloc, DeviceVerb::Release, *device),
        Asked::RemoveDevice(device) => device_address(alloc, DeviceVerb::Remove, *device),
    }
}

/// A name, a slash and a verb after the front of an address.
pub(crate) fn under(
    alloc: Global,
    front: &[u8],
    name: &[u8],
    verb: &[u8],
) -> Result<Vec<u8>, AllocError>
    ensures { IfOk result (λ bytes. bytes.items ≡ under front.now name.now verb.now) }
{
    let mut address = Vec::from_slice(alloc, front)?;
    address.extend_from_slice(name)?;
    address.push(b'/')?;
    address.extend_from_slice(verb)?;
    Ok(address)
}

/// The address at which something is asked of a cue.
pub(crate) fn cue_address(alloc: Global, verb: CueVerb, cue: CueNo) -> Result<Vec<u8>, AllocError>
    ensures { IfOk result (λ bytes. bytes.items ≡ address_of (OfCue cue verb)) }
{
    under(alloc, b"/cue/", cue.text(), verb.text())
}

/// The address at which something is asked of a device.
pub(crate) fn device_address(
    alloc: Global,
    verb: DeviceVerb,
    device: DeviceNo,
) -> Result<Vec<u8>, AllocError>
    ensures { IfOk result (λ bytes. bytes.items ≡ address_of (OfDevice device verb)) }
{
    let mut number = Buffer::new();
    let name = number.format(device.number());
    under(alloc, b"/device/", name.as_bytes(), verb.text())
}

// Whether the part is optional, as a flag.
fn flag_of(optional: bool) -> i32
    ensures { result ≡ flag_of optional }
{
    if optional { 1 } else { 0 }
}

// Puts the arguments of each part after the others.
fn push_parts<'a>(args: &mut Vec<Arg<'a>>, parts: &'a [Part]) -> Result<(), AllocError>
    ensures { OnOk result (map arg_view args.new.items ≡ map arg_view args.old.items ++ flagged_parts parts.now) }
{
    match parts {
        [] => Ok(()),
        [part, rest @ ..] => {
            args.push(Arg::Int(i32::from(part.device.number())))?;
            args.push(Arg::Int(flag_of(part.optional)))?;
            args.push(Arg::Blob(part.bytes.as_slice()))?;
            push_parts(args, rest)
        }
    }
}

// The arguments of a cue that is added.
fn cue_args<'a>(alloc: Global, cue: &'a CueNo, parts: &'a Parts) -> Result<Vec<Arg<'a>>, AllocError>
    ensures { IfOk result (λ args. map arg_view args.items ≡ text cue.now ∷ flagged_parts parts.now) }
{
    let mut args = Vec::new(alloc);
    args.push(Arg::Text(cue.text()))?;
    push_parts(&mut args, parts.as_slice())?;
    Ok(args)
}

// The arguments of what is asked.
fn args_of<'a>(alloc: Global, asked: &'a Asked<'a>) -> Result<Vec<Arg<'a>>, AllocError>
    ensures { IfOk result (λ args. map arg_view args.items ≡ arguments_of asked.now) }
{
    match asked {
        Asked::AddDevice(device, port) => Ok(vec![in alloc;
            Arg::Int(i32::from(device.number())),
            Arg::Int(i32::from(*port)),
        ]?),
        Asked::AddCue(cue, parts) => cue_args(alloc, cue, parts),
        Asked::Status | Asked::OfCue(_, _) | Asked::Release(_) | Asked::RemoveDevice(_) => {
            Ok(Vec::new(alloc))
        }
    }
}

/// The datagram of a packet. `Unwritable` if OSC has none for it.
pub fn datagram_of(alloc: Global, packet: &Packet<'_>) -> Result<Vec<u8>, AskFault>
    ensures said { IfOk result (λ bytes. datagram_at bytes.items ≡ Ok (view packet.now)) }
    ensures unwritable { IsErrOf result Unwritable → IsUnwritable (view packet.now) }
{
    if !packet.plain() {
        return Err(AskFault::Unwritable);
    }
    match cue_osc::write(alloc, packet) {
        Ok(bytes) => Ok(bytes),
        Err(WriteFault::TooLong) => Err(AskFault::Unwritable),
        Err(WriteFault::Memory) => Err(AskFault::Memory),
    }
}

/// The datagram of a message.
pub(crate) fn message(
    alloc: Global,
    address: &[u8],
    args: Vec<Arg<'_>>,
) -> Result<Vec<u8>, AskFault>
    ensures message { let said = message address.now (map arg_view args.entry.items) in
        IfOk result (λ bytes. datagram_at bytes.items ≡ Ok said) }
    ensures unwritable { let said = message address.now (map arg_view args.entry.items) in
        IsErrOf result Unwritable → IsUnwritable said }
{
    let packet = Packet::Message(Message {
        address,
        args: Args::from_vec(args),
    });
    datagram_of(alloc, &packet)
}

/// The datagram that asks for it, and for nothing else: one message.
pub fn datagram(alloc: Global, asked: &Asked<'_>) -> Result<Vec<u8>, AskFault>
    requires { IsTrue (is_askable asked.now) }
    ensures asks { IfOk result (λ bytes. AsksFor bytes.items (command_of asked.now)) }
    ensures message { IfOk result (λ bytes. datagram_at bytes.items ≡ Ok (message_of asked.now)) }
    ensures unwritable { IsErrOf result Unwritable → IsUnwritable (message_of asked.now) }
{
    let address = address(alloc, asked)?;
    let args = args_of(alloc, asked)?;
    message(alloc, &address, args)
}
