//! What may go through the relay: orders and replies of the controller, and answers of a device.
ghost use Rattle.std.specs.Prelude.{◌≡◌};
ghost use Rattle.cue_relay.specs.Messages.{answer_in, answer_with, answered_in, is_attempt, is_reply, last_number};
ghost use Rattle.cue_relay.specs.Messages.{message_in, order_in, order_of, said_in, spells};

use crate::route::Side;
use crate::status::Ordered;
use cue_device::{Answer, Command, MAX_ANSWER, MAX_NUMBER, command, write};
use cue_show::DeviceNo;

/// What a datagram says that goes on.
#[derive(Clone, Copy, Debug, PartialEq, Eq)]
pub enum Message {
    /// An order of the controller, for the attempt of this number.
    Order { order: Ordered, seq: u32 },
    /// A reply of the controller to an answer.
    Reply,
    /// An answer of the device.
    Answer(Answer),
}

// How a reply of the controller begins: its address, and its type tag string.
const REPLY: [u8; 16] = *b"/reply\0\0,siiii\0\0";

// The number in the last four bytes.
fn last_number(datagram: &[u8]) -> Option<u32>
    ensures { result ≡ last_number datagram.now }
{
    let at = datagram.len().checked_sub(4)?;
    let number = [
        datagram[at],
        datagram[at + 1],
        datagram[at + 2],
        datagram[at + 3],
    ];
    Some(u32::from_be_bytes(number))
}

/// Whether an attempt may have this number.
pub(crate) fn is_attempt(number: u32) -> bool
    ensures { result ≡ is_attempt number }
{
    number >= 1 && number <= MAX_NUMBER
}

// Whether the datagram is this answer of the device, byte for byte.
fn spells(device: DeviceNo, datagram: &[u8], answer: Answer) -> bool
    ensures { result ≡ spells device datagram.now answer }
{
    let mut text = [0; MAX_ANSWER];
    let len = write(answer, device, &mut text);
    datagram == &text[..len]
}

// Which of the four answers with this number the datagram is.
fn answer_with(device: DeviceNo, datagram: &[u8], seq: u32) -> Option<Answer>
    ensures { result ≡ answer_with device datagram.now seq }
{
    let (standing_by, complete) = (Answer::StandingBy(seq), Answer::Complete(seq));
    let (cancelled, abort) = (Answer::Cancelled(seq), Answer::Abort(seq));
    if !is_attempt(seq) {
        None
    } else if spells(device, datagram, standing_by) {
        Some(standing_by)
    } else if spells(device, datagram, complete) {
        Some(complete)
    } else if spells(device, datagram, cancelled) {
        Some(cancelled)
    } else if spells(device, datagram, abort) {
        Some(abort)
    } else {
        None
    }
}

// The answer of the device that the datagram is, byte for byte; none if it is anything else.
fn answer_in(device: DeviceNo, datagram: &[u8]) -> Option<Answer>
    ensures { result ≡ answer_in device datagram.now }
{
    match last_number(datagram) {
        Some(seq) => answer_with(device, datagram, seq),
        None => None,
    }
}

// The order to the device that the datagram is, byte for byte; none if it is anything else. `number` says how large
// a device's number is.
fn order_in(device: DeviceNo, datagram: &[u8]) -> Option<Command>
    ensures { result ≡ order_in device datagram.now }
{
    let _range = device.number();
    command(datagram, device)
}

// What an order says, without the task of a standby.
fn order_of(command: &Command) -> Message
    ensures { result ≡ order_of command.now }
{
    let order = match command {
        Command::Standby { .. } => Ordered::Standby,
        Command::Go { .. } => Ordered::Go,
        Command::Cancel { .. } => Ordered::Cancel,
    };
    let seq = command.seq();
    Message::Order { order, seq }
}

// Whether the datagram is a reply of the controller.
fn is_reply(datagram: &[u8]) -> bool
    ensures { result ≡ is_reply datagram.now }
{
    datagram.starts_with(&REPLY)
}

// What the device answers.
fn answered_in(device: DeviceNo, datagram: &[u8]) -> Option<Message>
    ensures { result ≡ answered_in device datagram.now }
{
    let answer = answer_in(device, datagram)?;
    Some(Message::Answer(answer))
}

// What the controller says to the device.
fn said_in(device: DeviceNo, datagram: &[u8]) -> Option<Message>
    ensures { result ≡ said_in device datagram.now }
{
    if is_reply(datagram) {
        return Some(Message::Reply);
    }
    match order_in(device, datagram) {
        Some(command) => Some(order_of(&command)),
        None => None,
    }
}

/// What a datagram says that came at this side of the device's route; none if it says nothing that may go on.
pub fn message_in(side: Side, device: DeviceNo, datagram: &[u8]) -> Option<Message>
    ensures { result ≡ message_in side device datagram.now }
{
    match side {
        Side::Controller => said_in(device, datagram),
        Side::Stage => answered_in(device, datagram),
    }
}
