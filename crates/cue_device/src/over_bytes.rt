//! A device over bytes: a datagram in, an order and a datagram out.
ghost use Rattle.std.specs.Prelude.{◌≡◌, ◌≤◌, ◌↔◌, IsTrue, take};
ghost use Rattle.cue_device.specs.Datagrams.{HearsDatagram, IsReply, answered_text};
ghost use Rattle.cue_device.specs.Meanings.{Means, after_meaning, comes_of};

use crate::asked::Command;
use crate::fields::after;
use crate::hearing::{Device, Heard};
use crate::reading::command;
use crate::words::{Answer, Order};
use crate::writing::{MAX_ANSWER, write, write_address};
use cue_show::DeviceNo;

/// How a reply of the controller begins: its address, and its type tag string.
const REPLY: [u8; 16] = *b"/reply\0\0,siiii\0\0";

/// What a datagram is to a device.
#[derive(Clone, Copy, PartialEq, Eq, Debug)]
pub enum Meaning {
    /// An order of the controller for it.
    Order(Command),
    /// A reply of the controller to an abort of it.
    Reply,
    /// Neither: the device does not hear it.
    Nothing,
}

impl Meaning {
    /// What a datagram is to the device of this number.
    pub fn of(datagram: &[u8], number: DeviceNo) -> Meaning
        ensures { Means number datagram.now result }
    {
        match command(datagram, number) {
            Some(command) => Meaning::Order(command),
            None => {
                if is_reply(datagram, number) {
                    Meaning::Reply
                } else {
                    Meaning::Nothing
                }
            }
        }
    }
}

impl Device {
    /// A datagram came. The order, if there is one, is carried out at once; the bytes of `out` up to the length that
    /// is given are sent at once to where the datagram came from, unless it is 0. A datagram that is neither an order
    /// of the controller for this device nor a reply to an abort of it changes nothing and has no answer.
    pub fn hear_datagram(
        &mut self,
        datagram: &[u8],
        out: &mut [u8; MAX_ANSWER],
    ) -> (Option<Order>, usize)
        ensures heard { HearsDatagram datagram.now self.old self.new result.0 (take result.1 out.new) }
        ensures short { result.1 ≤ 32 }
    {
        match Meaning::of(datagram, self.number()) {
            Meaning::Order(command) => {
                let heard = self.hear(&command);
                let len = self.write_answer(heard.answer, out);
                (heard.order, len)
            }
            Meaning::Reply => {
                self.hear_reply();
                (None, 0)
            }
            Meaning::Nothing => (None, 0),
        }
    }

    /// A datagram came that is this to the device, by `Meaning::of`. What the machine is ordered is carried out, and the
    /// answer is sent, at once. Nothing changes if it is nothing.
    pub fn hear_meaning(&mut self, meaning: &Meaning) -> Heard
        ensures state { self.new ≡ after_meaning meaning.now self.old }
        ensures said { result ≡ comes_of meaning.now self.old }
    {
        match meaning {
            Meaning::Order(command) => return self.hear(command),
            Meaning::Reply => self.hear_reply(),
            Meaning::Nothing => {}
        }
        Heard {
            order: None,
            answer: None,
        }
    }

    /// Puts the datagram of what `prepared`, `moved`, `gave_up`, `cannot` or `tick` gave at the front of `out`, and
    /// gives its length: 0 if there is nothing to send.
    pub fn write_answer(&self, answer: Option<Answer>, out: &mut [u8; MAX_ANSWER]) -> usize
        ensures text { take result out.new ≡ answered_text self.now.number answer }
        ensures short { result ≤ 32 }
    {
        match answer {
            Some(answer) => write(answer, self.number(), out),
            None => 0,
        }
    }
}

// Whether the datagram is a reply whose text is the address of an abort of this device.
fn is_reply(datagram: &[u8], number: DeviceNo) -> bool
    ensures { IsTrue result ↔ IsReply number datagram.now }
{
    let mut abort = [0; MAX_ANSWER];
    let len = write_address(Answer::Abort(0), number, &mut abort);
    let Some(rest) = after(datagram, &REPLY) else {
        return false;
    };
    match after(rest, &abort[..len]) {
        Some(counts) => counts.len() == 16,
        None => false,
    }
}
