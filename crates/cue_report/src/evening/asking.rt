//! Who asks, and for what.
ghost use Rattle.std.specs.Prelude.{◌≡◌, ◌-◌, ◌==◌, OnOk, Some, is_some, nat_eq, position};
ghost use Rattle.std.specs.HashMap.{get, IsEmpty};
ghost use Rattle.std.specs.Option.{option_map};
ghost use Rattle.cue_operator.specs.LookUp.{device_named, number_at};
ghost use Rattle.cue_report.specs.Asking as spec;
ghost use Rattle.cue_report.specs.declared.attempt.Who.TheVariants.{Unseen};

use crate::attempt::Who;
use cue_asker::AskerName;
use cue_log_lines::{Line, Ordered};
use cue_operator::{CueVerb, DeviceVerb};
use cue_show::limits::MAX_DEVICES;
use cue_show::{CueNo, DeviceNo};
use itoa::Buffer;
use std::alloc::{AllocError, Global};
use std::collections::HashMap;

/// How many commands of one second are known: a datagram carries fewer.
const MOST: usize = 256;

/// For how many seconds a port has the name that was sent from it.
const NAMED: u64 = 10;

// Where the first slash of a text stands.
fn slash_in(text: &[u8]) -> Option<usize>
    ensures { result ≡ position (λ b. b == 47) text.now }
{
    text.iter().position(|x| *x == b'/')
}

// The two parts of a text: what stands before its first slash, and what stands after it.
fn parts_of(text: &[u8]) -> Option<(&[u8], &[u8])>
    ensures { option_map (λ x. (x.0.now, x.1.now)) result ≡ spec.parts_at text.now (position (λ b. b == 47) text.now) }
{
    let slash = slash_in(text)?;
    Some((text.get(..slash)?, text.get(slash + 1..)?))
}

// The two parts after the front of an address.
#[tactic(auto, unfolding(cue_log_lines::specs::Pieces::after))]
fn parts_after<'a>(address: &'a [u8], front: &[u8]) -> Option<(&'a [u8], &'a [u8])>
    ensures { option_map (λ x. (x.0.now, x.1.now)) result ≡ spec.parts_after front.now address.now }
{
    parts_of(address.strip_prefix(front)?)
}

// The cue that a text is the number of.
fn cue_in(text: &[u8]) -> Option<CueNo>
    ensures { result ≡ spec.cue_in text.now }
{
    CueNo::read(text)
}

/// What an address asks of a cue; of no cue, if it speaks to more than one.
pub fn verb_at(address: &[u8]) -> Option<(CueVerb, Option<CueNo>)>
    ensures { result ≡ spec.verb_at address.now }
{
    let (name, verb) = parts_after(address, b"/cue/")?;
    let verb = CueVerb::of(verb)?;
    Some((verb, cue_in(name)))
}

// A digit of a number.
fn digit(byte: u8) -> u16
    ensures { result ≡ byte - 48 }
{
    u16::from(byte.saturating_sub(b'0'))
}

// The number that one to three digits write.
fn number_in(text: &[u8]) -> Option<u16>
    ensures { result ≡ number_at text.now }
{
    match text {
        [ones] => Some(digit(*ones)),
        [tens, ones] => Some(digit(*tens) * 10 + digit(*ones)),
        [hundreds, tens, ones] => {
            Some(digit(*hundreds) * 100 + digit(*tens) * 10 + digit(*ones))
        }
        _ => None,
    }
}

// The device whose number a text is, in decimal and with no zero in front.
fn device_in(text: &[u8]) -> Option<DeviceNo>
    ensures { result ≡ device_named text.now }
{
    let device = DeviceNo::of(i32::from(number_in(text)?))?;
    let mut digits = Buffer::new();
    if digits.format(device.number()).as_bytes() == text {
        Some(device)
    } else {
        None
    }
}

// What a device says at an address, or what is asked of it.
fn word_at(address: &[u8]) -> Option<(DeviceVerb, DeviceNo)>
    ensures { result ≡ spec.word_at address.now }
{
    let (name, word) = parts_after(address, b"/device/")?;
    let word = DeviceVerb::of(word)?;
    Some((word, device_in(name)?))
}

/// The device that an address names.
pub fn device_at(address: &[u8]) -> Option<DeviceNo>
    ensures { result ≡ spec.device_at address.now }
{
    let (_, device) = word_at(address)?;
    Some(device)
}

/// What a reply says that a device has answered, or that is asked of it, if it made something.
pub fn answer_in(line: &Line<'_>) -> Option<(DeviceVerb, DeviceNo)>
    ensures { result ≡ spec.answer_in line.now }
{
    match line {
        Line::Replied(reply, _) if reply.made != 0 => word_at(reply.address.bytes()),
        _ => None,
    }
}

/// The name that an address gives its asker.
#[tactic(auto, unfolding(cue_log_lines::specs::Pieces::after))]
pub fn name_at(address: &[u8]) -> Option<AskerName>
    ensures { is_some result ≡ spec.gives_name address.now }
{
    AskerName::read(address.strip_prefix(b"/as/".as_slice())?)
}

/// A command that was made: when, by whom, what, and at which cue; none for more than one.
#[derive(Clone, Copy)]
pub struct Made {
    pub at: u64,
    pub by: Who,
    pub verb: CueVerb,
    pub cue: Option<CueNo>,
}

/// The commands of the last moment that were made, each with who asked.
#[derive(Drop)]
pub struct Asking {
    names: HashMap<u16, (u64, AskerName)>,
    devices: HashMap<u16, DeviceNo>,
    ports: [u16; MAX_DEVICES],
    // The last ones of the newest second.
    made: Vec<Made>,
}

// The name that a port has at a second: it was sent ten seconds before at most.
fn name_within(named: Option<(u64, AskerName)>, at: u64) -> Option<AskerName>
    ensures { result ≡ spec.name_within named at }
{
    match named {
        Some((since, name)) if at.saturating_sub(since) <= NAMED => Some(name),
        _ => None,
    }
}

// Who asks: the device that the address names, if it is its port; else the name that the port has, the device that
// listens there, or nothing but the port.
fn asker_at(
    device: Option<DeviceNo>,
    name: Option<AskerName>,
    listens: Option<DeviceNo>,
    port: u16,
) -> Who
    ensures { result ≡ spec.asker_at device name listens port }
{
    match (device, name, listens) {
        (Some(device), _, _) => Who::Device(device),
        (None, Some(name), _) => Who::Named(name),
        (None, None, Some(device)) => Who::Device(device),
        (None, None, None) => Who::Port(port),
    }
}

// Whether a command was of this cue, or of several.
fn is_of(made: Option<CueNo>, cue: Option<CueNo>) -> bool
    ensures { result ≡ spec.is_of made cue }
{
    match (made, cue) {
        (None, _) => true,
        (Some(made), Some(cue)) => made == cue,
        (Some(_), None) => false,
    }
}

// Whether a command is the one that is meant: it was made in this second, of this cue or of several.
fn is_meant(made: &Made, verb: CueVerb, cue: &Option<CueNo>, at: u64) -> bool
    ensures { result ≡ spec.is_meant verb cue.now at made.now }
{
    made.verb.text() == verb.text() && made.at == at && is_of(made.cue, *cue)
}

// Who asked for a command that is meant: the last one.
fn asker_in(all: &[Made], verb: CueVerb, cue: &Option<CueNo>, at: u64) -> Who
    ensures { result ≡ spec.asker_in verb cue.now at Unseen all.now }
{
    let mut by = Who::Unseen;
    for made in all {
        if is_meant(made, verb, cue, at) {
            by = made.by;
        }
    }
    by
}

impl Asking {
    /// Nobody asked.
    pub fn new(alloc: Global) -> Asking
        ensures { IsEmpty result.names }
    {
        Asking {
            names: HashMap::new(alloc),
            devices: HashMap::new(alloc),
            ports: [0; MAX_DEVICES],
            made: Vec::new(alloc),
        }
    }

    /// A port has this name from this second on.
    pub fn name(&mut self, port: u16, at: u64, name: AskerName) -> Result<(), AllocError>
        ensures { OnOk result (get nat_eq self.new.names port ≡ Some (at, name)) }
    {
        let _ = self.names.insert(port, (at, name))?;
        Ok(())
    }

    /// A device listens at the port of an order.
    pub fn order(&mut self, ordered: &Ordered) -> Result<(), AllocError>
        ensures { OnOk result (get nat_eq self.new.devices ordered.now.port ≡ Some ordered.now.device) }
    {
        if let Some(port) = self.ports.get_mut(usize::from(ordered.device.number())) {
            *port = ordered.port;
        }
        let _ = self.devices.insert(ordered.port, ordered.device)?;
        Ok(())
    }

    // The device, if it has this port.
    fn with_port(&self, device: Option<DeviceNo>, port: u16) -> Option<DeviceNo>
        ensures { result ≡ spec.with_port self.now.ports device port }
    {
        let device = device?;
        match self.ports.get(usize::from(device.number())) {
            Some(there) if *there == port => Some(device),
            _ => None,
        }
    }

    // The name of a port at a second.
    fn name_of(&self, port: u16, at: u64) -> Option<AskerName>
        ensures { result ≡ spec.name_within (get nat_eq self.now.names port) at }
    {
        name_within(self.names.get(&port).copied(), at)
    }

    /// Who asked from a port at a second, at an address that names this device, or none.
    pub fn who(&self, device: Option<DeviceNo>, port: u16, at: u64) -> Who
        ensures { result ≡ spec.asker_at (spec.with_port self.now.ports device port)
            (spec.name_within (get nat_eq self.now.names port) at) (get nat_eq self.now.devices port) port }
    {
        let device = self.with_port(device, port);
        let listens = self.devices.get(&port).copied();
        asker_at(device, self.name_of(port, at), listens, port)
    }

    /// A command was made: it is the newest. Those of the seconds before are of no use any more.
    pub fn made(&mut self, made: &Made) -> Result<(), AllocError>
        ensures { OnOk result (spec.IsLast made.now self.new.made.items) }
    {
        let is_old = match self.made.last() {
            Some(last) => last.at != made.at,
            None => false,
        };
        if is_old {
            self.made.clear();
        }
        if self.made.len() >= MOST {
            let _ = self.made.remove(0);
        }
        self.made.push(*made)?;
        Ok(())
    }

    /// Who asked for this of a cue at this second: the last one, in this very second, else nobody who is seen.
    pub fn asker(&self, verb: CueVerb, cue: &Option<CueNo>, at: u64) -> Who
        ensures { result ≡ spec.asker_in verb cue.now at Unseen self.now.made.items }
    {
        asker_in(&self.made, verb, cue, at)
    }
}
