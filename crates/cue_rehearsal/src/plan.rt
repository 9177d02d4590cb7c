//! What a show file says of a rehearsal, in its table `[rehearse]`.
ghost use Rattle.std.specs.Prelude.{◌≡◌};
ghost use Rattle.std.specs.Fmt.{WritesOnOk};
ghost use Rattle.cue_rehearsal.specs.Plans as plans;

use crate::manner::{Behaviour, Manner};
use cue_show::DeviceNo;
use std::alloc::{AllocError, Global};
use std::fmt;
use toml::{Table, Value};

/// The longest time of a plan, in milliseconds: ten minutes.
pub const MAX_TIME: u32 = 600_000;

/// How the devices of a show are rehearsed. Times are in milliseconds, `MAX_TIME` at most.
#[derive(Debug, Drop, PartialEq, Eq)]
pub struct Plan {
    /// For preparing, and for giving up.
    pub prepare: u32,
    /// For moving.
    pub moving: u32,
    /// How much longer it may take, by chance.
    pub spread: u32,
    /// How many of a hundred datagrams are lost, either way.
    pub loss: u8,
    /// Who never hears and never answers.
    pub silent: Vec<DeviceNo>,
    /// Who aborts in place of preparing.
    pub refuses: Vec<DeviceNo>,
    /// Who aborts in place of moving.
    pub fails: Vec<DeviceNo>,
}

/// What is wrong with a table `[rehearse]`.
#[derive(Debug, Drop, PartialEq, Eq)]
pub enum PlanFault {
    /// `rehearse` is no table.
    NoTable,
    /// The table has no such key.
    UnknownKey(String),
    /// The key wants milliseconds.
    WantsTime(&'static str),
    /// `loss` wants a number up to 100.
    WantsLoss,
    /// The key wants a list of numbers of devices.
    WantsDevices(&'static str),
    Memory,
}

impl From<AllocError> for PlanFault {
    ghost use Rattle.std.specs.Prelude.{◌≡◌};
    ghost use Rattle.cue_rehearsal.specs.declared.plan.PlanFault.TheVariants.{Memory};

    ghost from_gives = { λ _ fault. fault ≡ Memory };

    fn from(_: AllocError) -> PlanFault {
        PlanFault::Memory
    }
}

// Writes that a key wants a time.
fn write_wants_time<W: fmt::Write>(f: &mut fmt::Formatter<W>, key: &str) -> fmt::Result
    ensures { WritesOnOk W.write_str_gives f.old result (plans.wants_time key.now) f.new }
{
    write!(
        f,
        "`{key}` wants milliseconds, 0 to {MAX_TIME}: write it as {key} = 800"
    )
}

// Writes that a key wants devices.
fn write_wants_devices<W: fmt::Write>(f: &mut fmt::Formatter<W>, key: &str) -> fmt::Result
    ensures { WritesOnOk W.write_str_gives f.old result (plans.wants_devices key.now) f.new }
{
    write!(
        f,
        "`{key}` wants numbers of devices: write it as {key} = [3, 4]"
    )
}

impl fmt::Display for PlanFault {
    ghost use Rattle.std.specs.Prelude.{Some};
    ghost use Rattle.cue_rehearsal.specs.Plans.{fault_words};

    ghost output = { λ fault. Some (fault_words fault) };

    fn fmt<W: fmt::Write>(&self, f: &mut fmt::Formatter<W>) -> fmt::Result {
        match self {
            PlanFault::NoTable => f.write_str("it is written as one table, [rehearse]"),
            PlanFault::UnknownKey(key) => {
                let key = key.as_str();
                write!(f, "`{key}` is no key that stands here: look for a slip")
            }
            PlanFault::WantsTime(key) => write_wants_time(f, key),
            PlanFault::WantsLoss => f.write_str(
                "`loss` wants how many of a hundred datagrams are lost: write it as loss = 10",
            ),
            PlanFault::WantsDevices(key) => write_wants_devices(f, key),
            PlanFault::Memory => f.write_str("out of memory"),
        }
    }
}

/// Whether the device is one of these.
pub fn is_among(device: DeviceNo, devices: &[DeviceNo]) -> bool
    ensures { result ≡ plans.is_among device devices.now }
{
    devices.iter().any(|named| *named == device)
}

impl Plan {
    /// Every device plays; it prepares in 0.8 s and moves in 1.5 s, and each takes up to 0.4 s longer.
    pub fn new(alloc: Global) -> Plan {
        Plan {
            prepare: 800,
            moving: 1500,
            spread: 400,
            loss: 0,
            silent: Vec::new(alloc),
            refuses: Vec::new(alloc),
            fails: Vec::new(alloc),
        }
    }

    /// What becomes of a device. One that is in several lists is silent first, and else refuses.
    pub fn behaviour_of(&self, device: DeviceNo) -> Behaviour
        ensures { result ≡ plans.behaviour_of self.now device }
    {
        if is_among(device, &self.silent) {
            Behaviour::Silent
        } else if is_among(device, &self.refuses) {
            Behaviour::Refuses
        } else if is_among(device, &self.fails) {
            Behaviour::Fails
        } else {
            Behaviour::Plays
        }
    }

    /// How the machine of a device behaves.
    pub fn manner_of(&self, device: DeviceNo) -> Manner
        ensures { result ≡ plans.manner_of self.now device }
    {
        Manner {
            prepare: self.prepare,
            moving: self.moving,
            behaviour: self.behaviour_of(device),
        }
    }
}

// A number of a list as that of a device.
fn device_of(value: &Value) -> Option<DeviceNo> {
    match value {
        Value::Integer(number) => DeviceNo::of(i32::try_from(*number).ok()?),
        _ => None,
    }
}

// Puts a device after the others.
fn push(devices: &mut Vec<DeviceNo>, device: DeviceNo) -> Result<(), AllocError> {
    devices.push(device)?;
    Ok(())
}

// The devices at this key; none if there is no such key.
fn devices_in(alloc: Global, table: &Table, key: &'static str) -> Result<Vec<DeviceNo>, PlanFault> {
    let mut devices = Vec::new(alloc);
    let values = match table.get(key) {
        None => return Ok(devices),
        Some(Value::Array(values)) => values.as_slice(),
        Some(_) => return Err(PlanFault::WantsDevices(key)),
    };
    for value in values {
        match device_of(value) {
            Some(device) => push(&mut devices, device)?,
            None => return Err(PlanFault::WantsDevices(key)),
        }
    }
    Ok(devices)
}

// A number up to this one.
fn number_of(value: &Value, most: u32) -> Option<u32> {
    match value {
        Value::Integer(number) => match u32::try_from(*number) {
            Ok(number) if number <= most => Some(number),
            _ => None,
        },
        _ => None,
    }
}

// The time at this key; the usual one if there is no such key.
fn time_in(table: &Table, key: &'static str, usual: u32) -> Result<u32, PlanFault> {
    match table.get(key) {
        None => Ok(usual),
        Some(value) => number_of(value, MAX_TIME).ok_or(PlanFault::WantsTime(key)),
    }
}

// How many of a hundred datagrams are lost.
fn loss_in(table: &Table) -> Result<u8, PlanFault> {
    let Some(value) = table.get("loss") else {
        return Ok(0);
    };
    match number_of(value, 100) {
        Some(loss) => u8::try_from(loss).map_err(|_| PlanFault::WantsLoss),
        None => Err(PlanFault::WantsLoss),
    }
}

/// The keys of the table.
const KEYS: [&str; 7] = [
    "prepare", "move", "spread", "loss", "silent", "refuses", "fails",
];

// Refuses a key that is none of the table's.
fn refuse_unknown(table: &Table) -> Result<(), PlanFault> {
    for key in table.keys() {
        if !KEYS.iter().any(|name| *name == key.as_str()) {
            return Err(PlanFault::UnknownKey(key.clone()?));
        }
    }
    Ok(())
}

// The plan that a table says.
fn plan_in(alloc: Global, table: &Table) -> Result<Plan, PlanFault> {
    let usual = Plan::new(alloc);
    refuse_unknown(table)?;
    Ok(Plan {
        prepare: time_in(table, "prepare", usual.prepare)?,
        moving: time_in(table, "move", usual.moving)?,
        spread: time_in(table, "spread", usual.spread)?,
        loss: loss_in(table)?,
        silent: devices_in(alloc, table, "silent")?,
        refuses: devices_in(alloc, table, "refuses")?,
        fails: devices_in(alloc, table, "fails")?,
    })
}

/// The plan of a show file, of which this is all that TOML reads: that of its table `[rehearse]`, and the usual one
/// if it has none.
pub fn read_plan(alloc: Global, file: &Table) -> Result<Plan, PlanFault> {
    match file.get("rehearse") {
        None => Ok(Plan::new(alloc)),
        Some(Value::Table(table)) => plan_in(alloc, table),
        Some(_) => Err(PlanFault::NoTable),
    }
}

/// The devices of a text as `3,22`; none if it is no such text. It fails only if memory ran out.
pub fn read_devices(alloc: Global, text: &str) -> Result<Option<Vec<DeviceNo>>, AllocError> {
    let mut devices = Vec::new(alloc);
    for word in text.split(',') {
        let device = match word.parse::<i32>() {
            Ok(number) => DeviceNo::of(number),
            Err(_) => None,
        };
        match device {
            Some(device) => devices.push(device)?,
            None => return Ok(None),
        }
    }
    Ok(Some(devices))
}
