//! The command `rehearse`, and what stands after it.
use super::arguments::{Argument, Bits, Declared, FILE};
use super::words::Line;
use super::{or_unfit, text_in};
use clap::ArgMatches;
use cue_desk::line::{LineFault, unfit};
use cue_rehearsal::{MAX_TIME, Plan, read_devices};
use cue_show::DeviceNo;
use std::alloc::{AllocError, Global};

// What the flags say of times, and how many of a hundred datagrams are lost.
#[derive(Clone, Copy)]
struct Times {
    prepare: Option<u32>,
    moving: Option<u32>,
    spread: Option<u32>,
    loss: Option<u32>,
}

// What the flags say of single devices.
#[derive(Drop)]
struct Named {
    silent: Option<Vec<DeviceNo>>,
    refuses: Option<Vec<DeviceNo>>,
    fails: Option<Vec<DeviceNo>>,
}

/// What the flags say; what a flag says wins over the file.
#[derive(Drop)]
pub struct Flags {
    times: Times,
    named: Named,
}

/// What is rehearsed, and how.
#[derive(Drop)]
pub struct Rehearsal {
    pub file: String,
    /// What the draws come from.
    pub seed: u64,
    pub flags: Flags,
}

// The plan of a file, with what the flags say of its times.
fn timed(plan: &mut Plan, times: Times) {
    plan.prepare = times.prepare.unwrap_or(plan.prepare);
    plan.moving = times.moving.unwrap_or(plan.moving);
    plan.spread = times.spread.unwrap_or(plan.spread);
    if let Some(loss) = times.loss {
        plan.loss = u8::try_from(loss).unwrap_or(100);
    }
}

// The devices of a file, or else those that a flag says.
fn say_devices(
    alloc: Global,
    devices: &mut Vec<DeviceNo>,
    said: &Option<Vec<DeviceNo>>,
) -> Result<(), AllocError> {
    if let Some(said) = said {
        *devices = Vec::from_slice(alloc, said)?;
    }
    Ok(())
}

/// The plan of a file, with what the flags say.
pub fn with_flags(alloc: Global, plan: &mut Plan, flags: &Flags) -> Result<(), AllocError> {
    timed(plan, flags.times);
    say_devices(alloc, &mut plan.silent, &flags.named.silent)?;
    say_devices(alloc, &mut plan.refuses, &flags.named.refuses)?;
    say_devices(alloc, &mut plan.fails, &flags.named.fails)
}

/// The command `rehearse`.
pub(super) const REHEARSE_COMMAND: Declared = Declared {
    name: "rehearse",
    about: "Play every device of a show file, until Ctrl-C:  cuedesk rehearse evening.toml --silent 22",
    arguments: &[
        FILE,
        Argument::Number(
            Bits::Of64,
            "seed",
            "What the draws come from: the same seed draws the same",
        ),
        Argument::Number(
            Bits::Of32,
            "prepare",
            "Milliseconds to prepare, and to give up",
        ),
        Argument::Number(Bits::Of32, "move", "Milliseconds to move"),
        Argument::Number(
            Bits::Of32,
            "spread",
            "Milliseconds that each may take longer, by chance",
        ),
        Argument::Number(
            Bits::Of32,
            "loss",
            "How many of a hundred datagrams are lost",
        ),
        Argument::Option("silent", "Devices that never answer, as 3,22"),
        Argument::Option("refuses", "Devices that abort in place of preparing"),
        Argument::Option("fails", "Devices that abort in place of moving"),
    ],
};

// A number that is too large for this flag.
fn too_large(alloc: Global, name: &str, number: u32, most: u32) -> Result<LineFault, AllocError> {
    let word = format!(in alloc; "--{name} {number}")?;
    let wanted = format!(in alloc; "is too large: {most} at most")?;
    Ok(unfit(alloc, word.as_str(), wanted.as_str()))
}

// The number at this flag, up to this one.
fn number_in(
    alloc: Global,
    found: &ArgMatches<'_>,
    name: &str,
    most: u32,
) -> Result<Option<u32>, LineFault> {
    match found.get_one::<u32>(name) {
        Some(number) if number <= most => Ok(Some(number)),
        Some(number) => Err(too_large(alloc, name, number, most)?),
        None => Ok(None),
    }
}

// The devices at this flag.
fn devices_in(
    alloc: Global,
    found: &ArgMatches<'_>,
    name: &str,
) -> Result<Option<Vec<DeviceNo>>, LineFault> {
    let Some(text) = found.get_str(name) else {
        return Ok(None);
    };
    let wanted = "is no list of devices: write their numbers, 0 to 111, with commas, as 3,22";
    let devices = or_unfit(alloc, read_devices(alloc, text)?, text, wanted)?;
    Ok(Some(devices))
}

// What the flags say of times, and of what is lost.
fn times_in(alloc: Global, found: &ArgMatches<'_>) -> Result<Times, LineFault> {
    Ok(Times {
        prepare: number_in(alloc, found, "prepare", MAX_TIME)?,
        moving: number_in(alloc, found, "move", MAX_TIME)?,
        spread: number_in(alloc, found, "spread", MAX_TIME)?,
        loss: number_in(alloc, found, "loss", 100)?,
    })
}

// What the flags say of single devices.
fn named_in(alloc: Global, found: &ArgMatches<'_>) -> Result<Named, LineFault> {
    Ok(Named {
        silent: devices_in(alloc, found, "silent")?,
        refuses: devices_in(alloc, found, "refuses")?,
        fails: devices_in(alloc, found, "fails")?,
    })
}

// What all flags say.
fn flags_in(alloc: Global, found: &ArgMatches<'_>) -> Result<Flags, LineFault> {
    Ok(Flags {
        times: times_in(alloc, found)?,
        named: named_in(alloc, found)?,
    })
}

/// The command `rehearse`, with what stands after it.
pub fn rehearsal_in(alloc: Global, found: &ArgMatches<'_>) -> Result<Line, LineFault> {
    Ok(Line::Rehearse(Rehearsal {
        file: text_in(alloc, found, "FILE")?,
        seed: found.get_one::<u64>("seed").unwrap_or(1),
        flags: flags_in(alloc, found)?,
    }))
}
