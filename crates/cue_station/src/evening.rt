//! A whole evening.
ghost use Rattle.std.specs.Prelude.{IfOk, OnErr};
ghost use Rattle.cue_station.specs.Evening.{Plays, Stops};

use crate::heard::Input;
use crate::station::{Station, Step};
use std::alloc::{AllocError, Global};

/// Hears one thing after the other: the step of each. Whatever was heard before, the evening keeps the law. If memory
/// runs out, the desk stands after the first of them, and has heard no more.
pub fn play(
    station: &mut Station,
    alloc: Global,
    inputs: Vec<Input>,
) -> Result<Vec<Step>, AllocError>
    ensures ok { IfOk result (λ steps. Plays station.old inputs.items steps.items station.new) }
    ensures err { OnErr result (Stops station.old inputs.items station.new) }
{
    let mut steps = Vec::with_capacity(alloc, inputs.len())?;
    for input in inputs {
        steps.push(station.step(alloc, input)?)?;
    }
    Ok(steps)
}
