//! The devices that do not stand as the stack supposes.
ghost use Rattle.std.specs.Prelude.{◌≡◌, IfOk, map, option_map};
ghost use Rattle.serde_json.specs.Data.{array};
ghost use Rattle.serde_json.specs.View.{items_of, view};
ghost use Rattle.cue_page.specs.Whereabouts as whereabouts;

use super::ends::cue_value;
use super::stack::companions_of;
use cue_elsewhere::{asks, part_words};
use cue_show::{CueNo, Show};
use cue_show_file::{Group, cue_text};
use cue_view::view::Next;
use cue_whereabouts::{Difference, LastPart, PartBytes};
use serde_json::{Value, json};
use std::alloc::{AllocError, Global};

/// Where devices stand, beside a view: by the copy of the store that the view shows.
#[derive(Clone, Copy)]
pub struct Standing<'a> {
    /// The devices that do not stand as the stack supposes, in the order of the table.
    pub differences: &'a [Difference],
    /// The show of that copy; none if the store was never read.
    pub show: Option<&'a Show>,
}

// The bytes of a part, in words; null if they are not known.
fn part_value(alloc: Global, bytes: Option<PartBytes>) -> Result<Value, AllocError>
    ensures { IfOk result (λ v. view v ≡ whereabouts.part_data bytes) }
{
    match bytes {
        Some(bytes) => Ok(Value::String(part_words(alloc, bytes)?)),
        None => Ok(Value::Null),
    }
}

// The last part of a device: its cue, whether the device failed in it, and its bytes.
fn last_value(alloc: Global, last: &LastPart) -> Result<Value, AllocError>
    ensures { IfOk result (λ v. view v ≡ whereabouts.last_data last.now) }
{
    let cue = cue_value(alloc, last.cue())?;
    let part = part_value(alloc, last.bytes())?;
    let has_failed = !last.end().is_carried_out();
    json!(in alloc; {"cue": cue, "failed": has_failed, "part": part})
}

// The same; null if nothing was heard of the device.
fn last_or_null(alloc: Global, last: &Option<LastPart>) -> Result<Value, AllocError>
    ensures { IfOk result (λ v. view v ≡ whereabouts.last_or_null last.now) }
{
    match last {
        Some(last) => last_value(alloc, last),
        None => Ok(Value::Null),
    }
}

/// A device that does not stand as the stack supposes: whether STANDBY asks once more because of it, its number, its
/// last part, and the cue that the stack supposes to be its last.
pub fn difference_value(
    alloc: Global,
    difference: &Difference,
    show: Option<&Show>,
    companions: &[CueNo],
) -> Result<Value, AllocError>
    ensures { IfOk result (λ v. view v
        ≡ whereabouts.difference_data (option_map (λ s. s.now) show.entry) companions.now difference.now) }
{
    let is_asked = asks(difference, show, companions);
    let device = u64::from(difference.device.number());
    let last = last_or_null(alloc, &difference.last)?;
    let supposed = cue_text(&difference.supposed);
    json!(in alloc; {"asks": is_asked, "device": device, "last": last, "supposed": supposed})
}

// These devices.
fn each_value(
    alloc: Global,
    differences: &[Difference],
    show: Option<&Show>,
    companions: &[CueNo],
) -> Result<Value, AllocError>
    ensures { IfOk result (λ v. view v ≡ array (items_of
        (map (whereabouts.difference_data (option_map (λ s. s.now) show.entry) companions.now) differences.now))) }
{
    let mut values = Vec::with_capacity(alloc, differences.len())?;
    for difference in differences {
        values.push(difference_value(alloc, difference, show, companions)?)?;
    }
    Ok(Value::Array(values))
}

/// The devices that do not stand as the stack supposes, if this cue is next.
pub(super) fn whereabouts_value(
    alloc: Global,
    standing: &Standing<'_>,
    next: Next,
    groups: &[Group],
) -> Result<Value, AllocError>
    ensures { IfOk result (λ v. view v ≡ whereabouts.whereabouts_data groups.now next standing.now) }
{
    each_value(
        alloc,
        standing.differences,
        standing.show,
        companions_of(groups, next),
    )
}
