//! The marks of an evening: when the curtain went up and down.
ghost use Rattle.std.specs.Prelude.{◌≡◌, IfOk, map, option_map};
ghost use Rattle.serde_json.specs.Data.{array};
ghost use Rattle.serde_json.specs.View.{items_of, view};
ghost use Rattle.cue_page.specs.Marks as marks;

use serde_json::{Value, json};
use std::alloc::{AllocError, Global};

/// When the curtain moved.
#[derive(Clone, Copy, Debug, PartialEq, Eq)]
pub struct CurtainMark {
    /// The second since 1970, by the clock of the wall.
    pub at: u64,
    /// Whether it went up; else it went down.
    pub is_up: bool,
}

// A mark: when the curtain moved, and whether it went up.
fn mark_value(alloc: Global, mark: CurtainMark) -> Result<Value, AllocError>
    ensures { IfOk result (λ v. view v ≡ marks.mark_data mark) }
{
    json!(in alloc; {"at": mark.at, "up": mark.is_up})
}

// These marks.
fn list_value(alloc: Global, all: &[CurtainMark]) -> Result<Value, AllocError>
    ensures { IfOk result (λ v. view v ≡ array (items_of (map marks.mark_data all.now))) }
{
    let mut values = Vec::with_capacity(alloc, all.len())?;
    for mark in all {
        values.push(mark_value(alloc, *mark)?)?;
    }
    Ok(Value::Array(values))
}

/// The marks, in order; null if the page keeps none.
pub(super) fn marks_value(alloc: Global, all: Option<&[CurtainMark]>) -> Result<Value, AllocError>
    ensures { IfOk result (λ v. view v ≡ marks.marks_data (option_map (λ m. m.now) all.entry)) }
{
    match all {
        Some(all) => list_value(alloc, all),
        None => Ok(Value::Null),
    }
}
