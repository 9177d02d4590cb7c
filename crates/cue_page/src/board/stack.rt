//! The cue that is next, and the stack.
ghost use Rattle.std.specs.Prelude.{◌≡◌, IfOk, map};
ghost use Rattle.serde_json.specs.Data.{array};
ghost use Rattle.serde_json.specs.View.{items_of, view};
ghost use Rattle.cue_page.specs.Stack as stack;

use cue_show::CueNo;
use cue_show_file::{Group, cue_text, others_of};
use cue_view::view::Next;
use serde_json::{Value, json};
use std::alloc::{AllocError, Global};

// The cue that is next; null if none is.
fn cue_value(alloc: Global, next: Next) -> Result<Value, AllocError>
    ensures { IfOk result (λ v. view v ≡ stack.cue_data next) }
{
    match next {
        Next::Cue(cue) => Ok(Value::String(String::from_str(alloc, cue_text(&cue))?)),
        Next::Empty | Next::End | Next::Unknown => Ok(Value::Null),
    }
}

// Why none is next; empty if one is.
fn why(next: Next) -> &'static str
    ensures { result.now ≡ stack.why next }
{
    match next {
        Next::Cue(_) => "",
        Next::Empty => "The stack has no cue.",
        Next::End => "No cue is next: the stack is at its end. To give a cue again, move to it.",
        Next::Unknown => "Which cue is next is not known. Move to one.",
    }
}

/// The cues that are stood by together with the one that is next.
pub(super) fn companions_of(groups: &[Group], next: Next) -> &[CueNo]
    ensures { result.now ≡ stack.companions_of groups.now next }
{
    match next {
        Next::Cue(cue) => others_of(groups, cue),
        Next::Empty | Next::End | Next::Unknown => &[],
    }
}

/// The cue that is next with those that are stood by together with it, or why none is.
pub fn next_value(alloc: Global, next: Next, groups: &[Group]) -> Result<Value, AllocError>
    ensures { IfOk result (λ v. view v ≡ stack.next_data groups.now next) }
{
    let (cue, why) = (cue_value(alloc, next)?, why(next));
    let with = stack_value(alloc, companions_of(groups, next))?;
    json!(in alloc; {"cue": cue, "why": why, "with": with})
}

/// The stack: the numbers of its cues, in order.
pub(super) fn stack_value(alloc: Global, cues: &[CueNo]) -> Result<Value, AllocError>
    ensures { IfOk result (λ v. view v ≡ array (items_of (map stack.number_data cues.now))) }
{
    let mut numbers = Vec::with_capacity(alloc, cues.len())?;
    for cue in cues {
        numbers.push(Value::String(String::from_str(alloc, cue_text(cue))?))?;
    }
    Ok(Value::Array(numbers))
}
