//! The lit buttons as JSON (RFC 8259), each with the text that a press of it sends.
ghost use Rattle.std.specs.Prelude.{◌≡◌, IfOk, map};
ghost use Rattle.serde_json.specs.Data.{array};
ghost use Rattle.serde_json.specs.View.{items_of, view};
ghost use Rattle.cue_request.specs.Lit as lit;

use crate::pressing::press_text;
use cue_show_file::cue_text;
use cue_view::button::Button;
use serde_json::{Value, json};
use std::alloc::{AllocError, Global};

// Which button it is.
fn kind_of(button: Button) -> &'static str
    ensures { result.now ≡ lit.kind_of button }
{
    match button {
        Button::Standby(_) => "standby",
        Button::Go(_, _) => "go",
        Button::Cancel(_, _) => "cancel",
        Button::Release(_, _) => "release",
        Button::MoveTo(_) => "goto",
        Button::Choose(_) => "choose",
        Button::Seen(_) => "seen",
    }
}

// The cue that it is for; null if it names none.
fn cue_value(alloc: Global, button: Button) -> Result<Value, AllocError>
    ensures { IfOk result (λ v. view v ≡ lit.cue_data button) }
{
    match button {
        Button::Standby(cue) | Button::Go(cue, _) | Button::Cancel(cue, _) | Button::MoveTo(cue) =>
            { Ok(Value::String(String::from_str(alloc, cue_text(&cue))?)) }
        Button::Release(_, _) | Button::Choose(_) | Button::Seen(_) => Ok(Value::Null),
    }
}

// The attempt that it is for; 0 if it names none.
fn attempt_of(button: Button) -> u32
    ensures { result ≡ lit.attempt_of button }
{
    match button {
        Button::Go(_, attempt)
        | Button::Cancel(_, attempt)
        | Button::Release(attempt, _)
        | Button::Choose(attempt)
        | Button::Seen(attempt) => attempt,
        Button::Standby(_) | Button::MoveTo(_) => 0,
    }
}

// The device that it is for; null if it names none.
fn device_value(button: Button) -> Value
    ensures { view result ≡ lit.device_data button }
{
    match button {
        Button::Release(_, device) => Value::from(u64::from(device.number())),
        _ => Value::Null,
    }
}

// A button that is lit: which one, what it is for, and the text that a press of it sends after the view's number.
fn button_value(alloc: Global, button: Button) -> Result<Value, AllocError>
    ensures { IfOk result (λ v. view v ≡ lit.button_data button) }
{
    let press = press_text(alloc, button)?;
    let (press, kind) = (press.as_str(), kind_of(button));
    let (cue, device) = (cue_value(alloc, button)?, device_value(button));
    let attempt = u64::from(attempt_of(button));
    json!(in alloc; {"attempt": attempt, "cue": cue, "device": device, "kind": kind, "press": press})
}

/// The buttons that are lit, in the order of the view.
pub fn lit_value(alloc: Global, buttons: &[Button]) -> Result<Value, AllocError>
    ensures { IfOk result (λ v. view v ≡ array (items_of (map lit.button_data buttons.now))) }
{
    let mut lit = Vec::with_capacity(alloc, buttons.len())?;
    for button in buttons {
        lit.push(button_value(alloc, *button)?)?;
    }
    Ok(Value::Array(lit))
}
