//! What became of the last press, and why one was not sent.
ghost use Rattle.std.specs.Prelude.{◌≡◌, IfOk};
ghost use Rattle.serde_json.specs.View.{view};
ghost use Rattle.cue_page.specs.Said as said;

use cue_board::{became_words, unsent_words};
use cue_request::pressing::press_text;
use cue_view::view::{Became, Said, Unsent};
use serde_json::{Value, json};
use std::alloc::{AllocError, Global};

// Whether it is open, done or not.
fn kind_of(became: Became) -> &'static str
    ensures { result.now ≡ said.kind_of became }
{
    match became {
        Became::Open => "open",
        Became::Made | Became::Known | Became::Carried => "made",
        Became::Unshown => "said",
        Became::Over => "over",
        Became::Refused(_) | Became::Partly(_) => "refused",
        Became::Nobody | Became::Lost | Became::Unknown => "refused",
    }
}

// A press that was sent.
fn press_value(alloc: Global, press: Said, port: u16) -> Result<Value, AllocError>
    ensures { IfOk result (λ v. view v ≡ said.press_data port press) }
{
    let text = press_text(alloc, press.button)?;
    let words = became_words(alloc, press.became, port)?;
    let (text, words) = (text.as_str(), words.as_str());
    json!(in alloc; {"ask": press.ask, "kind": kind_of(press.became), "press": text, "words": words})
}

/// A press that was sent, and what became of it; null if none was.
pub(super) fn said_value(alloc: Global, press: Option<Said>, port: u16) -> Result<Value, AllocError>
    ensures { IfOk result (λ v. view v ≡ said.said_data port press) }
{
    match press {
        Some(press) => press_value(alloc, press, port),
        None => Ok(Value::Null),
    }
}

// Whether the press was refused, or was one press with the GO before it.
fn unsent_kind(unsent: Unsent) -> &'static str
    ensures { result.now ≡ said.unsent_kind unsent }
{
    match unsent {
        Unsent::Again => "again",
        Unsent::Old | Unsent::Dark | Unsent::Changed => "refused",
    }
}

/// Why a press was not sent; null if each was.
pub(super) fn unsent_value(alloc: Global, unsent: Option<Unsent>) -> Result<Value, AllocError>
    ensures { IfOk result (λ v. view v ≡ said.unsent_data unsent) }
{
    match unsent {
        Some(unsent) => {
            json!(in alloc; {"kind": unsent_kind(unsent), "words": unsent_words(unsent)})
        }
        None => Ok(Value::Null),
    }
}
