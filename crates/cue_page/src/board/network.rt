//! When each device of a relay was heard, and what it told of itself.
ghost use Rattle.std.specs.Prelude.{◌≡◌, IfOk, map};
ghost use Rattle.serde_json.specs.Data.{array};
ghost use Rattle.serde_json.specs.View.{items_of, view};
ghost use Rattle.cue_page.specs.Network as network;

use cue_board::{contact_words, plain_text};
use cue_relay::{Claims, Motion, Position, Reason, Words};
use cue_view::view::Contacted;
use serde_json::{Value, json};
use std::alloc::{AllocError, Global};

// The attempt in which it moves, as far as the relay knows; null if it knows of none.
fn moving_value(motion: Motion) -> Value
    ensures { view result ≡ network.moving_data motion }
{
    match motion {
        Motion::Moving(seq) => Value::from(u64::from(seq)),
        Motion::Unknown | Motion::Over(_) => Value::Null,
    }
}

// The attempt up to which its motions are over; null if the relay does not know.
fn over_value(motion: Motion) -> Value
    ensures { view result ≡ network.over_data motion }
{
    match motion {
        Motion::Over(seq) => Value::from(u64::from(seq)),
        Motion::Unknown | Motion::Moving(_) => Value::Null,
    }
}

// Who made it, as it says; null if it does not.
fn identity_value(alloc: Global, identity: Option<Words>) -> Result<Value, AllocError>
    ensures { IfOk result (λ v. view v ≡ network.identity_data identity) }
{
    match identity {
        Some(words) => Ok(Value::String(plain_text(alloc, words.as_slice())?)),
        None => Ok(Value::Null),
    }
}

// Where it is, and where it goes, as it says; null if it does not, or said so too long ago.
fn position_value(alloc: Global, position: Option<Position>) -> Result<Value, AllocError>
    ensures { IfOk result (λ v. view v ≡ network.position_data position) }
{
    match position {
        Some(position) => {
            let unit = plain_text(alloc, position.unit.as_slice())?;
            json!(in alloc; {"at": position.at, "goal": position.goal, "unit": unit.as_str()})
        }
        None => Ok(Value::Null),
    }
}

// Why it aborted an attempt, as it says; null if it does not.
fn reason_value(alloc: Global, reason: Option<Reason>) -> Result<Value, AllocError>
    ensures { IfOk result (λ v. view v ≡ network.reason_data reason) }
{
    match reason {
        Some(reason) => {
            let (attempt, words) = (
                u64::from(reason.seq),
                plain_text(alloc, reason.words.as_slice())?,
            );
            json!(in alloc; {"attempt": attempt, "words": words.as_str()})
        }
        None => Ok(Value::Null),
    }
}

// What it told of itself.
#[tactic(auto, unfolding(crate::specs::Network::claims_data))]
fn claims_value(alloc: Global, claims: &Claims) -> Result<Value, AllocError>
    ensures { IfOk result (λ v. view v ≡ network.claims_data claims.now) }
{
    let identity = identity_value(alloc, claims.identity)?;
    let position = position_value(alloc, claims.position)?;
    let reason = reason_value(alloc, claims.reason)?;
    json!(in alloc; {"identity": identity, "position": position, "reason": reason})
}

/// A device of a relay: when it was heard, in words, what is known of its motions, whether it is silent, and what it
/// told of itself.
pub fn contact_value(alloc: Global, contact: &Contacted) -> Result<Value, AllocError>
    ensures { IfOk result (λ v. view v ≡ network.contact_data contact.now) }
{
    let device = u64::from(contact.device.number());
    let words = contact_words(alloc, contact)?;
    let (moving, over) = (moving_value(contact.motion), over_value(contact.motion));
    let (heard, silent) = (words.as_str(), contact.silent);
    let claims = claims_value(alloc, &contact.claims)?;
    json!(in alloc; {
        "claims": claims, "device": device, "heard": heard, "moving": moving, "over": over, "silent": silent
    })
}

/// The devices of a relay.
pub(super) fn network_value(alloc: Global, contacts: &[Contacted]) -> Result<Value, AllocError>
    ensures { IfOk result (λ v. view v ≡ array (items_of (map network.contact_data contacts.now))) }
{
    let mut values = Vec::with_capacity(alloc, contacts.len())?;
    for contact in contacts {
        values.push(contact_value(alloc, contact)?)?;
    }
    Ok(Value::Array(values))
}
