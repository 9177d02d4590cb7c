//! What a relay says of its devices, as it is shown.
ghost use Rattle.std.specs.Prelude.{◌≡◌, ◌-◌, IfOk};
ghost use Rattle.std.specs.Option.{option_copied};
ghost use Rattle.cue_station.specs.Network as network;

use crate::limits::{POSITION_MS, RELAY_MS};
use cue_relay::status::{Seen, Status};
use cue_relay::{Claims, Position};
use cue_view::view::{Contacted, LastHeard};
use std::alloc::{AllocError, Global};

/// Whether a relay that has written nothing new since that moment has stopped.
pub fn is_stopped(since: u64, at: u64) -> bool
    ensures { result ≡ network.is_stopped since at }
{
    at.saturating_sub(since) >= RELAY_MS
}

// When a device was heard that was heard at that time by the clock of the relay, which wrote this at the time `now` of
// its clock, `age` milliseconds ago by ours.
fn last_heard(heard: Option<u64>, now: u64, age: u64) -> LastHeard
    ensures { result ≡ network.last_heard heard now age }
{
    match heard {
        None => LastHeard::Never,
        Some(heard) if heard <= now => LastHeard::Ago((now - heard).saturating_add(age)),
        Some(_) => LastHeard::Unknown,
    }
}

// Whether a position is shown that was told at that time by the clock of the relay: it is two seconds old at most, and
// not of a time that is still to come.
fn is_of_now(told: u64, now: u64, age: u64) -> bool
    ensures { result ≡ network.is_of_now now age told }
{
    told <= now && (now - told).saturating_add(age) <= POSITION_MS
}

// The position, if it is shown.
fn position_shown(position: Option<Position>, now: u64, age: u64) -> Option<Position>
    ensures { result ≡ network.position_shown now age position }
{
    match position {
        Some(position) if is_of_now(position.told, now, age) => Some(position),
        _ => None,
    }
}

// What a device told of itself, as it is shown.
fn claims_shown(claims: &Claims, now: u64, age: u64) -> Claims
    ensures { result ≡ network.claims_shown now age claims.now }
{
    Claims {
        reason: claims.reason,
        position: position_shown(claims.position, now, age),
        identity: claims.identity,
    }
}

// What the relay says of one device.
fn contacted(seen: &Seen, now: u64, age: u64) -> Contacted
    ensures { result ≡ network.contacted now age seen.now }
{
    Contacted {
        device: seen.device,
        heard: last_heard(seen.heard, now, age),
        ordered: seen.ordered,
        motion: seen.motion,
        silent: seen.silent,
        claims: claims_shown(&seen.claims, now, age),
    }
}

// What the relay says of its devices.
fn contacts(alloc: Global, status: &Status, age: u64) -> Result<Vec<Contacted>, AllocError>
    ensures { IfOk result (λ contacts. contacts.items ≡ network.contacts age status.entry.now) }
{
    let now = status.now;
    status
        .devices
        .iter()
        .map(|seen| contacted(seen, now, age))
        .collect(alloc)
}

/// What the relay says of its devices at this moment, if it wrote this, and nothing new since; nothing if it has
/// stopped, or has never been read.
pub fn network_in(
    alloc: Global,
    status: Option<&Status>,
    since: u64,
    at: u64,
) -> Result<Vec<Contacted>, AllocError>
    ensures { IfOk result (λ contacts. contacts.items
        ≡ network.contacts_by (option_copied status.entry) (network.is_stopped since at) (at - since)) }
{
    match status {
        Some(status) => {
            if is_stopped(since, at) {
                Ok(Vec::new(alloc))
            } else {
                contacts(alloc, status, at.saturating_sub(since))
            }
        }
        None => Ok(Vec::new(alloc)),
    }
}
