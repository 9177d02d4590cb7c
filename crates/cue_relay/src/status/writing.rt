//! Writes the text of a status.
ghost use Rattle.std.specs.Prelude.{◌≡◌, ◌++◌, IfOk, OnOk, codes};
ghost use Rattle.std.specs.Int.{to_be_bytes, w32};
ghost use Rattle.std.specs.List.{flat_map};
ghost use Rattle.std.specs.Net.Text.{ipv4_text};
ghost use Rattle.cue_relay.specs.Status as text;

use crate::claims::{Claims, Position, Reason, Words};
use crate::motion::Motion;
use crate::relaying::Counts;
use crate::route::Address;
use crate::status::{Ordered, Seen, Status};
use cue_show::DeviceNo;
use itoa::Buffer;
use std::alloc::{AllocError, Global};

/// How many bytes a status has room for at first, beside those of its devices.
const HEAD: usize = 128;

/// How many bytes a device has room for at first.
const DEVICE: usize = 96;

// Fixed words.
fn put(out: &mut Vec<u8>, words: &[u8]) -> Result<(), AllocError>
    ensures { OnOk result (out.new.items ≡ out.old.items ++ words.now) }
{
    out.extend_from_slice(words)
}

// Words, and a number after them.
fn put_counted(out: &mut Vec<u8>, words: &[u8], number: u64) -> Result<(), AllocError>
    ensures { OnOk result (out.new.items ≡ out.old.items ++ text.counted words.now number) }
{
    let mut buffer = Buffer::new();
    put(out, words)?;
    put(out, buffer.format(number).as_bytes())
}

// Words, and a number after them that may be negative.
fn put_measured(out: &mut Vec<u8>, words: &[u8], number: i32) -> Result<(), AllocError>
    ensures { OnOk result (out.new.items ≡ out.old.items ++ text.measured words.now number) }
{
    let mut buffer = Buffer::new();
    put(out, words)?;
    put(out, buffer.format(number).as_bytes())
}

// The four numbers of a host, with dots between them.
fn put_host(out: &mut Vec<u8>, host: u32) -> Result<(), AllocError>
    ensures { OnOk result (out.new.items ≡ out.old.items ++ ipv4_text (to_be_bytes w32 host)) }
{
    let octets = host.to_be_bytes();
    put_counted(out, b"", u64::from(octets[0]))?;
    put_counted(out, b".", u64::from(octets[1]))?;
    put_counted(out, b".", u64::from(octets[2]))?;
    put_counted(out, b".", u64::from(octets[3]))
}

// A host and a port.
#[tactic(auto, unfolding(crate::specs::Status::address_text))]
fn put_address(out: &mut Vec<u8>, address: Address) -> Result<(), AllocError>
    ensures { OnOk result (out.new.items ≡ out.old.items ++ text.address_text address) }
{
    put_host(out, address.host)?;
    put_counted(out, b":", u64::from(address.port))
}

// A device, and where it is.
#[tactic(auto, unfolding(crate::specs::Status::place_text))]
fn put_place(out: &mut Vec<u8>, device: DeviceNo, address: Address) -> Result<(), AllocError>
    ensures { OnOk result (out.new.items ≡ out.old.items ++ text.place_text device address) }
{
    put_counted(out, b"device ", u64::from(device.number()))?;
    put(out, b" ")?;
    put_address(out, address)
}

// When it answered last.
#[tactic(auto, unfolding(crate::specs::Status::heard_text))]
fn put_heard(out: &mut Vec<u8>, heard: Option<u64>) -> Result<(), AllocError>
    ensures { OnOk result (out.new.items ≡ out.old.items ++ text.heard_text heard) }
{
    match heard {
        Some(heard) => put_counted(out, b" heard ", heard),
        None => put(out, b" never"),
    }
}

// The word of an order.
fn ordered_word(ordered: Ordered) -> &'static [u8]
    ensures { result.now ≡ text.ordered_word ordered }
{
    match ordered {
        Ordered::Standby => b" standby",
        Ordered::Go => b" go",
        Ordered::Cancel => b" cancel",
    }
}

// The order that it has not answered.
fn ordered_text(ordered: Option<Ordered>) -> &'static [u8]
    ensures { result.now ≡ text.ordered_text ordered }
{
    match ordered {
        Some(ordered) => ordered_word(ordered),
        None => b"",
    }
}

// What is known of its motions.
fn put_motion(out: &mut Vec<u8>, motion: Motion) -> Result<(), AllocError>
    ensures { OnOk result (out.new.items ≡ out.old.items ++ text.motion_text motion) }
{
    match motion {
        Motion::Unknown => Ok(()),
        Motion::Moving(seq) => put_counted(out, b" moving ", u64::from(seq)),
        Motion::Over(seq) => put_counted(out, b" over ", u64::from(seq)),
    }
}

// Whether it is silent, and the end of its line.
fn silent_text(silent: bool) -> &'static [u8]
    ensures { result.now ≡ text.silent_text silent }
{
    if silent { b" silent\n" } else { b"\n" }
}

// A word, what was told, and the end of the line.
#[tactic(auto, unfolding(crate::specs::Status::told_text))]
fn put_told(out: &mut Vec<u8>, word: &[u8], told: &[u8]) -> Result<(), AllocError>
    ensures { OnOk result (out.new.items ≡ out.old.items ++ text.told_text word.now told.now) }
{
    put(out, word)?;
    put(out, told)?;
    put(out, b"\n")
}

// Why it aborted an attempt.
#[tactic(auto, unfolding(crate::specs::Status::reason_text))]
fn put_reason(out: &mut Vec<u8>, reason: &Option<Reason>) -> Result<(), AllocError>
    ensures { OnOk result (out.new.items ≡ out.old.items ++ text.reason_text reason.now) }
{
    let Some(reason) = reason else {
        return Ok(());
    };
    put_counted(out, b"why ", u64::from(reason.seq))?;
    put_told(out, b" ", reason.words.as_slice())
}

// Where it was, and where it went.
#[tactic(auto, unfolding(crate::specs::Status::measures_text))]
fn put_measures(out: &mut Vec<u8>, at: i32, goal: i32) -> Result<(), AllocError>
    ensures { OnOk result (out.new.items ≡ out.old.items ++ text.measures_text at goal) }
{
    put_measured(out, b" ", at)?;
    put_measured(out, b" ", goal)
}

// Where it was, where it went, and the unit of both.
#[tactic(auto, unfolding(crate::specs::Status::position_text))]
fn put_position(out: &mut Vec<u8>, position: &Option<Position>) -> Result<(), AllocError>
    ensures { OnOk result (out.new.items ≡ out.old.items ++ text.position_text position.now) }
{
    let Some(position) = position else {
        return Ok(());
    };
    put_counted(out, b"at ", position.told)?;
    put_measures(out, position.at, position.goal)?;
    put_told(out, b" ", position.unit.as_slice())
}

// Who made it.
#[tactic(auto, unfolding(crate::specs::Status::identity_text))]
fn put_identity(out: &mut Vec<u8>, identity: &Option<Words>) -> Result<(), AllocError>
    ensures { OnOk result (out.new.items ≡ out.old.items ++ text.identity_text identity.now) }
{
    match identity {
        Some(words) => put_told(out, b"who ", words.as_slice()),
        None => Ok(()),
    }
}

// The lines of what it told of itself.
#[tactic(auto, unfolding(crate::specs::Status::claims_text))]
fn put_claims(out: &mut Vec<u8>, claims: &Claims) -> Result<(), AllocError>
    ensures { OnOk result (out.new.items ≡ out.old.items ++ text.claims_text claims.now) }
{
    put_reason(out, &claims.reason)?;
    put_position(out, &claims.position)?;
    put_identity(out, &claims.identity)
}

// The lines of a device.
#[tactic(auto, unfolding(crate::specs::Status::seen_text))]
fn put_seen(out: &mut Vec<u8>, seen: &Seen) -> Result<(), AllocError>
    ensures { OnOk result (out.new.items ≡ out.old.items ++ text.seen_text seen.now) }
{
    put_place(out, seen.device, seen.address)?;
    put_heard(out, seen.heard)?;
    put(out, ordered_text(seen.ordered))?;
    put_motion(out, seen.motion)?;
    put(out, silent_text(seen.silent))?;
    put_claims(out, &seen.claims)
}

// The lines of all devices.
fn put_devices(out: &mut Vec<u8>, devices: &[Seen]) -> Result<(), AllocError>
    ensures { OnOk result (out.new.items ≡ out.old.items ++ flat_map text.seen_text devices.now) }
{
    for seen in devices {
        put_seen(out, seen)?;
    }
    Ok(())
}

// When it was written, and the counts.
#[tactic(auto, unfolding(crate::specs::Status::head_text))]
fn put_head(out: &mut Vec<u8>, now: u64, counts: Counts) -> Result<(), AllocError>
    ensures { OnOk result (out.new.items ≡ out.old.items ++ text.head_text now counts) }
{
    put_counted(out, b"relay 4 ", now)?;
    put_counted(out, b"\npassed ", counts.passed)?;
    put_counted(out, b" lost ", counts.lost)?;
    put_counted(out, b" dropped ", counts.dropped)?;
    put(out, b"\n")
}

/// The text of a status.
pub fn write(alloc: Global, status: &Status) -> Result<Vec<u8>, AllocError>
    ensures { IfOk result (λ out. out.items ≡ text.status_text (text.said_of status.entry.now)) }
{
    let room = status
        .devices
        .len()
        .saturating_mul(DEVICE)
        .saturating_add(HEAD);
    let mut out = Vec::with_capacity(alloc, room)?;
    put_head(&mut out, status.now, status.counts)?;
    put_devices(&mut out, &status.devices)?;
    put(&mut out, b"end\n")?;
    Ok(out)
}
