//! The keys of a show file that say where devices are on the stage's network.
ghost use Rattle.std.specs.Prelude.{◌≡◌, IfOk, IsOk, IsTrue, None, codes};
ghost use Rattle.toml.specs.Data.{get_member};
ghost use Rattle.toml.specs.View.{table_view};
ghost use Rattle.cue_show_file.specs.Reading.{is_clean};

use crate::mistake::{Findings, Key, Mistake};
use crate::reading::value_at;
use cue_relay::Address;
use std::alloc::AllocError;
use std::net::Ipv4Addr;
use toml::{Table, Value};

// The address at the key `address`, or what is wrong with it.
fn address_in(table: &Table) -> Result<Option<Address>, Mistake>
    ensures { get_member (codes "address") (table_view table.now) ≡ None → IsOk result }
{
    match value_at(table, "address") {
        None => Ok(None),
        Some(Value::String(text)) => match Address::read(text.as_str()) {
            Some(address) => Ok(Some(address)),
            None => Err(Mistake::BadAddress),
        },
        Some(_) => Err(Mistake::OtherKind(Key::Address)),
    }
}

// The address that a text names at which a machine can listen to the stage: neither 0.0.0.0 nor one of 127.0.0.1, where
// the controller is.
fn listen_of(text: &str) -> Option<u32> {
    let host: Ipv4Addr = text.parse().ok()?;
    if host.is_unspecified() || host == Ipv4Addr::LOCALHOST {
        return None;
    }
    Some(host.to_bits())
}

// The address at the key `listen`, or what is wrong with it.
fn listen_in(table: &Table) -> Result<Option<u32>, Mistake>
    ensures { get_member (codes "listen") (table_view table.now) ≡ None → IsOk result }
{
    match value_at(table, "listen") {
        None => Ok(None),
        Some(Value::String(text)) => match listen_of(text.as_str()) {
            Some(host) => Ok(Some(host)),
            None => Err(Mistake::BadListen),
        },
        Some(_) => Err(Mistake::OtherKind(Key::Listen)),
    }
}

/// Where a device is on the stage's network; none if the file does not say so, or if that is wrong, which is
/// noted.
pub(crate) fn read_address(
    findings: &mut Findings,
    table: &Table,
) -> Result<Option<Address>, AllocError>
    ensures clean { IfOk result (λ _. IsTrue (is_clean findings.new) → IsTrue (is_clean findings.old)) }
    ensures same { IfOk result (λ _. get_member (codes "address") (table_view table.now) ≡ None
        → is_clean findings.new ≡ is_clean findings.old) }
{
    match address_in(table) {
        Ok(address) => Ok(address),
        Err(mistake) => {
            findings.note(mistake)?;
            Ok(None)
        }
    }
}

/// Where this machine is on the stage's network; none if the file does not say so, or if that is wrong, which is
/// noted.
pub(crate) fn read_listen(findings: &mut Findings, table: &Table) -> Result<Option<u32>, AllocError>
    ensures clean { IfOk result (λ _. IsTrue (is_clean findings.new) → IsTrue (is_clean findings.old)) }
    ensures same { IfOk result (λ _. get_member (codes "listen") (table_view table.now) ≡ None
        → is_clean findings.new ≡ is_clean findings.old) }
{
    match listen_in(table) {
        Ok(host) => Ok(host),
        Err(mistake) => {
            findings.note(mistake)?;
            Ok(None)
        }
    }
}
