//! The devices of a show file.
ghost use Rattle.std.specs.Prelude.{◌≡◌, ◌&&◌, IfOk, IsTrue, None, Some, codes, is_some, unwrap_or};
ghost use Rattle.toml.specs.Data.{get_member};
ghost use Rattle.toml.specs.View.{items_view, table_view, view};
ghost use Rattle.cue_show_file.specs.Reading.{
  devices_of,
  if_clean,
  is_clean,
  is_without_place,
  no_places_at,
  no_places_in,
};
ghost use Rattle.cue_show_file.specs.Reading.{then_one};
ghost use Rattle.cue_show_file.specs.Said.{device_at, device_said, each_said, list_or_none, port_at, table_said};

use super::keys::{device_in, note_unknown, port_in, text_in};
use super::tables::{Place, place_of, tables_in};
use crate::file::DeviceEntry;
use crate::headers::{Headers, lines_for};
use crate::mistake::{Findings, Key, Mistake, Section, Subject};
use crate::network::read_address;
use cue_show::DeviceNo;
use std::alloc::{AllocError, Global};
use toml::{Table, Value};

// The number of a device; none if it is wrong, which is noted. From then on this device is looked at.
fn read_number(
    findings: &mut Findings,
    at: Place,
    table: &Table,
) -> Result<Option<DeviceNo>, AllocError>
    ensures value { IfOk result (λ number. number ≡ device_at (codes "number") (table_view table.now)) }
    ensures clean { IfOk result (λ _. is_clean findings.new
        ≡ (is_clean findings.old && is_some (device_at (codes "number") (table_view table.now)))) }
{
    match device_in(table, "number", Key::Number) {
        Ok(number) => {
            findings.look_at(at.line, Subject::Device(number));
            Ok(Some(number))
        }
        Err(mistake) => {
            findings.look_at(at.line, Subject::DeviceAt(at.place));
            findings.note(mistake)?;
            Ok(None)
        }
    }
}

// The port of a device; 1 if it is wrong, which is noted.
fn read_port(findings: &mut Findings, table: &Table) -> Result<u16, AllocError>
    ensures value { IfOk result (λ port. port ≡ unwrap_or (port_at (table_view table.now)) 1) }
    ensures clean { IfOk result (λ _. is_clean findings.new
        ≡ (is_clean findings.old && is_some (port_at (table_view table.now)))) }
{
    match port_in(table) {
        Ok(port) => Ok(port),
        Err(mistake) => {
            findings.note(mistake)?;
            Ok(1)
        }
    }
}

// Reads a device, and puts it after the others. One with a number is kept also if its port is wrong, so that a cue
// may still name it.
fn read_device(
    alloc: Global,
    findings: &mut Findings,
    devices: &mut Vec<DeviceEntry>,
    at: Place,
    table: &Table,
) -> Result<(), AllocError>
    ensures said { IfOk result (λ _. IsTrue (is_clean findings.new)
        → if_clean findings.old (then_one (devices_of devices.old.items) (device_said (table_view table.now)))
        ≡ Some (devices_of devices.new.items)) }
    ensures whole { IfOk result (λ _. get_member (codes "address") (table_view table.now) ≡ None
        → if_clean findings.new (Some (devices_of devices.new.items))
        ≡ if_clean findings.old (then_one (devices_of devices.old.items) (device_said (table_view table.now)))) }
{
    let number = read_number(findings, at, table)?;
    note_unknown(
        alloc,
        findings,
        table,
        Section::Device,
        &["number", "port", "address", "name"],
    )?;
    let name = text_in(findings, table, "name", Key::Name)?;
    let port = read_port(findings, table)?;
    let address = read_address(findings, table)?;
    if let Some(number) = number {
        devices.push(DeviceEntry {
            line: at.line,
            number,
            port,
            address,
            name,
        })?;
    }
    Ok(())
}

// Reads the device that a value is.
fn read_value(
    alloc: Global,
    findings: &mut Findings,
    devices: &mut Vec<DeviceEntry>,
    at: Place,
    value: &Value,
) -> Result<(), AllocError>
    ensures said { IfOk result (λ _. IsTrue (is_clean findings.new)
        → if_clean findings.old (then_one (devices_of devices.old.items) (table_said device_said (view value.now)))
        ≡ Some (devices_of devices.new.items)) }
    ensures whole { IfOk result (λ _. IsTrue (is_without_place (view value.now))
        → if_clean findings.new (Some (devices_of devices.new.items))
        ≡ if_clean findings.old (then_one (devices_of devices.old.items) (table_said device_said (view value.now)))) }
{
    match value {
        Value::Table(table) => read_device(alloc, findings, devices, at, table),
        _ => {
            findings.look_at(at.line, Subject::DeviceAt(at.place));
            findings.note(Mistake::NoTables)
        }
    }
}

// Reads each of these.
fn read_each(
    alloc: Global,
    findings: &mut Findings,
    lines: &[usize],
    values: &[Value],
) -> Result<Vec<DeviceEntry>, AllocError>
    ensures said { IfOk result (λ devices. IsTrue (is_clean findings.new)
        → if_clean findings.old (each_said device_said (items_view values.now)) ≡ Some (devices_of devices.items)) }
    ensures whole { IfOk result (λ devices. IsTrue (no_places_in (items_view values.now))
        → if_clean findings.new (Some (devices_of devices.items))
        ≡ if_clean findings.old (each_said device_said (items_view values.now))) }
{
    let mut devices = Vec::new(alloc);
    for (index, value) in values.iter().enumerate() {
        read_value(alloc, findings, &mut devices, place_of(lines, index), value)?;
    }
    Ok(devices)
}

// The devices of a file. Each is at the line of its header, if there are as many.
pub(super) fn read_devices(
    alloc: Global,
    findings: &mut Findings,
    headers: &Headers,
    table: &Table,
) -> Result<Vec<DeviceEntry>, AllocError>
    ensures said { IfOk result (λ devices. IsTrue (is_clean findings.new)
        → if_clean findings.old (list_or_none device_said (get_member (codes "device") (table_view table.now)))
        ≡ Some (devices_of devices.items)) }
    ensures whole { IfOk result (λ devices. IsTrue (no_places_at (get_member (codes "device") (table_view table.now)))
        → if_clean findings.new (Some (devices_of devices.items))
        ≡ if_clean findings.old (list_or_none device_said (get_member (codes "device") (table_view table.now)))) }
{
    let values = tables_in(findings, headers.single, table, "device")?;
    let lines = lines_for(&headers.devices, values.len());
    read_each(alloc, findings, lines, values)
}
