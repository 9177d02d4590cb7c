//! Which devices are played, at which addresses, and how.
ghost use Rattle.std.specs.Prelude.{◌≡◌, ◌++◌, ◌∷◌, [], IfOk, OnOk, map};
ghost use Rattle.cue_rehearsal_plan.specs.Roles as roles;

use cue_machine::Address;
use cue_rehearsal::Plan;
use cue_rehearsal_machine::Role;
use cue_show_file::{DeviceEntry, ShowFile};
use std::alloc::{AllocError, Global};

/// This machine, 127.0.0.1, as one number.
const HERE: u32 = 0x7f00_0001;

// How a device is played: in the manner of the plan, at its port of this machine.
fn role_of(plan: &Plan, entry: &DeviceEntry) -> Role
    ensures { result ≡ roles.role_of plan.now entry.now }
{
    Role {
        device: entry.number,
        manner: plan.manner_of(entry.number),
        address: Address {
            host: HERE,
            port: entry.port,
        },
    }
}

// Puts something after the others.
fn push<A: Copy>(items: &mut Vec<A>, item: A) -> Result<(), AllocError>
    ensures { OnOk result (items.new.items ≡ items.old.items ++ item ∷ []) }
{
    items.push(item)?;
    Ok(())
}

// Puts the roles of these after the others.
fn push_roles(found: &mut Vec<Role>, plan: &Plan, entries: &[DeviceEntry]) -> Result<(), AllocError>
    ensures { OnOk result (found.new.items ≡ found.old.items ++ map (roles.role_of plan.now) entries.now) }
{
    match entries {
        [] => Ok(()),
        [first, rest @ ..] => {
            push(found, role_of(plan, first))?;
            push_roles(found, plan, rest)
        }
    }
}

/// Who is rehearsed: each device of the file, once and in order, at its port of this machine, in the manner of the plan.
pub fn roles_of(alloc: Global, file: &ShowFile, plan: &Plan) -> Result<Vec<Role>, AllocError>
    ensures { IfOk result (λ found. found.items ≡ roles.roles_of file.now plan.now) }
{
    let mut found = Vec::new(alloc);
    push_roles(&mut found, plan, &file.devices)?;
    Ok(found)
}

// Puts the addresses of these after the others.
fn push_addresses(found: &mut Vec<Address>, all: &[Role]) -> Result<(), AllocError>
    ensures { OnOk result (found.new.items ≡ found.old.items ++ map (λ r. r.address) all.now) }
{
    match all {
        [] => Ok(()),
        [first, rest @ ..] => {
            push(found, first.address)?;
            push_addresses(found, rest)
        }
    }
}

/// Where the sockets of these are, in their order.
pub fn addresses_of(alloc: Global, all: &[Role]) -> Result<Vec<Address>, AllocError>
    ensures { IfOk result (λ found. found.items ≡ map (λ r. r.address) all.now) }
{
    let mut found = Vec::new(alloc);
    push_addresses(&mut found, all)?;
    Ok(found)
}
