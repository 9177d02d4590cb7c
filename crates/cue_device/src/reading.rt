//! The datagrams of the controller as orders.
ghost use Rattle.std.specs.Prelude.{◌≡◌, ◌≢◌, ◌++◌, ℕ, List, [], IfSome, IfNone};
ghost use Rattle.std.specs.Int.{w32, to_be_bytes};
ghost use Rattle.cue_osc.specs.Spelling.{osc_blob, osc_string};
ghost use Rattle.cue_device.specs.declared.asked.Task.{Task};
ghost use Rattle.cue_device.specs.Datagrams.{IsFor, IsForNone, IsNumber, IsTask};

use crate::asked::{Command, PartBytes, Task};
use crate::fields::{after, blob_at, int_at, string_at};
use cue_show::{CueNo, DeviceNo};

/// The highest number of an attempt; the lowest is 1.
pub const MAX_NUMBER: u32 = 2147483647;

// How each order begins: its address, and its type tag string.
const STANDBY: [u8; 24] = *b"/msc/standby\0\0\0\0,iisb\0\0\0";

const GO: [u8; 16] = *b"/msc/go_2pc\0,ii\0";

const CANCEL: [u8; 16] = *b"/msc/cancel\0,ii\0";

/// The order that the datagram is, if it is one for this device: a message with exactly the arguments of the
/// order, a number of 1 or higher, and in a standby the number of a cue and at most 32 bytes. `/reply` is none.
pub fn command(datagram: &[u8], number: DeviceNo) -> Option<Command>
    ensures found { IfSome result (λ c. IsFor number datagram.now c) }
    ensures none { IfNone result (IsForNone number datagram.now) }
{
    if let Some(rest) = after(datagram, &STANDBY) {
        let (seq, rest) = seq_for(rest, number)?;
        let task = task(rest)?;
        return Some(Command::Standby { seq, task });
    }
    if let Some(rest) = after(datagram, &GO) {
        let seq = lone_seq_for(rest, number)?;
        return Some(Command::Go { seq });
    }
    let rest = after(datagram, &CANCEL)?;
    let seq = lone_seq_for(rest, number)?;
    Some(Command::Cancel { seq })
}

// The number of the attempt, and the bytes after the device's number, if that is this one.
fn seq_for(bytes: &[u8], number: DeviceNo) -> Option<(u32, &[u8])>
    ensures found { IfSome result (λ x. (bytes.now ≡ to_be_bytes w32 x.0 ++ (to_be_bytes w32 number ++ x.1.now))
        × IsNumber x.0) }
    ensures none { IfNone result ((q : ℕ) (rest : List ℕ) → IsNumber q
        → bytes.now ≢ to_be_bytes w32 q ++ (to_be_bytes w32 number ++ rest)) }
{
    let (seq, rest) = int_at(bytes)?;
    let (device, rest) = int_at(rest)?;
    if seq >= 1 && seq <= MAX_NUMBER && device == u32::from(number.number()) {
        Some((seq, rest))
    } else {
        None
    }
}

// The number of the attempt, if nothing stands after the device's number.
fn lone_seq_for(bytes: &[u8], number: DeviceNo) -> Option<u32>
    ensures found { IfSome result (λ q. (bytes.now ≡ to_be_bytes w32 q ++ (to_be_bytes w32 number ++ []))
        × IsNumber q) }
    ensures none { IfNone result ((q : ℕ) → IsNumber q
        → bytes.now ≢ to_be_bytes w32 q ++ (to_be_bytes w32 number ++ [])) }
{
    let (seq, rest) = seq_for(bytes, number)?;
    if rest.is_empty() { Some(seq) } else { None }
}

// The task whose cue and bytes these are.
fn task(bytes: &[u8]) -> Option<Task>
    ensures found { IfSome result (λ t. (bytes.now ≡ osc_string t.cue ++ (osc_blob t.bytes ++ [])) × IsTask t) }
    ensures none { IfNone result ((t : Task) → IsTask t → bytes.now ≢ osc_string t.cue ++ (osc_blob t.bytes ++ [])) }
{
    let (cue, rest) = string_at(bytes)?;
    let (kept, rest) = blob_at(rest)?;
    if !rest.is_empty() {
        return None;
    }
    let cue = CueNo::read(cue)?;
    let bytes = PartBytes::read(kept)?;
    Some(Task { cue, bytes })
}
