//! What a relay writes of itself, as the desk reads it.
ghost use Rattle.std.specs.Prelude.{◌≡◌, ◌+◌, ◌<◌, ◌≤◌};

use crate::clocks::wall_time;
use crate::plain::text_within;
use cue_relay::status::{STALE, Status, read};
use std::fs::{File, Files};
use std::io;
use std::time::Clock;

/// The most bytes of a status: one of 104 devices has less than a sixth of that.
const MAX_STATUS: usize = 65_536;

/// What the relay that writes this file reports; none if the file is no status. A longer file than
/// any status is not read to its end, and counts as unreadable.
pub fn read_status<R: Files<File = File> + AllocGlobal>(
    rt: &R,
    path: &str,
) -> io::Result<Option<Status>> {
    let text = text_within(rt, path, MAX_STATUS)?;
    Ok(read(rt.alloc(), text.as_str())?)
}

// What a relay wrote, unless it has stopped since then; `wall`: the moment that it is, in milliseconds since 1970.
fn if_young(status: Status, wall: u64) -> Option<Status>
    ensures young { wall ≤ status.now + STALE → result ≡ Some status }
    ensures old { status.now + STALE < wall → result ≡ None }
{
    if status.now.saturating_add(STALE) < wall {
        return None;
    }
    Some(status)
}

/// The same; none as well if the file cannot be read, or a relay that has stopped has left it.
pub(crate) fn read_young<R: Files<File = File> + Clock + AllocGlobal>(
    rt: &R,
    path: &str,
) -> Option<Status> {
    let status = read_status(rt, path).ok().flatten()?;
    if_young(status, wall_time(rt))
}
