// How records come to be: they are on the disk, after a closed gate, before that gate is opened.
//
// The gate of the first record is the last gate of the area: it is closed, and synced. All that follows it is written
// at once: the first record, each further one after its gate, which is open already, and a closed gate. A reader stops
// at the first gate that is not open. So none of it is read until that one gate is opened, and from then on all of it.
ghost use Rattle.std.specs.Prelude.{◌≤◌, ◌<◌, ◌+◌, length};
ghost use Rattle.cue_log.specs.Reading.{payloads_in};
ghost use Rattle.cue_log.specs.Record.{AreFramed};
ghost use Rattle.cue_log.specs.Log.{IsSettled};
ghost use Rattle.cue_log.specs.Appending.{Writes};

use crate::area::{MAX_AREA, OPEN};
use cue_disk::{Disk, DiskFault};

/// Writes records, of which there is one at least, from the last gate on, which stands at `end`: first what follows
/// that gate, and the gate once the disk has it. Two writes and two syncs, however many records there are.
pub(crate) fn commit<D: Disk>(disk: &mut D, end: u64, text: &[u8]) -> Result<(), DiskFault>
    requires framed { AreFramed text.now }
    requires some { 1 < length text.now }
    requires room { end + length text.now ≤ MAX_AREA }
    requires settled { D.is_honest disk.old → IsSettled (D.held disk.old) end }
    ensures writes { Writes D.Disk (payloads_in text.now) result end disk.old disk.new }
{
    disk.write_at(end + 1, &text[1..])?;
    // The body is on the disk before its gate is opened.
    disk.sync()?;
    disk.write_at(end, &[OPEN])?;
    disk.sync()
}
