// What a log says of itself. None of it makes a device call.
use super::Log;
use crate::area::{FRAME_LEN, MAX_AREA};
use crate::group::RecordGroup;
use crate::record::Record;
use cue_disk::Disk;

impl<D: Disk> Log<D> {
    ghost use Rattle.std.specs.Prelude.{◌≡◌, ◌≤◌, ◌+◌, ◌*◌, ◌↔◌, false, length, IsTrue};
    ghost use Rattle.cue_log.specs.Area.{area_text, room_of};
    ghost use Rattle.cue_log.specs.Log.{ReadsAs};
    ghost use Rattle.cue_log.specs.Observed.{disk_of, generation_of, end_of, count_of, is_broken, area_of};

    /// Whether the area's encoding would stay within `MAX_AREA` with this record.
    pub fn has_room(&self, added: &Record) -> bool
        ensures { IsTrue result ↔ (end_of self.now + (FRAME_LEN + 1) + length added.now ≤ MAX_AREA) }
    {
        self.end + added.text().len() as u64 <= MAX_AREA
    }

    /// The same of records that come together.
    pub fn has_room_for_all(&self, added: &RecordGroup) -> bool
        ensures { IsTrue result ↔ (end_of self.now + 1 + room_of added.now ≤ MAX_AREA) }
    {
        added.text().len() as u64 <= MAX_AREA - self.end
    }

    /// Whether it would stay within it with so many records more, whose payloads have so many bytes together. A caller
    /// asks it before it makes the records.
    pub fn has_room_for(&self, count: u64, bytes: u64) -> bool
        ensures { IsTrue result ↔ (end_of self.now + 1 + FRAME_LEN * count + bytes ≤ MAX_AREA) }
    {
        let room = MAX_AREA - 1 - self.end;
        bytes <= room && count <= (room - bytes) / FRAME_LEN as u64
    }

    /// The generation that the area was formed with.
    pub fn generation(&self) -> u64
        ensures number { result ≡ generation_of self.now }
        ensures area { D.is_honest (disk_of self.now) → is_broken self.now ≡ false
            → result ≡ (area_of D.held self.now).generation }
    {
        self.generation
    }

    /// How many records the area has.
    pub fn count(&self) -> u64
        ensures number { result ≡ count_of self.now }
        ensures area { D.is_honest (disk_of self.now) → is_broken self.now ≡ false
            → result ≡ length (area_of D.held self.now).payloads }
    {
        self.count
    }

    /// Whether a device call has failed: every `append` is then refused, until the area is opened again.
    pub fn is_broken(&self) -> bool
        ensures broken { result ≡ is_broken self.now }
        // A log that is not broken reads as its area, whatever a stop leaves.
        ensures reads { D.is_honest (disk_of self.now) → is_broken self.now ≡ false
            → ReadsAs (D.held (disk_of self.now)) (area_of D.held self.now) }
        ensures ends { D.is_honest (disk_of self.now) → is_broken self.now ≡ false
            → end_of self.now ≡ length (area_text (area_of D.held self.now)) }
    {
        self.broken
    }

    /// Gives the disk back, as it is. It makes no device call.
    pub fn retire(self) -> D
        ensures disk { result ≡ disk_of self }
        ensures reads { D.is_honest (disk_of self) → is_broken self ≡ false
            → ReadsAs (D.held result) (area_of D.held self) }
    {
        let Log { disk, .. } = self;
        disk
    }
}
