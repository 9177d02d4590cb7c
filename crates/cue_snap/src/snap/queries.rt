// What a pair says of itself. None of it makes a device call.
use super::Snap;
use cue_disk::Disk;
use cue_log::Record;

impl<D: Disk> Snap<D> {
    ghost use Rattle.std.specs.Prelude.{◌≡◌, ◌≤◌, ◌+◌, ◌*◌, ◌↔◌, false, length, IsTrue};
    ghost use Rattle.cue_log.specs.declared.area.TheConstants.{MAX_AREA, FRAME_LEN};
    ghost use Rattle.cue_log.specs.Area.{area_text};
    ghost use Rattle.cue_snap.specs.Pair.{PairLeaves};
    ghost use Rattle.cue_snap.specs.Observed.{live_of, spare_of, first_of, second_of, generation_of, end_of, count_of};
    ghost use Rattle.cue_snap.specs.Observed.{is_broken, live_area_of};

    /// Whether the live area's encoding would stay within its limit with this record.
    pub fn has_room(&self, added: &Record) -> bool
        ensures { IsTrue result ↔ (end_of self.now + (FRAME_LEN + 1) + length added.now ≤ MAX_AREA) }
    {
        self.log.has_room(added)
    }

    /// Whether it would stay within it with so many records more, whose payloads have so many bytes together. A caller
    /// asks it before it makes the records.
    pub fn has_room_for(&self, count: u64, bytes: u64) -> bool
        ensures { IsTrue result ↔ (end_of self.now + 1 + FRAME_LEN * count + bytes ≤ MAX_AREA) }
    {
        self.log.has_room_for(count, bytes)
    }

    /// The generation of the live area.
    pub fn generation(&self) -> u64
        ensures number { result ≡ generation_of self.now }
        ensures area { D.is_honest (live_of self.now) → is_broken self.now ≡ false
            → result ≡ (live_area_of D.held self.now).generation }
    {
        self.log.generation()
    }

    /// How many records the live area has.
    pub fn count(&self) -> u64
        ensures number { result ≡ count_of self.now }
        ensures area { D.is_honest (live_of self.now) → is_broken self.now ≡ false
            → result ≡ length (live_area_of D.held self.now).payloads }
    {
        self.log.count()
    }

    /// Whether a device call has failed: the pair then takes nothing more, until it is opened again.
    pub fn is_broken(&self) -> bool
        ensures broken { result ≡ is_broken self.now }
        // A pair that is not broken reads as its live area, whatever a stop leaves.
        ensures reads { D.is_honest (live_of self.now) → D.is_honest (spare_of self.now)
            → is_broken self.now ≡ false
            → PairLeaves (D.held (live_of self.now)) (D.held (spare_of self.now)) (live_area_of D.held self.now) }
        ensures numbered { D.is_honest (live_of self.now) → is_broken self.now ≡ false
            → generation_of self.now ≡ (live_area_of D.held self.now).generation }
        ensures ends { D.is_honest (live_of self.now) → is_broken self.now ≡ false
            → end_of self.now ≡ length (area_text (live_area_of D.held self.now)) }
    {
        // Called for its clauses on what the log's disk reads as.
        let _broken = self.log.is_broken();
        self.broken
    }

    /// Gives both disks back in their order, as they are. It makes no device call.
    pub fn close(self) -> (D, D)
        ensures first { result.0 ≡ first_of self }
        ensures second { result.1 ≡ second_of self }
        ensures reads { D.is_honest (live_of self) → D.is_honest (spare_of self) → is_broken self ≡ false
            → PairLeaves (D.held result.0) (D.held result.1) (live_area_of D.held self) }
    {
        let Snap {
            log,
            spare,
            first_is_live,
            ..
        } = self;
        let live = log.retire();
        if first_is_live {
            (live, spare)
        } else {
            (spare, live)
        }
    }
}
