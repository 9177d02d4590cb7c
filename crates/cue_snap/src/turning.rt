// How the other area comes to count: the spare disk is closed and formed again, and the log goes on there.
ghost use Rattle.std.specs.Prelude.{◌≡◌, ◌<◌, ◌+◌, ◌↔◌, false, length, OnOk, OnErr};
ghost use Rattle.cue_disk.specs.Disk.{LeavesAtEachMoment, CountsFailure, overwritten_bytes};
ghost use Rattle.cue_log.specs.Area.{fresh, formed_text};
ghost use Rattle.cue_log.specs.Log.{ReadsAs};
ghost use Rattle.cue_log.specs.Observed.{disk_of, generation_of, end_of, count_of, is_broken, area_of, formed_disk};
ghost use Rattle.cue_log.specs.declared.area.TheConstants.{MAX_AREA, HEAD_LEN};
ghost use Rattle.cue_snap.specs.Pair.{IsOldOrNew};

use cue_disk::{Disk, DiskFault};
use cue_log::{Log, close};

/// Closes the area of the spare disk, forms it again and moves the log there. The disk that the log leaves is not
/// touched.
pub(crate) fn turn_over_to<D: Disk>(
    log: &mut Log<D>,
    spare: &mut D,
    generation: u64,
    snapshot: &[u8],
) -> Result<(), DiskFault>
    requires room { HEAD_LEN + length snapshot.now < MAX_AREA }
    requires works { is_broken log.old ≡ false }
    ensures formed { D.is_honest spare.old → OnOk result
        (ReadsAs (D.held (disk_of log.new)) (fresh generation snapshot.now)) }
    ensures area { D.is_honest spare.old → OnOk result (area_of D.held log.new ≡ fresh generation snapshot.now) }
    ensures bytes { D.is_honest spare.old → OnOk result
        ((D.held (disk_of log.new)).bytes ≡ overwritten_bytes (D.held spare.old).bytes 0
        (formed_text generation snapshot.now)) }
    ensures numbers { OnOk result ((generation_of log.new ≡ generation) × (count_of log.new ≡ 0)
        × (end_of log.new ≡ HEAD_LEN + length snapshot.now)) }
    ensures works { OnOk result (is_broken log.new ≡ false) }
    ensures swapped { OnOk result (spare.new ≡ disk_of log.old) }
    ensures unchanged { OnErr result (log.new ≡ log.old) }
    ensures any_moment { D.is_honest spare.old → LeavesAtEachMoment D.moment D.held_at spare.old
        (formed_disk result (disk_of log.new) spare.new)
        (IsOldOrNew (D.held spare.old) (fresh generation snapshot.now)) }
    ensures count { CountsFailure result (D.failures spare.old)
        (D.failures (formed_disk result (disk_of log.new) spare.new)) }
    ensures honest { D.is_honest (formed_disk result (disk_of log.new) spare.new) ↔ D.is_honest spare.old }
{
    close(spare)?;
    log.renew(spare, generation, snapshot)
}
