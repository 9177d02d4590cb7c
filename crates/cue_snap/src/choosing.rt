// Which of two areas counts: the one with the higher generation, or the only one.
ghost use Rattle.std.specs.Prelude.{◌≡◌, IfOk};
ghost use Rattle.cue_log.specs.Log.{LeavesAbsent, IsDamaged};
ghost use Rattle.cue_log.specs.Opened.{opened_disk, area_read};
ghost use Rattle.cue_snap.specs.Found.{disk_in, IsFound, FoundWorks, IsOpened, OpenedWorks, IsPairOf, PairWorks};
ghost use Rattle.cue_snap.specs.Found.{IsChosen};
ghost use Rattle.cue_snap.specs.Invariant.{SpareIsOlder};
ghost use Rattle.cue_snap.specs.Opened.{live_area_read, first_opened, second_opened};
ghost use Rattle.cue_snap.specs.Pair.{NeitherHas, IsSpoiled, OneGeneration};
ghost use Rattle.cue_snap.specs.Observed.{first_after, second_after, RefusedAs};

use crate::opening::Opened2;
use crate::snap::Snap;
use cue_disk::Disk;
use cue_log::Opened;

/// Why neither of two areas is chosen.
#[derive(Clone, Copy)]
pub(crate) enum Unfit {
    /// An area is damaged, or both have one generation.
    Damaged,
    /// There is no area.
    Unformed,
}

/// What a disk was found to have.
#[derive(Drop)]
pub(crate) enum Found<D: Disk> {
    /// An area, opened.
    Area(Opened<D>),
    /// No area.
    Absent(D),
    /// An open head gate, and no area after it.
    Damaged(D),
}

impl<D: Disk> Found<D> {
    /// Gives the disk back.
    pub(crate) fn into_disk(self) -> D
        ensures { result ≡ disk_in self }
    {
        match self {
            Found::Area(opened) => opened.log.retire(),
            Found::Absent(disk) => disk,
            Found::Damaged(disk) => disk,
        }
    }
}

// A pair of an area that was opened and a disk whose area is older.
fn pair_of<D: Disk>(opened: Opened<D>, spare: D, first_is_live: bool) -> Opened2<D>
    requires works { OpenedWorks opened }
    requires opened { D.is_honest (opened_disk opened) → IsOpened D.held opened }
    requires older { D.is_honest spare → SpareIsOlder D.held opened.log spare }
    ensures snap { IsPairOf opened.log spare first_is_live result.snap }
    ensures read { live_area_read result ≡ area_read opened }
    ensures tail { result.tail ≡ opened.records }
{
    let Opened {
        log,
        snapshot,
        records,
    } = opened;
    Opened2 {
        snap: Snap::over(log, spare, first_is_live),
        base: snapshot,
        tail: records,
    }
}

// What counts of two areas.
fn newer<D: Disk>(first: Opened<D>, second: Opened<D>) -> Result<Opened2<D>, (Unfit, D, D)>
    requires first_works { OpenedWorks first }
    requires second_works { OpenedWorks second }
    requires first_opened { D.is_honest (opened_disk first) → IsOpened D.held first }
    requires second_opened { D.is_honest (opened_disk second) → IsOpened D.held second }
    ensures first { first_after first_opened result ≡ opened_disk first }
    ensures second { second_after second_opened result ≡ opened_disk second }
    ensures works { IfOk result PairWorks }
    ensures chosen { D.is_honest (opened_disk first) → D.is_honest (opened_disk second)
        → IfOk result (IsChosen D.held (opened_disk first) (opened_disk second)) }
    ensures damaged { D.is_honest (opened_disk first) → D.is_honest (opened_disk second)
        → RefusedAs Unfit.Damaged (OneGeneration (D.held (opened_disk first)).bytes
        (D.held (opened_disk second)).bytes) result }
    ensures unformed { RefusedAs Unfit.Unformed ⊥ result }
{
    let first_generation = first.log.generation();
    let second_generation = second.log.generation();
    if first_generation > second_generation {
        return Ok(pair_of(first, second.log.retire(), true));
    }
    if first_generation < second_generation {
        return Ok(pair_of(second, first.log.retire(), false));
    }
    Err((Unfit::Damaged, first.log.retire(), second.log.retire()))
}

// An area on the first disk, beside what the second one has.
fn beside_area<D: Disk>(first: Opened<D>, second: Found<D>) -> Result<Opened2<D>, (Unfit, D, D)>
    requires first_works { OpenedWorks first }
    requires second_works { FoundWorks second }
    requires first_opened { D.is_honest (opened_disk first) → IsOpened D.held first }
    requires second_found { D.is_honest (disk_in second) → IsFound D.held second }
    ensures first { first_after first_opened result ≡ opened_disk first }
    ensures second { second_after second_opened result ≡ disk_in second }
    ensures works { IfOk result PairWorks }
    ensures chosen { D.is_honest (opened_disk first) → D.is_honest (disk_in second)
        → IfOk result (IsChosen D.held (opened_disk first) (disk_in second)) }
    ensures damaged { D.is_honest (opened_disk first) → D.is_honest (disk_in second)
        → RefusedAs Unfit.Damaged (IsSpoiled (D.held (opened_disk first)).bytes
        (D.held (disk_in second)).bytes) result }
    ensures unformed { RefusedAs Unfit.Unformed ⊥ result }
{
    match second {
        Found::Area(second) => newer(first, second),
        Found::Absent(second) => Ok(pair_of(first, second, true)),
        Found::Damaged(second) => Err((Unfit::Damaged, first.log.retire(), second)),
    }
}

// No area on the first disk, beside what the second one has.
fn beside_none<D: Disk>(first: D, second: Found<D>) -> Result<Opened2<D>, (Unfit, D, D)>
    requires second_works { FoundWorks second }
    requires first_absent { D.is_honest first → LeavesAbsent (D.held first) }
    requires second_found { D.is_honest (disk_in second) → IsFound D.held second }
    ensures first { first_after first_opened result ≡ first }
    ensures second { second_after second_opened result ≡ disk_in second }
    ensures works { IfOk result PairWorks }
    ensures chosen { D.is_honest first → D.is_honest (disk_in second)
        → IfOk result (IsChosen D.held first (disk_in second)) }
    ensures damaged { D.is_honest (disk_in second) → RefusedAs Unfit.Damaged
        (IsDamaged (D.held (disk_in second)).bytes) result }
    ensures unformed { D.is_honest first → D.is_honest (disk_in second)
        → RefusedAs Unfit.Unformed (NeitherHas (D.held first).bytes (D.held (disk_in second)).bytes) result }
{
    match second {
        Found::Area(second) => Ok(pair_of(second, first, false)),
        Found::Absent(second) => Err((Unfit::Unformed, first, second)),
        Found::Damaged(second) => Err((Unfit::Damaged, first, second)),
    }
}

/// What counts of what two disks have. It makes no device call.
pub(crate) fn choose<D: Disk>(
    first: Found<D>,
    second: Found<D>,
) -> Result<Opened2<D>, (Unfit, D, D)>
    requires first_works { FoundWorks first }
    requires second_works { FoundWorks second }
    requires first_found { D.is_honest (disk_in first) → IsFound D.held first }
    requires second_found { D.is_honest (disk_in second) → IsFound D.held second }
    ensures first { first_after first_opened result ≡ disk_in first }
    ensures second { second_after second_opened result ≡ disk_in second }
    ensures works { IfOk result PairWorks }
    ensures chosen { D.is_honest (disk_in first) → D.is_honest (disk_in second)
        → IfOk result (IsChosen D.held (disk_in first) (disk_in second)) }
    ensures damaged { D.is_honest (disk_in first) → D.is_honest (disk_in second)
        → RefusedAs Unfit.Damaged (IsSpoiled (D.held (disk_in first)).bytes (D.held (disk_in second)).bytes) result }
    ensures unformed { D.is_honest (disk_in first) → D.is_honest (disk_in second)
        → RefusedAs Unfit.Unformed
        (NeitherHas (D.held (disk_in first)).bytes (D.held (disk_in second)).bytes) result }
{
    match first {
        Found::Area(first) => beside_area(first, second),
        Found::Absent(first) => beside_none(first, second),
        Found::Damaged(first) => Err((Unfit::Damaged, first, second.into_disk())),
    }
}
