// A pair of areas: the live one, which is a log, and the spare disk, which the next turn-over writes.
ghost use Rattle.std.specs.Prelude.{◌≡◌, false};
ghost use Rattle.cue_log.specs.Observed.{disk_of};
ghost use Rattle.cue_snap.specs.Invariant.{LogWorks, LogReads, LogIsNumbered, SpareIsOlder};

mod queries;

use crate::forming::{FormFault, form_first, look};
use crate::turning::turn_over_to;
use cue_disk::{Disk, DiskFault};
use cue_log::{AppendFault, Log, Record, RecordGroup};
use thiserror::Error;

/// Why a pair is not turned over.
#[derive(Clone, Copy, Debug, PartialEq, Eq, Error)]
pub enum TurnOverFault {
    /// A device call failed before. Open the pair again.
    #[error("the pair is broken until it is opened again")]
    Broken,
    /// The live area has the last generation that there is. Nothing has changed.
    #[error("no generation is left")]
    Exhausted,
    /// A device call failed: the new area is there or it is not. The pair is `Broken` from then on.
    #[error("the disk failed")]
    Disk,
}

/// Two areas on two disks, of which the one with the higher generation counts: it is live, the other one is spare.
///
/// A pair that is not broken keeps that whatever a stop leaves of the two disks reads as its live area.
#[derive(Drop)]
pub struct Snap<D: Disk> {
    log: Log<D>,
    spare: D,
    // the log is on the first of the two disks
    first_is_live: bool,
    broken: bool,
    ghost works: { broken ≡ false → LogWorks log },
    ghost reads: { D.is_honest (disk_of log) → broken ≡ false → LogReads D.held log },
    ghost numbered: { D.is_honest (disk_of log) → broken ≡ false → LogIsNumbered D.held log },
    ghost older: { D.is_honest spare → broken ≡ false → SpareIsOlder D.held log spare },
}

impl<D: Disk> Snap<D> {
    ghost use Rattle.std.specs.Prelude.{◌≡◌, ◌<◌, ◌+◌, [], ◌∷◌, length, IfOk};
    ghost use Rattle.cue_disk.specs.Disk.{IsStable};
    ghost use Rattle.cue_log.specs.Area.{fresh};
    ghost use Rattle.cue_log.specs.declared.area.TheConstants.{MAX_AREA, HEAD_LEN};
    ghost use Rattle.cue_snap.specs.Appending.{Appends};
    ghost use Rattle.cue_snap.specs.Disks.{Forms};
    ghost use Rattle.cue_snap.specs.Formed.{IsFirst};
    ghost use Rattle.cue_snap.specs.Found.{IsPairOf};
    ghost use Rattle.cue_snap.specs.Observed.{first_of, second_of, first_after, second_after, fault_of, RefusedAs};
    ghost use Rattle.cue_snap.specs.Turning.{TurnsOver};

    /// A pair of a log that works and a disk whose area is older.
    pub(crate) fn over(log: Log<D>, spare: D, first_is_live: bool) -> Snap<D>
        requires works { LogWorks log }
        requires reads { D.is_honest (disk_of log) → LogReads D.held log }
        requires numbered { D.is_honest (disk_of log) → LogIsNumbered D.held log }
        requires older { D.is_honest spare → SpareIsOlder D.held log spare }
        ensures { IsPairOf log spare first_is_live result }
    {
        Snap {
            log,
            spare,
            first_is_live,
            broken: false,
        }
    }

    /// Forms a pair on two disks without areas: the first one gets an area of generation 1 with this snapshot and no
    /// record. Both are synced before anything is written. It takes no memory; a refusal hands both disks back.
    pub fn form(first: D, second: D, snapshot: &[u8]) -> Result<Snap<D>, (FormFault, D, D)>
        requires { HEAD_LEN + length snapshot.now < MAX_AREA }

        ensures forms { Forms D.Disk FormFault.NotEmpty FormFault.Disk (fresh 1 snapshot.now) first second
            (first_after first_of result) (second_after second_of result) (fault_of result) }
        ensures first { IfOk result (IsFirst first snapshot.now) }
        // NotEmpty is answered once both disks are synced, so what was found stays.
        ensures first_synced { D.is_honest first → RefusedAs FormFault.NotEmpty
            (IsStable (D.held (first_after first_of result))) result }
        ensures second_synced { D.is_honest second → RefusedAs FormFault.NotEmpty
            (IsStable (D.held (second_after second_of result))) result }
    {
        let mut first = first;
        let mut second = second;
        if let Err(fault) = look(&mut first, &mut second) {
            return Err((fault, first, second));
        }
        match form_first(first, snapshot) {
            Err((DiskFault, first)) => Err((FormFault::Disk, first, second)),
            Ok(log) => Ok(Snap {
                log,
                spare: second,
                first_is_live: true,
                broken: false,
            }),
        }
    }

    /// Adds a record to the live area. It takes no memory.
    pub fn append(&mut self, added: &Record) -> Result<(), AppendFault>
        ensures appends { Appends (added.now ∷ []) result self.old self.new }
    {
        if self.broken {
            return Err(AppendFault::Broken);
        }
        if !self.log.has_room(added) {
            return Err(AppendFault::Full);
        }
        let appended = self.log.append(added);
        self.broken = self.log.is_broken();
        appended
    }

    /// Adds records to the live area, with the two writes and two syncs of one: after a stop none of them is there, or
    /// all are. It takes no memory, and makes no device call if there is no record. If the area lacks room for
    /// all of them, none is added: `has_room_for` says so before they are made.
    pub fn append_all(&mut self, added: &RecordGroup) -> Result<(), AppendFault>
        ensures appends { Appends added.now result self.old self.new }
    {
        if self.broken {
            return Err(AppendFault::Broken);
        }
        if added.count() == 0 {
            return Ok(());
        }
        if !self.log.has_room_for_all(added) {
            return Err(AppendFault::Full);
        }
        let appended = self.log.append_all(added);
        self.broken = self.log.is_broken();
        appended
    }

    /// Forms an area with the next generation and this snapshot on the spare disk, which is live from then on; the live
    /// disk becomes the spare one, as it is. It takes no memory.
    pub fn turn_over(&mut self, snapshot: &[u8]) -> Result<(), TurnOverFault>
        requires { HEAD_LEN + length snapshot.now < MAX_AREA }
        ensures turns_over { TurnsOver snapshot.now result self.old self.new }
    {
        if self.broken {
            return Err(TurnOverFault::Broken);
        }
        let Some(next) = self.log.generation().checked_add(1) else {
            return Err(TurnOverFault::Exhausted);
        };
        if let Err(DiskFault) = turn_over_to(&mut self.log, &mut self.spare, next, snapshot) {
            self.broken = true;
            return Err(TurnOverFault::Disk);
        }
        self.first_is_live = !self.first_is_live;
        Ok(())
    }
}
