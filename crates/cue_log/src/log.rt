// A log: one area that is open, and the disk that holds it.
ghost use Rattle.std.specs.Prelude.{◌≡◌, ◌<◌, ◌≤◌, false};
ghost use Rattle.cue_log.specs.declared.area.TheConstants.{MAX_AREA, HEAD_LEN};
ghost use Rattle.cue_log.specs.Log.{IsSettled, IsNumbered};

mod queries;

use crate::appending::commit;
use crate::area::{HEAD_LEN, MAX_AREA};
use crate::forming::form_on;
use crate::group::RecordGroup;
use crate::record::Record;
use cue_disk::{Disk, DiskFault};
use std::mem;
use thiserror::Error;

/// Why a record, or a group of them, is not appended.
#[derive(Clone, Copy, Debug, PartialEq, Eq, Error)]
pub enum AppendFault {
    /// A device call failed in an earlier `append`. Open the area again.
    #[error("the log is broken until it is opened again")]
    Broken,
    /// The encoding of the area would be longer than `MAX_AREA`. Nothing has changed.
    #[error("the area is full")]
    Full,
    /// A device call failed: the record is there or it is not, and of a group all are or none. The log is `Broken` from
    /// then on.
    #[error("the disk failed")]
    Disk,
}

/// One area of a disk: a generation, a snapshot and the records that were appended to it.
///
/// As long as a log is not broken, whatever a stop leaves of its disk reads as its area.
#[derive(Drop)]
pub struct Log<D: Disk> {
    disk: D,
    generation: u64,
    // where the last gate stands
    end: u64,
    // how many records there are
    count: u64,
    broken: bool,
    ghost fits: { end < MAX_AREA },
    ghost few: { count ≤ end },
    ghost settled: { D.is_honest disk → broken ≡ false → IsSettled (D.held disk) end },
    ghost counted: { D.is_honest disk → broken ≡ false → IsNumbered (D.held disk) generation count },
}

impl<D: Disk> Log<D> {
    ghost use Rattle.std.specs.Prelude.{◌≡◌, ◌≤◌, ◌<◌, ◌+◌, ◌↔◌, ◌∷◌, [], false};
    ghost use Rattle.std.specs.Prelude.{length, OnOk, OnErr, IfOk};
    ghost use Rattle.cue_disk.specs.Disk.{LeavesAtEachMoment, CountsFailure, overwritten_bytes};
    ghost use Rattle.cue_log.specs.Area.{fresh, formed_text};
    ghost use Rattle.cue_log.specs.Appending.{Appends};
    ghost use Rattle.cue_log.specs.Reading.{payloads_in};
    ghost use Rattle.cue_log.specs.Record.{IsGroup};
    ghost use Rattle.cue_log.specs.Log.{IsClosed, IsNoneOr, IsSettled, IsNumbered, ReadsAs};
    ghost use Rattle.cue_log.specs.Observed.{disk_of, generation_of, end_of, count_of, is_broken, area_of, disk_after};
    ghost use Rattle.cue_log.specs.Observed.{formed_disk};

    /// Forms an area with this generation and snapshot and no record, on a disk that is empty or was closed. It takes
    /// no memory; a refusal hands the disk back, which then has no area or this one.
    pub fn form(disk: D, generation: u64, snapshot: &[u8]) -> Result<Log<D>, (DiskFault, D)>
        requires room { HEAD_LEN + length snapshot.now < MAX_AREA }
        requires closed { D.is_honest disk → IsClosed (D.held disk) }

        ensures formed { D.is_honest disk → IfOk result
            (λ log. ReadsAs (D.held (disk_of log)) (fresh generation snapshot.now)) }
        ensures area { D.is_honest disk → IfOk result (λ log. area_of D.held log ≡ fresh generation snapshot.now) }
        ensures bytes { D.is_honest disk → IfOk result
            (λ log. (D.held (disk_of log)).bytes ≡ overwritten_bytes (D.held disk).bytes 0
            (formed_text generation snapshot.now)) }
        ensures numbers { IfOk result (λ log. (generation_of log ≡ generation) × (count_of log ≡ 0)
            × (end_of log ≡ HEAD_LEN + length snapshot.now)) }
        ensures works { IfOk result (λ log. is_broken log ≡ false) }

        // A stop at any moment leaves no area, or this one.
        ensures any_moment { D.is_honest disk → LeavesAtEachMoment D.moment D.held_at disk (disk_after disk_of result)
            (IsNoneOr (fresh generation snapshot.now)) }
        ensures count { CountsFailure result (D.failures disk) (D.failures (disk_after disk_of result)) }
        ensures honest { D.is_honest (disk_after disk_of result) ↔ D.is_honest disk }
    {
        let mut disk = disk;
        match form_on(&mut disk, generation, snapshot) {
            Err(fault) => Err((fault, disk)),
            Ok(()) => Ok(Log {
                disk,
                generation,
                end: HEAD_LEN + snapshot.len() as u64,
                count: 0,
                broken: false,
            }),
        }
    }

    /// A log of an area that was found on a stable disk.
    pub(crate) fn settled(disk: D, generation: u64, end: u64, count: u64) -> Log<D>
        requires fits { end < MAX_AREA }
        requires few { count ≤ end }
        requires settled { D.is_honest disk → IsSettled (D.held disk) end }
        requires counted { D.is_honest disk → IsNumbered (D.held disk) generation count }
        ensures disk { disk_of result ≡ disk }
        ensures numbers { (generation_of result ≡ generation) × (count_of result ≡ count)
            × (end_of result ≡ end) }
        ensures works { is_broken result ≡ false }
    {
        Log {
            disk,
            generation,
            end,
            count,
            broken: false,
        }
    }

    /// Adds a record after the last one. It takes no memory.
    pub fn append(&mut self, added: &Record) -> Result<(), AppendFault>
        ensures appends { Appends (added.now ∷ []) result self.old self.new }
    {
        self.add(added.text(), 1)
    }

    /// Adds records after the last one, with the two writes and two syncs of one: after a stop none of them is there,
    /// or all are. It takes no memory, and makes no device call if there is no record.
    pub fn append_all(&mut self, added: &RecordGroup) -> Result<(), AppendFault>
        ensures appends { Appends added.now result self.old self.new }
    {
        self.add(added.text(), added.count())
    }

    // Adds so many framed records.
    fn add(&mut self, text: &[u8], count: u64) -> Result<(), AppendFault>
        requires framed { IsGroup text.now count }
        ensures appends { Appends (payloads_in text.now) result self.old self.new }
    {
        if self.broken {
            return Err(AppendFault::Broken);
        }
        if count == 0 {
            return Ok(());
        }
        if text.len() as u64 > MAX_AREA - self.end {
            return Err(AppendFault::Full);
        }
        if let Err(DiskFault) = commit(&mut self.disk, self.end, text) {
            self.broken = true;
            return Err(AppendFault::Disk);
        }
        self.end += text.len() as u64 - 1;
        self.count += count;
        Ok(())
    }

    /// Forms an area on the spare disk and goes on there, for whoever holds the log behind a reference. After Ok
    /// `spare` is the old disk, as it was; a refusal leaves the log as it was. It takes no memory. A log that is broken
    /// is not renewed, since nothing but opening its area again mends it.
    pub fn renew(
        &mut self,
        spare: &mut D,
        generation: u64,
        snapshot: &[u8],
    ) -> Result<(), DiskFault>
        requires room { HEAD_LEN + length snapshot.now < MAX_AREA }
        requires works { is_broken self.old ≡ false }
        requires closed { D.is_honest spare.old → IsClosed (D.held spare.old) }

        ensures formed { D.is_honest spare.old → OnOk result
            (ReadsAs (D.held (disk_of self.new)) (fresh generation snapshot.now)) }
        ensures area { D.is_honest spare.old → OnOk result
            (area_of D.held self.new ≡ fresh generation snapshot.now) }
        ensures bytes { D.is_honest spare.old → OnOk result
            ((D.held (disk_of self.new)).bytes ≡ overwritten_bytes (D.held spare.old).bytes 0
            (formed_text generation snapshot.now)) }
        ensures numbers { OnOk result ((generation_of self.new ≡ generation) × (count_of self.new ≡ 0)
            × (end_of self.new ≡ HEAD_LEN + length snapshot.now)) }
        ensures works { OnOk result (is_broken self.new ≡ false) }
        ensures swapped { OnOk result (spare.new ≡ disk_of self.old) }
        ensures unchanged { OnErr result (self.new ≡ self.old) }

        // A stop at any moment leaves no area on the other disk, or this one.
        ensures any_moment { D.is_honest spare.old → LeavesAtEachMoment D.moment D.held_at spare.old
            (formed_disk result (disk_of self.new) spare.new) (IsNoneOr (fresh generation snapshot.now)) }
        ensures count { CountsFailure result (D.failures spare.old)
            (D.failures (formed_disk result (disk_of self.new) spare.new)) }
        ensures honest { D.is_honest (formed_disk result (disk_of self.new) spare.new) ↔ D.is_honest spare.old }
    {
        form_on(spare, generation, snapshot)?;
        mem::swap(&mut self.disk, spare);
        self.generation = generation;
        self.end = HEAD_LEN + snapshot.len() as u64;
        self.count = 0;
        Ok(())
    }
}
