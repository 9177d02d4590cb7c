// What a memory disk holds. Each write goes into place. What it replaced is kept, so that every earlier moment is
// known, and what was written since the last sync.
ghost use Rattle.std.specs.Prelude.{◌≡◌, ◌≤◌, ◌+◌, ◌-◌, length, vec_len, vec_capacity};
ghost use Rattle.cue_disk.specs.Disk.{overwritten_bytes};

mod crash;

use crate::plan::CallOutcome;
use std::alloc::{AllocError, Global};

/// What a write or a sync replaced.
#[derive(Drop)]
pub enum Change {
    /// A write of so many bytes at this offset, with those that stood there and the length before it.
    Wrote {
        at: usize,
        asked: usize,
        bytes: Vec<u8>,
        len: usize,
    },
    /// A sync, with the length at the one before it and the moment of that.
    Synced {
        synced: usize,
        synced_at: usize,
    },
}

impl Change {
    ghost use Rattle.cue_disk.specs.Medium.{touches};

    // Whether it is a write that was asked to write this byte.
    fn touches(&self, i: usize) -> bool
        ensures { result ≡ touches i self.now }
    {
        match self {
            Change::Wrote { at, asked, .. } => i >= *at && i - *at < *asked,
            Change::Synced { .. } => false,
        }
    }
}

/// The bytes of a memory disk, and all changes since it was made. They say what was written since the last sync, which
/// a crash may change.
#[derive(Drop)]
pub struct Medium {
    alloc: Global,
    bytes: Vec<u8>,
    // the length at the last sync, and the moment of that sync
    synced: usize,
    synced_at: usize,
    // a moment is the number of changes so far
    past: Vec<Change>,
    ghost within: { synced ≤ vec_len bytes },
    ghost since: { synced_at ≤ vec_len past },
}

impl Medium {
    ghost use Rattle.std.specs.Prelude.{take, drop, is_err, IfOk, OnOk, OnErr};
    ghost use Rattle.cue_disk.specs.Disk.{Elapses};
    ghost use Rattle.cue_disk.specs.Effect.{settled_contents, after_write, written_as, synced_as};
    ghost use Rattle.cue_disk.specs.Medium.{medium_held, medium_moment, medium_held_at, state_of, UndoesWrites};
    ghost use Rattle.cue_disk.specs.Medium.{Touches, IsUnchanged};

    /// One with these bytes, all of them on the disk.
    pub(crate) fn of(alloc: Global, bytes: Vec<u8>) -> Medium
        ensures held { medium_held result ≡ settled_contents bytes.items }
        ensures moment { medium_moment result ≡ 0 }
    {
        Medium {
            alloc,
            synced: bytes.len(),
            synced_at: 0,
            bytes,
            past: Vec::new(alloc),
        }
    }

    pub(crate) fn alloc(&self) -> Global {
        self.alloc
    }

    pub(crate) fn bytes(&self) -> &[u8]
        ensures { result.now ≡ (medium_held self.now).bytes }
    {
        &self.bytes
    }

    /// Fills the buffer with the bytes from an offset on.
    pub(crate) fn read(&self, at: usize, buf: &mut [u8])
        requires { at + length buf.old ≤ length (medium_held self.now).bytes }
        ensures { buf.new ≡ take (length buf.old) (drop at (medium_held self.now).bytes) }
    {
        buf.copy_from_slice(&self.bytes[at..at + buf.len()]);
    }

    /// Stores bytes from an offset on, as the part that a write of `asked` bytes got to.
    pub(crate) fn write(&mut self, at: usize, asked: usize, stored: &[u8]) -> Result<(), AllocError>
        requires room { at ≤ length (medium_held self.old).bytes }
        requires part { length stored.now ≤ asked }
        ensures written { OnOk result (medium_held self.new ≡ after_write (medium_held self.old) at asked stored.now) }
        ensures unchanged { OnErr result (IsUnchanged self.old self.new) }
        ensures time { Elapses (medium_moment self.old) (medium_moment self.new)
            (medium_held_at self.old) (medium_held_at self.new) (medium_held self.new) }
    {
        let change = self.kept(at, asked)?;
        let grown = stored.len().saturating_sub(self.bytes.len() - at);
        self.bytes.reserve(grown)?;
        self.past.push(change)?;
        overwrite(&mut self.bytes, at, stored);
        Ok(())
    }

    // What a write of so many bytes there replaces.
    fn kept(&self, at: usize, asked: usize) -> Result<Change, AllocError>
        requires { at ≤ length (medium_held self.now).bytes }
        ensures undoes { IfOk result (λ change. UndoesWrites change at asked (state_of self.now)) }
        ensures touches { IfOk result (λ change. Touches change at asked) }
    {
        let end = at + usize::min(asked, self.bytes.len() - at);
        Ok(Change::Wrote {
            at,
            asked,
            bytes: Vec::from_slice(self.alloc, &self.bytes[at..end])?,
            len: self.bytes.len(),
        })
    }

    /// Makes all of the bytes stable.
    pub(crate) fn sync(&mut self) -> Result<(), AllocError>
        ensures settled { OnOk result (medium_held self.new ≡ settled_contents (medium_held self.old).bytes) }
        ensures unchanged { OnErr result (IsUnchanged self.old self.new) }
        ensures time { Elapses (medium_moment self.old) (medium_moment self.new)
            (medium_held_at self.old) (medium_held_at self.new) (medium_held self.new) }
    {
        self.past.push(Change::Synced {
            synced: self.synced,
            synced_at: self.synced_at,
        })?;
        self.synced = self.bytes.len();
        self.synced_at = self.past.len();
        Ok(())
    }

    /// What a write that is planned to end so stores: all of its bytes, the first half of them, or nothing.
    pub(crate) fn write_as(
        &mut self,
        outcome: CallOutcome,
        at: usize,
        bytes: &[u8],
    ) -> Result<(), AllocError>
        requires { at ≤ length (medium_held self.old).bytes }
        ensures held { medium_held self.new ≡ written_as outcome (is_err result) at bytes.now (medium_held self.old) }
        ensures time { Elapses (medium_moment self.old) (medium_moment self.new)
            (medium_held_at self.old) (medium_held_at self.new) (medium_held self.new) }
    {
        match outcome {
            CallOutcome::Succeeds => self.write(at, bytes.len(), bytes),
            CallOutcome::Fails => self.write(at, bytes.len(), &bytes[..bytes.len() / 2]),
            CallOutcome::Stopped => Ok(()),
        }
    }

    /// What a sync that is planned to end so makes stable: all, or nothing.
    pub(crate) fn sync_as(&mut self, outcome: CallOutcome) -> Result<(), AllocError>
        ensures held { medium_held self.new ≡ synced_as outcome (is_err result) (medium_held self.old) }
        ensures time { Elapses (medium_moment self.old) (medium_moment self.new)
            (medium_held_at self.old) (medium_held_at self.new) (medium_held self.new) }
    {
        match outcome {
            CallOutcome::Succeeds => self.sync(),
            CallOutcome::Fails | CallOutcome::Stopped => Ok(()),
        }
    }
}

// Puts bytes in place of those from an offset on, and after the last, if there is room for them.
fn overwrite(bytes: &mut Vec<u8>, at: usize, stored: &[u8])
    requires within { at ≤ vec_len bytes.old }
    requires room { vec_len bytes.old + (length stored.now - (vec_len bytes.old - at)) ≤ vec_capacity bytes.old }
    ensures { bytes.new.items ≡ overwritten_bytes bytes.old.items at stored.now }
{
    let inside = usize::min(stored.len(), bytes.len() - at);
    bytes[at..at + inside].copy_from_slice(&stored[..inside]);
    bytes.extend_from_slice(&stored[inside..]).unwrap();
}
