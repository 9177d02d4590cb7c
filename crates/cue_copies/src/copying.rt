//! Copies of both files of a store, in memory: what they stand for is known without a write or a sync of the files.
ghost use Rattle.std.specs.Prelude.{
  ◌≡◌,
  ◌≢◌,
  ◌≤◌,
  ◌-◌,
  ◌++◌,
  length,
  take,
  drop,
  Some,
  None,
  IfErr,
  IfOk,
  IfSome,
  IsSome,
  OnOk,
  IsErrOf,
};
ghost use Rattle.cue_log.specs.declared.area.TheConstants.{MAX_AREA};
ghost use Rattle.cue_disk.specs.Memory.{IsNew, memory_bytes};
ghost use Rattle.cue_keeper.specs.Stands.{Stands};
ghost use Rattle.cue_keeper.specs.Observed.{state_of};
ghost use Rattle.cue_copies.specs.Copies.{
  CannotBeOpened,
  IsFront,
  IsOfMachine,
  IsRefusalOf,
  copy_of,
  fault_in_memory,
  head_of,
  is_read_again,
};
ghost use Rattle.cue_copies.specs.OnlyReads.{OnlyReads, OnlyReadsBoth};

use cue_disk::{Disk, MemDisk};
use cue_engine::Engine;
use cue_keeper::{Keeper, StoreFault};
use cue_log::{HEAD_LEN, MAX_AREA};
use std::alloc::{AllocError, Global};

/// How many bytes at the front of a file say which area it has: the head gate, the generation, and the length of the
/// snapshot. A file with an area is changed without a change there in one way: records are added at its end.
const HEAD: usize = HEAD_LEN as usize;

/// The most times that a file is read on, because it has grown meanwhile.
const MAX_GROWTHS: u32 = 100;

/// The heads of both files at one moment. If a file is shorter, zeros stand for what is missing.
#[derive(Clone, Copy, PartialEq, Eq)]
struct Heads {
    first: [u8; HEAD],
    second: [u8; HEAD],
}

/// The bytes of both files of a store.
#[derive(Drop)]
pub struct Copies {
    pub(crate) first: Vec<u8>,
    pub(crate) second: Vec<u8>,
}

/// Whether a store that another process serves is read again before this is said of it. Its files are not read at one
/// moment, so that a store that is whole can look like that.
pub fn is_read_again(fault: StoreFault) -> bool
    ensures { result ≡ is_read_again fault }
{
    match fault {
        StoreFault::Damaged | StoreFault::Malformed | StoreFault::Version | StoreFault::Unformed =>
            true,
        StoreFault::NotEmpty
        | StoreFault::Full
        | StoreFault::Exhausted
        | StoreFault::Memory
        | StoreFault::Disk => false,
    }
}

// What a fault over disks in memory is: these fail only if memory runs out.
fn fault_in_memory(fault: StoreFault) -> StoreFault
    ensures { result ≡ fault_in_memory fault }
{
    match fault {
        StoreFault::NotEmpty => StoreFault::NotEmpty,
        StoreFault::Unformed => StoreFault::Unformed,
        StoreFault::Damaged => StoreFault::Damaged,
        StoreFault::Version => StoreFault::Version,
        StoreFault::Malformed => StoreFault::Malformed,
        StoreFault::Full => StoreFault::Full,
        StoreFault::Exhausted => StoreFault::Exhausted,
        StoreFault::Memory | StoreFault::Disk => StoreFault::Memory,
    }
}

// The front of a file.
fn head<D: Disk>(disk: &mut D) -> Result<[u8; HEAD], StoreFault>
    ensures head { D.is_honest disk.old → IfOk result (λ head. head ≡ head_of (D.held disk.old)) }
    ensures fault { IfErr result IsOfMachine }
    ensures reads { OnlyReads D.Disk (IsErrOf result StoreFault.Disk) disk.old disk.new }
{
    let Ok(present) = disk.len() else {
        return Err(StoreFault::Disk);
    };
    let len = present.min(HEAD as u64) as usize;
    let mut head = [0; HEAD];
    match disk.read_at(0, &mut head[..len]) {
        Ok(()) => Ok(head),
        Err(_) => Err(StoreFault::Disk),
    }
}

// The front of both files.
fn heads_of<D: Disk>(first: &mut D, second: &mut D) -> Result<Heads, StoreFault>
    ensures first { D.is_honest first.old → IfOk result (λ heads. heads.first ≡ head_of (D.held first.old)) }
    ensures second { D.is_honest second.old → IfOk result (λ heads. heads.second ≡ head_of (D.held second.old)) }
    ensures fault { IfErr result IsOfMachine }
    ensures reads { OnlyReadsBoth D.Disk (IsErrOf result StoreFault.Disk) first.old second.old first.new second.new }
{
    Ok(Heads {
        first: head(first)?,
        second: head(second)?,
    })
}

// Reads on after the bytes that were read, up to this length of the file.
fn read_on<D: Disk>(disk: &mut D, bytes: &mut Vec<u8>, len: usize) -> Result<(), StoreFault>
    requires longer { length bytes.old.items ≤ len }
    requires within { D.is_honest disk.old → len ≤ length (D.held disk.old).bytes }
    ensures len { OnOk result (length bytes.new.items ≡ len) }
    ensures fault { IfErr result IsOfMachine }
    ensures read { D.is_honest disk.old → OnOk result (bytes.new.items ≡ bytes.old.items
        ++ take (len - length bytes.old.items) (drop (length bytes.old.items) (D.held disk.old).bytes)) }
    ensures reads { OnlyReads D.Disk (IsErrOf result StoreFault.Disk) disk.old disk.new }
{
    let have = bytes.len();
    bytes.resize(len, 0).map_err(|_| StoreFault::Memory)?;
    disk.read_at(have as u64, &mut bytes[have..])
        .map_err(|_| StoreFault::Disk)
}

// Reads on up to the present length of the file, or as much as an area may have. Answers whether it had grown.
fn read_grown<D: Disk>(disk: &mut D, bytes: &mut Vec<u8>) -> Result<bool, StoreFault>
    requires short { length bytes.old.items ≤ MAX_AREA }
    requires front { D.is_honest disk.old → IsFront bytes.old.items (D.held disk.old).bytes }
    ensures short { OnOk result (length bytes.new.items ≤ MAX_AREA) }
    ensures fault { IfErr result IsOfMachine }
    ensures copy { D.is_honest disk.old → OnOk result (bytes.new.items ≡ copy_of (D.held disk.old)) }
    ensures reads { OnlyReads D.Disk (IsErrOf result StoreFault.Disk) disk.old disk.new }
{
    let Ok(present) = disk.len() else {
        return Err(StoreFault::Disk);
    };
    let len = present.min(MAX_AREA) as usize;
    if len <= bytes.len() {
        return Ok(false);
    }
    read_on(disk, bytes, len)?;
    Ok(true)
}

// As much of a file as an area may have. A file that has grown meanwhile is read on: a record whose gate was read as
// open is then there in whole.
fn bytes_of<D: Disk>(alloc: Global, disk: &mut D) -> Result<Vec<u8>, StoreFault>
    ensures copy { D.is_honest disk.old → IfOk result (λ bytes. bytes.items ≡ copy_of (D.held disk.old)) }
    ensures fault { IfErr result IsOfMachine }
    ensures reads { OnlyReads D.Disk (IsErrOf result StoreFault.Disk) disk.old disk.new }
{
    let mut bytes = Vec::new(alloc);
    read_grown(disk, &mut bytes)?;
    for _ in 1..MAX_GROWTHS {
        if !read_grown(disk, &mut bytes)? {
            return Ok(bytes);
        }
    }
    Ok(bytes)
}

/// Copies both files as they are read, the first one first. It makes no write and no sync of them.
pub fn copy_both<D: Disk>(
    alloc: Global,
    first: &mut D,
    second: &mut D,
) -> Result<Copies, StoreFault>
    ensures first { D.is_honest first.old → IfOk result
        (λ copies. copies.first.items ≡ copy_of (D.held first.old)) }
    ensures second { D.is_honest second.old → IfOk result
        (λ copies. copies.second.items ≡ copy_of (D.held second.old)) }
    ensures fault { IfErr result IsOfMachine }
    ensures reads { OnlyReadsBoth D.Disk (IsErrOf result StoreFault.Disk) first.old second.old first.new second.new }
{
    Ok(Copies {
        first: bytes_of(alloc, first)?,
        second: bytes_of(alloc, second)?,
    })
}

// The copies, if no head changed while they were made.
fn at_once(before: Heads, copies: Copies, after: Heads) -> Option<Copies>
    ensures same { before ≡ after → result ≡ Some copies }
    ensures changed { (before ≡ after → ⊥) → result ≡ None }
    ensures copies { IfSome result (λ found. found ≡ copies) }
{
    if before == after { Some(copies) } else { None }
}

/// Copies both files so that each copy is what its file held at one moment, and both together what the store stood for
/// at one moment. `None`: a head changed meanwhile, so the copies may be of two moments.
pub fn copy_at_once<D: Disk>(
    alloc: Global,
    first: &mut D,
    second: &mut D,
) -> Result<Option<Copies>, StoreFault>
    ensures first { D.is_honest first.old
        → IfOk result (λ found. IfSome found (λ copies. copies.first.items ≡ copy_of (D.held first.old))) }
    ensures second { D.is_honest second.old
        → IfOk result (λ found. IfSome found (λ copies. copies.second.items ≡ copy_of (D.held second.old))) }
    // Of disks that nobody else writes, the heads stay.
    ensures some { D.is_honest first.old → D.is_honest second.old → IfOk result (λ found. IsSome found) }
    ensures fault { IfErr result IsOfMachine }
    ensures reads { OnlyReadsBoth D.Disk (IsErrOf result StoreFault.Disk) first.old second.old first.new second.new }
{
    let before = heads_of(first, second)?;
    let copies = copy_both(alloc, first, second)?;
    let after = heads_of(first, second)?;
    Ok(at_once(before, copies, after))
}

// Disks in memory with these bytes.
pub(crate) fn disks(
    alloc: Global,
    first: &[u8],
    second: &[u8],
) -> Result<(MemDisk, MemDisk), AllocError>
    ensures { IfOk result (λ disks. IsNew first.now disks.0 × IsNew second.now disks.1) }
{
    Ok((
        MemDisk::from_bytes(alloc, first)?,
        MemDisk::from_bytes(alloc, second)?,
    ))
}

/// Opens a store of these bytes: what they stand for, or why they stand for nothing.
fn open_bytes(alloc: Global, first: &[u8], second: &[u8]) -> Result<Keeper<MemDisk>, StoreFault>
    ensures stood { IfOk result (λ keeper. Stands first.now second.now (state_of keeper)) }
    ensures refused { IfErr result (λ fault. CannotBeOpened fault first.now second.now) }
    ensures memory { IsErrOf result StoreFault.Disk → ⊥ }
{
    let Ok((first, second)) = disks(alloc, first, second) else {
        return Err(StoreFault::Memory);
    };
    match Keeper::open(alloc, first, second) {
        Ok(keeper) => Ok(keeper),
        Err((fault, _, _)) => Err(fault_in_memory(fault)),
    }
}

// Why the store of two disks in memory cannot be recovered; `None` if it can.
fn recovery_refusal(alloc: Global, first: MemDisk, second: MemDisk) -> Option<StoreFault>
    ensures refusal { IsRefusalOf result (memory_bytes first) (memory_bytes second) }
    ensures memory { result ≢ Some StoreFault.Disk }
{
    match Engine::recover(alloc, first, second) {
        Ok(engine) => {
            drop(engine);
            None
        }
        Err((fault, _, _)) => Some(fault_in_memory(fault)),
    }
}

impl Copies {
    /// Opens a store of them: what they stand for, or why they stand for nothing.
    pub fn open(&self, alloc: Global) -> Result<Keeper<MemDisk>, StoreFault>
        ensures stood { IfOk result (λ keeper. Stands self.now.first.items self.now.second.items (state_of keeper)) }
        ensures refused { IfErr result (λ fault. CannotBeOpened fault self.now.first.items self.now.second.items) }
        ensures memory { IsErrOf result StoreFault.Disk → ⊥ }
    {
        open_bytes(alloc, &self.first, &self.second)
    }

    // Why a store of them cannot be recovered; `None` if it can.
    fn refusal(&self, alloc: Global) -> Option<StoreFault>
        ensures refusal { IsRefusalOf result self.now.first.items self.now.second.items }
        ensures memory { result ≢ Some StoreFault.Disk }
    {
        let Ok((first, second)) = disks(alloc, &self.first, &self.second) else {
            return Some(StoreFault::Memory);
        };
        recovery_refusal(alloc, first, second)
    }
}

/// Why a store of two files cannot be recovered; `None` if it can. It makes no write and no sync of them.
pub fn refusal_of<D: Disk>(alloc: Global, first: &mut D, second: &mut D) -> Option<StoreFault>
    ensures answered { D.is_honest first.old → D.is_honest second.old
        → IsRefusalOf result (copy_of (D.held first.old)) (copy_of (D.held second.old)) }
    ensures reads { OnlyReadsBoth D.Disk (result ≡ Some StoreFault.Disk) first.old second.old first.new second.new }
{
    match copy_both(alloc, first, second) {
        Ok(copies) => copies.refusal(alloc),
        Err(fault) => Some(fault),
    }
}
