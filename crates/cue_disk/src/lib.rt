//! Disks under a crash at any moment.
//!
//! `Disk` says what a read gives, what a crash may leave at each moment, and that failures are counted. `MemDisk` is a
//! disk in memory that keeps exactly to that: it can be set to fail in a call, and shows each image that a crash may
//! leave. `FileDisk` is a disk over a file, of which nothing can be proved but that it counts its failures; it is the
//! `DiskOver` of a file of the system, and a test hands `DiskOver` a file that counts its calls. What the words of the
//! contracts mean stands in `specs/Disk.antt`.
//!
//! Why it is so:
//! - `FileDisk` keeps the length from its opening, its own writes and `len`, and tests the bounds of each call by it: a
//!   made command costs two writes and two syncs of data, and no other call of the system.
//! - `sync` is `fdatasync`, which takes a file's new length along, and not its times. The folder is synced once, when
//!   the files are made.
//! - A store that is only looked at is opened to read alone. That nothing is written then rests on the system, too, and
//!   whoever may only read a folder can look at its show.
//! - `MemDisk` keeps its history as data: of each write its offset, the old length, the bytes that it overwrote and the
//!   moments beside them. A trait member that says what a disk held at each moment has to be a function of the disk's
//!   value. Each earlier state is the present one with the later changes undone. The record is never read at run time.
//! - Marks are moments: beside each byte is the moment of the last write that touched it. So a sync clears all marks in
//!   one step, and `crash` is one pass over the bytes.
//! - Out of memory in a call is a fault like another, and is counted. So the contract says when a call fails; if memory
//!   ran out, nothing was stored.
//! - `crash` takes no allocator: the disk keeps the one that it was made with.
//!
//! Only tested: that calls of `MemDisk` succeed if memory is ample. By the code a write to memory costs its own length,
//! a sync a constant.
#![tactic(auto)]

mod disk;
mod file;
pub mod laws;
mod medium;
mod memory;
mod plan;

pub use disk::{Disk, DiskFault};
pub use file::{DiskOver, FileDisk, FileFault};
pub use memory::MemDisk;
