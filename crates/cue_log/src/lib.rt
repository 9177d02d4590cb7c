//! A log in one area of a disk: a generation, a snapshot and records after it, read the same after a stop at any
//! moment.
//!
//! `IsArea` in `specs/Area.antt` says which bytes are an area. Each record stands after a *gate*, one byte that says
//! whether what follows counts. A record is written after a closed gate and synced; then its gate is opened and synced.
//! Records that come together are written at once after one closed gate, the gates between them open: when it is
//! opened, all of them count. A disk is *absent* if it has fewer than two bytes, or if its first gate is not open; it
//! is *damaged* if it is not absent and no area stands there. What speaks of contents and images is proved for every
//! honest `Disk`.
//!
//! Why it is so:
//! - `Log::renew` forms the new area on the spare disk, and the two disks change places: a call that has the log by
//!   `&mut` cannot move it out, form another one and put that back.
//! - Records that are appended together come as a `RecordGroup`, which keeps them as an area stores them. It takes its
//!   memory when a record is pushed, so `append_all` takes none. A single record is a group of one: both calls share
//!   one body and one contract.
//! - A log that is broken is not renewed: nothing but opening its area again mends it.
//!
//! Only tested: the bytes themselves, by worked examples.
#![tactic(auto)]

mod appending;
mod area;
mod fetching;
mod forming;
mod group;
pub mod laws;
mod log;
mod opening;
mod reading;
mod record;
mod records;
mod snapshot;

pub use area::{FRAME_LEN, HEAD_LEN, MAX_AREA, MAX_PAYLOAD, close, is_absent};
pub use group::RecordGroup;
pub use log::{AppendFault, Log};
pub use opening::{OpenFault, Opened};
pub use record::{Record, RecordFault};
pub use records::{Payloads, Records};
pub use snapshot::Snapshot;
