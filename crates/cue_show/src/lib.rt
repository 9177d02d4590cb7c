//! The show of a cue controller: the table of devices, the stack of cues, and the place at which the operator stands.
//! It knows nothing of attempts, messages or disks.
//!
//! Contracts see a `Show` as three plain values: a list of pairs of device and port, a list of pairs of cue and parts,
//! and the place. Its rules are `is_show` in `specs/Show.antt`, and every show keeps them. Each changing call has a
//! test beside it (`can_add_cue`, `can_remove_device`), and asks that the test holds.
//!
//! Why it is so:
//! - A map lies below each list, so a look-up by number takes no scan. `is_used` alone looks through the stack: a count
//!   for each device would have to be kept in step with each cue.
//! - A cue number is kept in place (`ShortBytes`), and is `Copy`: on the heap each copy could fail.
//! - `Bytes` and `Parts` have no limit of their own, since a message may carry more; `is_fit` is the test, and no show
//!   holds others.
//! - `add_cue` takes the parts by value, so that a reader moves them in without a copy.
//! - In definitions numbers are plain. So `can_add_device` and `can_add_cue` also say that device, port, cue text and
//!   part bytes are in range; the types of the calls make it so.
//! - A part's flag is data of the part: `/show/cue` and `/show/mixed` make the same cues by the same command, and a cue
//!   whose flags changed is never called known. `are_parts` asks for a required part, so an attempt always has a device
//!   that GO goes to, and no cue is complete by excuses alone.
#![tactic(auto)]

pub mod bytes;
pub mod device;
pub mod laws;
pub mod limits;
pub mod number;
pub mod part;
pub mod short_bytes;
pub mod show;

pub use bytes::Bytes;
pub use device::DeviceNo;
pub use number::CueNo;
pub use part::{Part, Parts};
pub use short_bytes::ShortBytes;
pub use show::Show;
