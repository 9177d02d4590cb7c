//! Two areas of `cue_log` on two disks, live in turn. While the one is formed again with a higher generation the other
//! still counts: at any moment a stop leaves the old area or the new one.
//!
//! What a pair reads as is a relation, `PairReads` in `specs/Pair.antt`: one of the two byte lists is an area, and the
//! other one is absent or an area of a lower generation. Contracts of a call that writes speak of live and spare, since
//! one of the two is untouched; those of `form`, `open` and `close` of the first and the second disk. A law says that
//! the order does not count.
//!
//! Why it is so:
//! - Both disks are opened, also if the first one is damaged: so both are synced before anything is answered, and
//!   Memory or a device fault of the second one comes before Damaged. The older of two areas is read, too: whether it
//!   is damaged is known only then.
//! - `form` looks at both disks before it answers NotEmpty, for the same reason: what it has found stays, whatever a
//!   stop leaves.
//! - The pair has a mark of its own for Broken, beside that of its log: a turn-over may fail on the spare disk alone.
//!   After that the spare disk may hold the new area, so nothing more may be appended to the old one. `is_broken` says
//!   what the pair reads as, so a layer above needs no ghost data of its own for it.
//!
//! Only tested: the bytes by worked examples; that `open` takes memory in proportion to the two areas.
#![tactic(auto)]

mod choosing;
mod forming;
pub mod laws;
mod opening;
mod snap;
mod turning;

pub use forming::FormFault;
pub use opening::{OpenFault, Opened2};
pub use snap::{Snap, TurnOverFault};
