//! Rehearsed devices: each answers as `cue_device` does, over a machine that is a clock and a manner.
//!
//! A `Player` is a device of `cue_device`, the library that a maker gets, and not a third reading of the protocol. Its
//! machine does one order at a time, from a time on and for so long (`Work`). When that time is over it reports that it
//! prepared, moved or gave up; or that it cannot, if its `Behaviour` says so (`specs/Playing.antt`). A silent one hears
//! nothing and stays as it is. `Plan` is what the table `[rehearse]` of a show file says; what it makes of a device, and
//! what is said of a table that is no plan, stands in `specs/Plans.antt`. `Chance` draws from a seed,
//! by the words of PCG32 (`specs/Drawing.antt`), and says which datagrams are lost. Nothing here opens a socket or looks
//! at a clock.
//!
//! Only tested: what `read_plan` makes of a text, and the lines of a deed.
#![tactic(auto)]

mod chance;
mod manner;
mod plan;
mod player;
mod telling;

pub use chance::Chance;
pub use manner::{Behaviour, Manner};
pub use plan::{MAX_TIME, Plan, PlanFault, is_among, read_devices, read_plan};
pub use player::{Player, Work};
pub use telling::{Deed, Line};
