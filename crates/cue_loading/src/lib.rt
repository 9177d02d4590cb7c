//! Loading a show file into a store that has a show already: which messages make of the one the other, and what
//! differs. Nothing here opens a file or sends anything; both are shows of `cue_show`.
//!
//! A plan is a list of steps, each of which a controller takes or refuses (`specs/Steps.antt`). The stack that it is to
//! make is that of the file, with what the file does not have after the cue that it stands after in the store, or at
//! the front (`specs/Stacks.antt`: `merged`); or exactly that of the file. `Loads` (`specs/Loaded.antt`) says that a
//! controller with the store takes each step, and that the show after them is what it is to be.
//!
//! Why it is so:
//! - A plan is proved by its trial: the steps are made by code that promises nothing, and carried out on a copy of the
//!   show by the calls that the controller makes. A proof of the steps themselves would say the same, and also that
//!   there is a plan wherever the stack has room; that is tested with random shows.
//! - The first cues of the file that stand in the store in this order stay; each other one is removed and added again,
//!   since a cue can be added only at the end. So one at most is missing meanwhile. Cues of a device that gets another
//!   port go before it does.
//! - What the file does not have stays, and is named, until somebody says `--exact`: a cue may have been put there by
//!   hand.
//!
//! Only tested: how many steps a plan has, and that each difference is named.
#![tactic(auto)]

mod comparing;
mod entries;
pub mod laws;
mod manner;
mod planning;
mod step;
mod steps;
mod trial;
mod wanted;

pub use comparing::{Difference, differences};
pub use manner::Manner;
pub use planning::plan;
pub use step::Step;
pub use trial::after;
