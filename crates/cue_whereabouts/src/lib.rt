//! Where each device stands, by the last part that it carried out, beside where the stack supposes it.
//!
//! A move of the place moves no machine: after `goto` a winch still hangs where the last cue left it, and the stack
//! supposes that it hangs where the cues before the place would have left it. Here is said which devices that is so of.
//!
//!     whereabouts.forget_after(state.last_seq());
//!     whereabouts.hear(state.show(), &events);
//!     let differences = whereabouts.differences(alloc, &state)?;
//!
//! Contracts see a `Whereabouts` as the list of what is known of each device (`specs/Memory.antt`). What an event says
//! of a device stands in `specs/Telling.antt`, what the stack supposes in `specs/Supposing.antt`, and what differs in
//! `specs/Differing.antt`. The laws (`src/laws.rt`) speak of every list of readings of a store.
//!
//! Why it is so:
//! - A newer attempt replaces an older one, and nothing else does: readings overlap, and none may count twice.
//! - The bytes of a part are kept as they were when its end was first heard. A cue that is changed later no longer says
//!   where the device went.
//! - A device that failed after GO stands nobody knows where; the store calls a release a failure, too. A device that
//!   cannot go on before GO has not moved: an attempt that is given up says nothing here.
//! - A device of which nothing was heard is told apart: it is neither right nor elsewhere.
//! - A device on its way in a cue that was given is not told of: what it does is shown with that cue, and it stands
//!   somewhere once it has ended.
//! - There are 112 device numbers, and one entry for each: nothing is allocated when something is heard.
//!
//! What it costs: `hear` goes through the events once for each device number, and `differences` through the stack once
//! for each device of the table. Both are called once for each reading that changed, and for no drawing.
//!
//! Not known here: whether a device stands where its last part says. A hand may have moved it by its own panel.
#![tactic(auto)]

pub mod differing;
pub mod last;
pub mod laws;
mod lists;
pub mod memory;
mod supposing;
mod telling;
mod text;

pub use differing::Difference;
pub use last::{End, LastPart, PartBytes};
pub use memory::{Known, Whereabouts};
