//! A store that another process may serve: copies of its files in memory, and what they stand for. Nothing here writes,
//! syncs or locks a file.
//!
//! A copy is as much of a disk as an area may have (`copy_of` in `specs/Copies.antt`). The heads of both files are read
//! before they are copied and again after it; if a head has changed, the copies may be of two moments, and both files
//! are read again. What copies stand for is known over disks in memory: a state, or why they are not opened
//! (`CannotBeOpened`) or not recovered. What speaks of contents is proved if both disks are honest, and nobody else
//! writes them meanwhile. Who looks again and again calls `read_again`: it gives the events that the records tell, too
//! (`specs/Telling.antt`), also those of the area before the one that counts: so a turn-over forgets nothing that has
//! just happened. It says if the files hold what the last copies have.
//!
//! Only tested: what a look gives beside a `serve`. Neither: that a copy is what its file held.
#![tactic(auto)]

mod copying;
mod earlier;
mod looking;
mod reading;
mod telling;

pub use copying::{Copies, copy_at_once, copy_both, is_read_again, refusal_of};
pub use looking::{MAX_READINGS, Seen, look, look_again, look_while};
pub use reading::{Found, read, read_again};
