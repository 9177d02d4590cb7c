//! What `cuectl` does: it carries a command line out on the files of a folder and a socket, and prints what came of it.
//!
//! What a command prints, and with which status it ends, stands in `specs/Performing.antt` and `specs/Endings.antt`. 0,
//! 1 and 2 have a clause each that says when they come, and 0 has what was printed. 3 comes if the machine fails. Of a
//! refusal's line nothing is said, since no contract can say what a failing writer took.
//!
//! Why it is so:
//! - `show` reads copies in memory: opening a store on its files would send a sync to files that another process
//!   serves. The heads of both files are read before and after, and if one has changed both are read again. It asks for
//!   the lock only if an answer looks bad, and `serve` asks for it a thousand times before it says that another has the
//!   store: so neither is in the other's way.
//! - The port is bound before the store is recovered, since a recovery writes. If the port is taken, the store's own
//!   fault is found on copies in memory.
//! - The lock is advisory, and a store on a file system without locks is served all the same: a show that does not
//!   start is worse than a second `serve` that nobody starts.
//! - `serve` syncs the folder of its store, and the folder around it: either may have been moved there a moment ago. It
//!   does so once the port is bound, so a `serve` that is refused syncs nothing, and before the recovery. A folder
//!   around it that may not be read is passed over, and standard error says so: on the file systems of Linux the
//!   folder's own sync takes its name along.
//! - After `! Disk` the machine is restarted before the show is served again: after a failed sync Linux may hold pages
//!   as clean that never reached the disk. To write what was read once more would be a write that a crash may tear,
//!   over bytes that are good.
//!
//! Only tested: real sockets and files, the lock, that a folder is synced, help, and the version. Neither: that a real
//! file is honest.
#![tactic(auto)]

mod program;

pub use program::fault::ProgramFault;
pub use program::looking::look_again;
pub use program::settling::settle;
pub use program::{perform, serve_engine, serve_on};
