//! The ears and the post of a program, over the sockets, the clock and the files of this machine. They decide nothing:
//! what comes is told with its moment, and what goes out goes where it is to go.
//!
//! Why it is so:
//! - All is one loop in one thread, and so is the writing of the file: a disk that hangs would hold up all that comes.
//!   `is_in_memory` says whether a file stands on a disk, so that a program may say so at its start.
//! - The file that takes the place of the program's file is made anew each time: whatever stands there, as a link to
//!   another file or a pipe, is removed, and neither followed nor opened.
//! - A wake that is due comes before any datagram, and sockets are read in turn: no flood keeps a wake or another
//!   socket waiting.
//! - A clock that was put back wakes the machine at once, since it cannot be told how long to wait. What is to take a
//!   second, whoever sets the clock of the wall, takes its moments from one that nobody sets (`NetEars::steady`).
#![tactic(auto)]

mod addresses;
mod ears;
mod missed;
mod moments;
mod mounts;
mod post;
mod ready;
mod replacing;
mod sending;

pub use addresses::{BindFault, bind, connected};
pub use ears::NetEars;
pub use mounts::is_in_memory;
pub use post::NetPost;
pub use sending::SocketPost;
