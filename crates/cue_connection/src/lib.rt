//! One connection of a browser, as a machine over values: pieces of bytes and moments go in; what it asks, and what is
//! written to it, come out. Nothing here opens a socket, or reads a clock.
//!
//! A connection asks once. `Connection::take` is handed each piece that came, and `Connection::ask` says what it asks
//! as soon as that can be said: once the head has ended and its body is as long as the head says (`specs/Asking.antt`),
//! or once no more bytes can make it a request. `Scan` finds where the head ends (`specs/Scanning.antt`). What is not
//! whole within a second is refused. Then `Connection::tell` has the answer, `Connection::rest` what of it is still to
//! be written, and after it nothing is kept of what still comes. The laws are in `specs/Laws.antt`.
//!
//! Why it is so:
//! - Each byte of a head is looked at once, whatever the pieces: the head is read by `cue_request` when its end has
//!   come, and no more often than its body grows. So a head that comes byte by byte costs no more than one that comes
//!   at once.
//! - What its first word already says is no request, as a greeting of TLS, is refused at once; so is a head of more
//!   than 64 fields.
//! - At most 8,448 bytes are kept: the longest head and the longest body. More cannot change what is asked.
//! - Who closes only its own way of speaking, as `nc` does, is answered, if its request came whole.
//! - After an answer the rest of the request is read and dropped, for a second at most: a socket that is closed with
//!   bytes unread resets the connection, and the answer may be lost.
//! - One that said nothing is closed without an answer: browsers open connections before they need them.
//!
//! Only tested: which of the refusals of a head a request gets.
#![tactic(auto)]

mod answers;
mod asking;
mod connection;
pub mod laws;
mod marking;
mod scanning;
mod stage;

pub use answers::{json_answer, refused_answer, trouble_answer};
pub use asking::{Asking, Pressed};
pub use connection::{Answer, Connection, MAX_INPUT, PATIENCE};
pub use marking::CurtainMove;
pub use scanning::{Place, Scan};
pub use stage::Stage;
