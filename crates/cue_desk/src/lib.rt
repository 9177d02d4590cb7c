//! The desk beside the controller: the messages that it sends, and what becomes of them. Nothing here opens a file or a
//! socket.
//!
//! `asking`: each thing that the desk asks is one message; `Asked` names it, `datagram` gives its bytes, and bundles
//! ask for several entries of a show file by one datagram. `replying`: the reply to what was asked, or the status.
//! `answered`, `ending`: what a reply says of one command, and how a command ends that is not done. `line`, `orders`:
//! the command line. `stamps`: whether what was read of a store is what its files hold now. Each is a table in `specs/`;
//! that a checked show file is taken whole is a law.
//!
//! Why it is so:
//! - Every cue is added by `/show/mixed`, also if all its parts are required: one message for each thing that is asked.
//! - What an operator asks is sent once: a second `go` could find another attempt. What `load` adds may be sent again.
//! - Cues that stand by together are asked for by one message, whose address is a pattern of their numbers: a message
//!   for each could stand the first one by and be lost before the second. There is no such message for GO: each GO is a
//!   decision of its own, taken with the eyes on that cue.
//! - An answer speaks of exactly one command: a reply in which not exactly one of made, known and refused is 1 is none.
//! - `load` sends several messages by one datagram, at most 64, so that no more replies wait at the socket at once.
//!   Several datagrams under way would be as fast, but one that is lost and sent again comes after the others, and cues
//!   are added in order of arrival. If a reply is missing, each message is asked again by itself, at a socket of its
//!   own: replies to all cues have one address.
//! - A removal that is refused by code 3 is made: what is to be removed is not there.
//! - The port is said by the words, then by the window (`CUEDESK_PORT`), then by the file. A `CUEDESK_PORT` that is no
//!   port ends a command: to fall back could reach the winches of another show.
//! - A reading of a store stays only if both files had rested for four seconds when it was begun: file systems count
//!   time in steps, some of two seconds, and within one step a file may change twice. The time is that of the last
//!   change (`ctime`), which no copy puts back.
//!
//! Only tested: `read_reply` but for its numbers, how many cues fit into a bundle. `Unwritable` comes only for what OSC has
//! no datagram for; that no show has such a cue is in no clause.
#![tactic(auto)]

pub mod answered;
pub mod asking;
pub mod counting;
pub mod ending;
pub mod laws;
pub mod line;
pub mod orders;
pub mod ports;
pub mod replying;
pub mod stamps;
pub mod together;
