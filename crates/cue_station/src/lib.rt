//! The desk as a machine over values: from what it hears it makes one view, and at most one message.
//!
//! Nothing here reads a clock, a file or a socket: two moments come with each thing that is heard, one of a clock that
//! never goes back, and one of the clock of the wall, by which the controller counts its ten seconds. `heard` has what
//! is heard, `cue_view` what is shown; `Station::step` hears one thing. An evening is a list of turns, the newest
//! first: what came, what was shown, what was sent. The law (`specs/Laws.antt`) speaks of these turns alone, never of
//! what the machine keeps.
//!
//! Why it is so:
//! - An age counts from the beginning: of a copy from the moment at which its reading began, of a status from its
//!   question, of a press from the making of the view that it names. So nothing is younger than it says, and a
//!   browser's clock is not needed. A press names its view: one that is heard more than a second after its view was
//!   made is not sent, however long it was on the way.
//! - GO is for an attempt that was chosen: the one that came of the last STANDBY of this desk, or one that a press
//!   chose. After a GO nothing is chosen, so a second tap never gives the next cue, and a cue that somebody else stands
//!   by never takes GO.
//! - A press without a reply is open until a copy was begun after a status came that was asked after the press: then
//!   the store shows what became of it. While a press is open no other one may be sent, but for CANCEL, which is the
//!   safe way: also of the cue whose GO is open, as long as the store has it prepare.
//! - That a press was carried out is said once a copy of the store shows it: until then the reply alone says so, and a
//!   program that holds the port can say the same. What no copy shows within a second is an alarm.
//! - A GO within a second of a GO of the same attempt that was sent is the second tap of one finger. It is not sent, and
//!   said to be that.
//! - That a STANDBY was made is said while its cue stands by. Once it was given up, or has ended, that is said.
//! - What came to a socket before it was opened is nothing; the answer of a press is the first that comes after it was
//!   sent.
//! - The way back after a move is offered only while the move was the last press and the place is where it left it:
//!   after any other step forward it would lead somewhere that nobody thinks of. It is the move to that cue, and no
//!   message of its own.
//! - A failure is said as soon as a copy shows it, while other devices of its cue still move, and so is a standby that
//!   a device or the ten seconds gave up: who waits for the end hears of it too late. It stays until somebody says that
//!   it was seen, also if later attempts end well: an operator who looked away has to find it. The attempt keeps its
//!   number at its end, so that what was seen while it was live is no new alarm then. That one was seen says nothing of
//!   another one. That press names a view, too. It stays with its cue and its devices also if a newer snapshot has
//!   swallowed its events: a copy that no longer knows the cue never replaces what one said that knew it. What is kept
//!   so can be handed on, to another desk or to this one once it is started again, and with it what was seen.
//! - If the snapshot has swallowed its start, an attempt that ended is shown without a cue: to guess it from the place
//!   would name a wrong one after a move.
//! - What is left of ten seconds is what the earlier of two clocks leaves: a clock that is put back makes no time.
//! - Another store is named after a second of disagreement: each change makes a short one. STANDBY and GO are dark at
//!   once.
//! - A relay that cannot be read has written nothing new: what it wrote last stands, and after two seconds it has
//!   stopped. A device is as old as its relay said, and the time since; if the relay's clock was put back its age is
//!   unknown, and not 0.
//! - The number of a view is that of the views before it: a drawing of an older view never replaces a newer one.
#![tactic(auto)]

pub mod alarms;
pub mod asking;
pub mod choosing;
pub mod evening;
pub mod evidence;
pub mod failing;
pub mod faults;
pub mod following;
pub mod heard;
pub mod hearing;
pub mod keeping;
pub mod laws;
pub mod lighting;
pub mod limits;
pub mod lit;
pub mod memory;
pub mod moving;
pub mod network;
pub mod noting;
pub mod offering;
pub mod opening;
pub mod pacing;
pub mod pressing;
pub mod remembering;
pub mod saying;
pub mod showing;
pub mod station;
pub mod telling;
pub mod viewing;
pub mod warning;
