//! The board: a view of the desk as lines of a terminal, and the words that page and board have for it. Nothing here
//! opens a file or a socket, or looks at a store or a clock.
//!
//! The board is a list of fronts that a view gives, and each line begins with its own (`specs/Board.antt`): so its
//! contract speaks of the front of each line, and names of any kind change nothing of it. Words are tables over the
//! parts of a view. `IsFit` says what a terminal may get (`specs/Columns.antt` of `cue_columns`).
//!
//! Why it is so:
//! - If a board has few lines the stack gives way: which cue is next, each live attempt with its devices and the last
//!   attempt are what an operator waits for. With a third of the cues before the place it stays down to one cue. If not
//!   even that one has room, the devices of an attempt that have answered the same share a line. A board that shows a
//!   cue has room for all of its lines (`HasRoom`).
//! - There is a line for the loudest alarm alone. A failure has one while its attempt is live, with its cue and its
//!   devices; after that the line of the last cue says it. On a terminal nobody can say that a failure was seen.
//! - While the controller or the relay has stopped, a line says what each cue that was given may move as soon as it
//!   is back: who starts it again has to know that before.
//! - In the line of the last cue its name stands before how it ended, and has 28 columns at most, so that the end is
//!   not cut away. Each device that failed in it, or that it went without, has a line: none is cut away. A text has at
//!   most four bytes a column: marks that belong to the letter before them take no column.
//! - A line of the log takes up to three lines: the reason stands at its end.
//! - Which cues stand by together is drawn by the groups that the desk sends by, not by the show file as it is now:
//!   what is shown beside the next cue is what STANDBY stands by.
//! - What a device tells of itself has a line of its own that says so, and stands last: it is no fact. Why a device
//!   aborted stands beside its failure only if it says so of that very attempt. Where devices are comes first, since
//!   it is of now; the stack gives way for three such lines, and not for the last cue.
//! - A cue all of whose devices are ready is `held` if GO is dark all the same, as while `serve` does not
//!   answer.
//!
//! Only tested: names and notes, the lines of a log and of a relay, and which of what devices tell share a line.
//! Neither: that a terminal gives a character the columns that Unicode gives it.
#![tactic(auto)]

mod alarms;
mod board;
mod brief;
mod claims;
mod ends;
mod faults;
mod line;
mod live;
mod log;
mod names;
mod network;
mod owed;
mod presses;
mod progress;
mod stack;
mod times;
mod together;

pub use alarms::alarm_words;
pub use board::board_lines;
pub use claims::plain_text;
pub use log::log_lines;
pub use names::Names;
pub use network::contact_words;
pub use presses::{became_words, unsent_words};
pub use progress::{Progress, progress_of, progress_word};
pub use together::with_words;
