//! The report of an evening, made of the log of `serve` and of a show file. Nothing here opens a file.
//!
//! `read` takes one line of the log and gives what it says (`cue_log_lines`) and when; a line that is none of the log
//! gives none. An `Evening` takes the bytes of a log as they come and follows what the lines say: each attempt from its
//! standby to its end, with each of its devices. It goes over the log once, and keeps its attempts and no lines; of
//! refusals, starts and stops it keeps the first thousand, and counts the rest. It is drawn as `text` of 80 columns, as
//! one `html` page that stands alone and has no script, and as a `csv` table.
//!
//! Why it is so:
//! - The log is what was said at the time, and the store has only what is left. So the report is made of the log alone;
//!   the show file gives names, and which cues were never given; marks say when the curtain went up and down.
//! - What is told may begin and end at times of the day or at marks. A show may go past midnight, and its marks have whole
//!   dates: so beside a mark a time of the day is a moment, too, and only two times of the day are hours of each day.
//! - A line that cannot be read is counted and never an error: a journal has lines of others, and a power cut may leave
//!   half a line. If the next start stands after half a line, as after a full disk, it is found.
//! - An attempt is found by its number, and the numbers of a store rise. A line that names an attempt that the log did
//!   not see begin makes one that began before the log.
//! - The log has whole seconds: a time between two of its lines is right to a second, and never below 0.
//! - After a power cut the journal may give some lines twice. A line that goes back in time and is one of the last 256
//!   is passed over.
//! - Who asks has a port and no name. One that sends `/as/NAME` first, which `serve` refuses and so writes into its
//!   log, has that name for ten seconds: the system gives its port to others later.
//!
//! `attempts` takes a line at a time, and `specs/` says what that makes of what is told (`Seen` of one attempt,
//! `Picture` of all). `laws` says what may be told after any lines.
#![tactic(auto)]

mod attempt;
mod attempts;
mod columns;
mod course;
pub mod csv;
mod cutting;
mod dates;
pub mod ends;
mod evening;
pub mod html;
pub mod laws;
pub mod marks;
mod names;
mod parts;
mod range;
mod reading;
mod running;
mod sentences;
mod summary;
pub mod text;

pub use attempt::{Attempt, Moment, Who};
pub use attempts::Attempts;
pub use course::{Course, Fate};
pub use dates::printed_words;
pub use evening::Evening;
pub use names::Names;
pub use range::{Hours, Moments, Range};
pub use reading::{Dated, Said, read};
pub use sentences::Told;
