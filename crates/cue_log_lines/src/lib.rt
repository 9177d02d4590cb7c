//! The lines of the log of an evening, as values: what the log writes, and what the report reads.
//!
//! A `Line` is what one line can say, without its date. `write` gives its bytes and `read` what bytes say. Both are
//! defined in `specs/` (`Lines`, `Reading`), and `laws` join them: what was written is read as what was said, what was
//! not written is not read, and no two lines have the same bytes. `listed` has the lists within a line.
//!
//! Why it is so:
//! - The words of the log stand here and nowhere else: who writes a line and who reads it cannot drift apart.
//! - Reading guesses what a text could say, by its front and its last comma and colon, and takes that only if it is
//!   written by the very same bytes. So the guess may be as simple as it likes.
//! - An address may have any bytes: it ends at the last colon but those of what is added, which has none. So no address
//!   can say what was made of it.
//! - Free texts are bytes: a line need not be text to be read.
//!
//! Only stated as `Fits`, and not proved of the log: that what it adds to a reply has no colon, and does not end as a
//! count or as `the reply was not sent` does.
#![tactic(auto)]

pub mod laws;
mod line;
pub mod listed;
mod reading;
mod text;
mod writing;

pub use line::{Asked, Count, Ended, Line, OrderKind, Ordered, Refused, Span, Try, Why};
pub use reading::read;
pub use text::Text;
pub use writing::{put_asked, put_count, put_line, write};
