//! Texts in columns of a terminal or a printer: one layout, for the board, the cue sheet and the report of an evening.
//! Nothing here opens a file.
//!
//! A row has cells side by side. A text that is wider than its cell goes on in the next line of this cell: nothing is
//! cut off. No line has more than 80 columns, or a sign that a terminal obeys: `specs/Columns.antt`. A `Part` is what
//! stands under a heading; `cue_html` draws it as well.
//!
//! Only tested: where a line breaks.
#![tactic(auto)]

mod cells;
mod columns;
mod parts;
mod wrapping;

pub use cells::{Cell, GAP, push_row, push_texts};
pub use columns::{COLUMNS, fitted};
pub use parts::{Part, Row, push_heading, push_line, push_part};
