//! The cue sheet of a show file: what people print before an evening, with room for what they write in by hand. As
//! lines of 80 columns, and as one page of HTML
//! that stands alone. Nothing here opens a file.
//!
//! Why it is so:
//! - Bytes stand as the file has them: a text between quotes, as TOML writes it, and all else as `hex` and digits. That
//!   `5a` is the letter Z is an accident, and a sheet that says Z is one at which nobody finds the byte again.
//! - Nothing is cut off: a name that is longer than its column goes on in the next line of this column.
//! - The page has no script, and takes nothing from anywhere. What people wrote is put into it by `cue_html`
//!   alone. A colour is a border, since browsers print no background, with its word beside it for a page in grey.
//!
//! Only tested: which words stand where, and the page in a browser.
#![tactic(auto)]

mod page;
mod sent;
mod text;

pub use page::sheet_page;
pub use sent::sent_text;
pub use text::{sheet_lines, sheet_text};
