//! Show files: the devices and cues of an evening with their names, as a text that people write. Nothing here opens a
//! file.
//!
//! `read` gives the devices and cues of a text, and each mistake with its line; `check` puts them into an empty show as
//! the controller would, and says what cannot be put there; `review_of` says what the controller takes and an evening
//! may not; `condensed` is what is reported of all that was found. `written` is the text of a file, `of_show` the file
//! of a show, and `routes` has the devices that are on the stage's network. What a table says is `specs/Said.antt`, a
//! text that is written `specs/Written.antt`, and laws join reading, check and export.
//!
//! Why it is so:
//! - The check of a show file is a show: each device and cue is put into an empty one by the calls that the controller
//!   makes. The findings only say why one did not pass.
//! - Of an entry with a slip everything is checked that can be: a part whose bytes are wrong stays with no bytes, so
//!   that its device is known. So a slip hides no other one, and none is reported that is not there.
//! - The line of a finding is that of its header: TOML's values know nothing of lines. A key is looked for in the text,
//!   as the first line that has it.
//! - A device at the controller's port, an address without `listen` and an empty file are a review, apart from the
//!   check: on the evening a board without a relay is better than none.
//! - One cause has one line: a device that the file does not have is reported once, with how many cues it concerns. It
//!   may be one of the file whose number cannot be read; then that is said with it.
//! - All mistakes come at once, by their lines: one that is found only after another was mended is one more walk to the
//!   machine.
//! - Export writes its own text: the kit's tables have their keys by the alphabet, and each part under a header of its
//!   own. Names, notes and addresses are outside of what is proved of it, since the controller never sees them.
//!
//! Only tested: the words and lines of mistakes, names and notes.
#![tactic(auto)]

mod beginning;
mod checking;
mod condensing;
mod file;
mod headers;
pub mod laws;
mod marks;
mod mistake;
mod network;
mod reading;
mod reviewing;
mod routing;
mod text;
mod together;
mod writing;

pub use beginning::BEGINNING;
pub use checking::{Checked, check};
pub use condensing::{by_line, condensed};
pub use file::{Companions, CueEntry, DeviceEntry, Form, Forms, ShowFile};
pub use marks::{COLORS, Color, FLAGS, Flag};
pub use mistake::{Finding, Mistake, Section, Slip, Subject};
pub use reading::{Draft, read};
pub use reviewing::{Review, review_of};
pub use routing::{routes, shared_port};
pub use text::{cue_text, plain_text};
pub use together::{Group, groups_of, others_of};
pub use writing::{Quoted, of_show, written};
