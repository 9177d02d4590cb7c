//! The desk as a page: its text, and the view of the desk as JSON. Nothing here opens a socket; `cue_web` serves it.
//!
//! All that a view says is one definition, `view_data` (`specs/Page.antt`), made of those of its parts. The page is one
//! text of HTML with its styles and its scripts: most draw a view, each a part of it; the last one asks for the newest
//! view and reports which button was pressed in which view. They are written in page/ at the top, and `tools/page`
//! makes the texts of `page::sources` of them.
//!
//! Why it is so:
//! - The page decides nothing: what is lit, and for which cue and attempt, stands in the view. An older view never
//!   replaces a newer one, and without a new view for a second all buttons are dark. A press has the number of its view
//!   and no time.
//! - The policy names scripts and styles by their digests: they stand in the page, which is one text, and no other
//!   script runs there.
//! - JSON by the kit's `serde_json`, whose writer is proved. The page shows texts by `textContent` alone. Names stand
//!   beside the view, by their numbers, so the whole view has one definition.
//! - The whole stack is shown, up to 1,024 cues. Move here is lit for each of them or for none, and stands once in the
//!   JSON; whether a press of it is sent, the machine judges. A row is made once, and only what changes on it is drawn.
//! - When a device was heard is put where it stands, and its row is not made again: words that change each second would
//!   else take away the button that is being pressed. A screen reader says when a device falls silent, and not each
//!   second.
//! - What a device tells of itself is said to be told by it, wherever it stands, and decides nothing: no button, no
//!   alarm and no sound. No live region has its position, which changes with each view; a screen reader hears the
//!   reason of a failure once, with the failure.
//! - Which devices stand elsewhere than the stack supposes stands in the view, and with each whether STANDBY asks because
//!   of it. The question is the script's: a press is sent once it is answered, and GO and CANCEL ask nothing.
//! - Move here and Release ask once more, a second press within three seconds: both are small buttons beside a finger
//!   that scrolls, and neither can be taken back. So does the key R, which releases a device only if GO waits for that
//!   one alone: which one it is, and what comes of it, stands in words before the second press.
//! - The word of a locked show is kept by the script alone, for a minute without use. Its form does not stand in front
//!   of the page, so a cue can be given while it is open.
//! - How much room there is counts in letters: large type, a browser's zoom and a small window are one thing. If the
//!   card of a cue has no room, GO says for whom it waits.
//! - A colour stands with its word. The flash is slower than three in a second, and a steady frame for who wants no
//!   motion.
//! - The space bar on a control that has the focus is that control's, as screen readers expect; anywhere else it is GO.
//!   A control that was pressed by the pointer gives the focus up.
//!
//! Only tested: what things are called, and the page in a browser. Neither: that a browser keeps to the policy, and
//! that an eye saw what was drawn.
#![tactic(auto)]

pub mod board;
pub mod page;
