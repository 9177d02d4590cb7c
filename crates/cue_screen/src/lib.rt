//! The lines of a board on a terminal, of which each picture draws those that have changed.
//!
//!     let mut screen = Screen::new(alloc);
//!     let text = screen.picture(alloc, lines)?;
//!
//! What is written of a picture is stated byte for byte (`specs/Pictures.antt`). What a terminal makes of that is
//! stated apart from it (`specs/Terminal.antt`), by the standard, and `laws` joins the two: over all lists of pictures,
//! a terminal that is given all that was written shows the lines of the last one, each in its row, and nothing else.
//!
//! Why it is so:
//! - A picture draws each line that has changed at its place, so that nothing flickers, and neither hides the cursor
//!   nor takes another screen: nothing has to be put back when a signal ends the program.
//! - Every twentieth picture draws all lines, for a window that has got another size, or into which somebody else
//!   wrote.
//! - A line that is longer than the window is cut at its edge, and does not go on in the next row.
//! - What a terminal might obey in a line is a question mark: so no line can write over another one.
//!
//! A window that has too few rows for the lines and the cursor after them is not spoken of; nor is one that is resized
//! while a picture is drawn, until all lines are drawn again.
#![tactic(auto)]

pub mod laws;
mod screen;

pub use screen::{Screen, WHOLE};
