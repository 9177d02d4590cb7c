//! The command line of `cuedesk`, read over `clap`: which command its words name, or why they name none.
#![tactic(auto)]

mod reading;

pub use reading::buttons::Buttons;
pub use reading::editing::Editing;
pub use reading::line;
pub use reading::pressing::Pressed;
pub use reading::rehearsing::{Flags, Rehearsal, with_flags};
pub use reading::reporting::{End, Form, Report};
pub use reading::web::{LockWord, PageUse, Web};
pub use reading::words::{Environment, Line, Watched};
