//! Who asks: the name that a desk sends before its commands, and that the log of an evening has.
#![tactic(auto)]

mod naming;

pub use naming::{AskerName, MAX_NAME};
