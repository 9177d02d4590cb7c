//! What a panel says, as values.
use crate::pending::What;
use crate::taking::Source;
use cue_presses::{Intent, Keys, Passed, Spoken, Why};
use cue_view::button::Button;
use cue_view::view::{Became, Unsent};

/// A line.
#[derive(Clone, Copy)]
pub enum Line {
    /// Which key is which.
    Keys(Keys),
    /// A controller is down, and was not heard to be let go since the device was opened.
    Held(Passed),
    /// It is no key, and was not heard before.
    NotTaken(Passed),
    /// A command of show control for this desk intends nothing.
    Spoken(Spoken),
    /// A second tap of a GO.
    Tap(Source),
    /// An intent presses nothing, for this reason.
    NotPressed(Source, Intent, Why),
    /// A press was not sent: it is the second tap of one finger.
    Tapped(What),
    /// A press was not sent, for this reason.
    NotSent(What, Unsent),
    /// A press was not heard, since memory ran out.
    Unheard(Button),
    /// What became of a press.
    Became(What, Became),
    /// So many presses waited in the device.
    Waited(u64),
    /// So many presses were too many at once.
    Flooded(u64),
}
