//! Whether what is shown of the store is of now.
ghost use Rattle.std.specs.Prelude.{◌≡◌, not};
ghost use Rattle.std.specs.List.{list_any};
ghost use Rattle.cue_view.specs.Sight as sight;

use crate::view::{Alarm, View};

// Whether it says that the store is not in sight.
fn is_age(alarm: &Alarm) -> bool
    ensures { result ≡ sight.is_age alarm.now }
{
    match alarm {
        Alarm::Unread(_) | Alarm::Old(_) => true,
        Alarm::NobodyListens | Alarm::Silent(_) | Alarm::OtherStore(_) => false,
        Alarm::NotShown(_) | Alarm::RelayStopped(_) | Alarm::ClockPutBack(_) => false,
        Alarm::Failed(_) | Alarm::DeviceSilent(_) => false,
    }
}

// The same of one of several.
fn are_aged(alarms: &[Alarm]) -> bool
    ensures { result ≡ list_any sight.is_age alarms.now }
{
    alarms.iter().any(|alarm| is_age(alarm))
}

impl View {
    /// Whether the store is in sight: else all that is shown of it was so when it was read last, and may be no more.
    pub fn is_in_sight(&self) -> bool
        ensures { result ≡ sight.is_in_sight self.now }
    {
        !are_aged(&self.alarms)
    }
}
