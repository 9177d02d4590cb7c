//! Whether a view says all that it ever will of a store and a controller.
ghost use Rattle.std.specs.Prelude.{◌≡◌};
ghost use Rattle.std.specs.List.{list_any};
ghost use Rattle.cue_view.specs.Whole as whole;

use crate::view::{Alarm, View};

// Whether the store cannot be read.
fn is_unread(alarm: &Alarm) -> bool
    ensures { result ≡ whole.is_unread alarm.now }
{
    matches!(alarm, Alarm::Unread(_))
}

// Whether nobody listens at the port.
fn is_alone(alarm: &Alarm) -> bool
    ensures { result ≡ whole.is_alone alarm.now }
{
    matches!(alarm, Alarm::NobodyListens)
}

// The same of one of several.
fn are_unread(alarms: &[Alarm]) -> bool
    ensures { result ≡ list_any whole.is_unread alarms.now }
{
    alarms.iter().any(|alarm| is_unread(alarm))
}

fn are_alone(alarms: &[Alarm]) -> bool
    ensures { result ≡ list_any whole.is_alone alarms.now }
{
    alarms.iter().any(|alarm| is_alone(alarm))
}

impl View {
    // Whether the store was read, or cannot be.
    fn knows_store(&self) -> bool
        ensures { result ≡ whole.knows_store self.now }
    {
        self.read.is_some() || are_unread(&self.alarms)
    }

    // Whether a status was answered, or nobody listens.
    fn knows_controller(&self) -> bool
        ensures { result ≡ whole.knows_controller self.now }
    {
        self.served.is_some() || are_alone(&self.alarms)
    }

    /// Whether the store was read or cannot be, and a status was answered or nobody listens.
    pub fn is_complete(&self) -> bool
        ensures { result ≡ whole.is_complete self.now }
    {
        self.knows_store() && self.knows_controller()
    }
}
