//! Who is late: a silence that is seen, and is too short yet to be an alarm.
ghost use Rattle.std.specs.Prelude.{◌≡◌};
ghost use Rattle.cue_view.specs.Late as late;
ghost use Rattle.cue_view.specs.declared.late.TheConstants.{LATE_MS};

use crate::view::View;

/// How long nothing has to be heard before that is said, in milliseconds. A controller and a relay that run are heard
/// ten times a second.
pub const LATE_MS: u64 = 250;

/// What was last heard at the moment `last` is late at the moment `at`: for how long it is silent, in milliseconds.
/// None: it is not, or was never heard, and then an alarm says so.
pub fn late_by(at: u64, last: Option<u64>) -> Option<u64>
    ensures { result ≡ late.late_by at last }
{
    match last {
        Some(last) => {
            let silent = at.saturating_sub(last);
            if silent >= LATE_MS {
                Some(silent)
            } else {
                None
            }
        }
        None => None,
    }
}

impl View {
    /// For how long the controller has answered no status, if it is late.
    pub fn serve_late(&self) -> Option<u64>
        ensures { result ≡ late.serve_late self.now }
    {
        late_by(self.at, self.served)
    }

    /// For how long the relay has written nothing new, if it is late.
    pub fn relay_late(&self) -> Option<u64>
        ensures { result ≡ late.relay_late self.now }
    {
        late_by(self.at, self.stamped)
    }
}

/// A silence is said after a quarter of a second.
pub fn limits()
    ensures late { LATE_MS ≡ 250 }
{}
