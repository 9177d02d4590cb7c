// Which of the next calls a memory disk fails, and from which one on it is stopped.
ghost use Rattle.std.specs.Prelude.{◌≡◌};

/// What is planned for a call.
#[derive(Clone, Copy, Debug, PartialEq, Eq)]
pub enum CallOutcome {
    /// It is done as asked.
    Succeeds,
    /// It fails, and a write stores the first half of its bytes.
    Fails,
    /// The disk has stopped before it: it fails and changes nothing.
    Stopped,
}

/// The calls that are to fail, counted from the next one, which is the first.
#[derive(Clone, Copy, Debug, PartialEq, Eq)]
pub struct Plan {
    /// This call fails; 0 stands for none.
    pub fail_in: u64,
    /// This call and all later ones fail; at `Some(0)` the disk has stopped.
    pub stop_in: Option<u64>,
}

impl Plan {
    ghost use Rattle.cue_disk.specs.Plan.{no_plan, outcome_of, after_one};

    /// No call is to fail.
    pub(crate) fn none() -> Plan
        ensures { result ≡ no_plan }
    {
        Plan {
            fail_in: 0,
            stop_in: None,
        }
    }

    /// What is planned for the next call.
    pub(crate) fn next(&self) -> CallOutcome
        ensures { result ≡ outcome_of self.now 1 }
    {
        match self.stop_in {
            Some(0) => CallOutcome::Stopped,
            Some(1) => CallOutcome::Fails,
            _ => {
                if self.fail_in == 1 {
                    CallOutcome::Fails
                } else {
                    CallOutcome::Succeeds
                }
            }
        }
    }

    /// Counts a call.
    pub(crate) fn count(&mut self)
        ensures { self.new ≡ after_one self.old }
    {
        self.fail_in = self.fail_in.saturating_sub(1);
        self.stop_in = match self.stop_in {
            None => None,
            Some(calls) => Some(calls.saturating_sub(1)),
        };
    }
}
