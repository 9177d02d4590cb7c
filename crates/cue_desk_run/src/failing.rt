//! Something that is tried again and again, and whose failure is told once.
ghost use Rattle.std.specs.Prelude.{◌≡◌, None};
ghost use Rattle.cue_desk_run.specs.Failing as failing;

use std::io;

/// Whether the last try failed, and why the first of those in a row did, until that is told.
#[derive(Drop)]
pub(crate) struct Tries {
    has_failed: bool,
    fault: Option<io::Error>,
}

impl Tries {
    /// Nothing was tried yet.
    pub(crate) fn new() -> Tries
        ensures { result ≡ failing.untried }
    {
        Tries {
            has_failed: false,
            fault: None,
        }
    }

    /// Notes what became of a try.
    pub(crate) fn note(&mut self, tried: io::Result<()>)
        ensures { self.new ≡ failing.noted tried self.old }
    {
        match tried {
            Ok(()) => self.has_failed = false,
            Err(why) => {
                if !self.has_failed {
                    self.fault = Some(why);
                }
                self.has_failed = true;
            }
        }
    }

    /// Why it failed, if that is not told yet: it is told now.
    pub(crate) fn take(&mut self) -> Option<io::Error>
        ensures told { result ≡ self.old.fault }
        ensures failed { self.new.has_failed ≡ self.old.has_failed }
        ensures once { self.new.fault ≡ None }
    {
        self.fault.take()
    }
}
