//! When a file of marks is read again.
ghost use Rattle.std.specs.Prelude.{◌≡◌, ◌↔◌, IsTrue, None};
ghost use Rattle.cue_curtain.specs.Watching.{IsChanged};

use cue_desk::stamps::Stamp;
use std::marker::Model;

/// What is known of a file of marks.
///
/// Contracts see it as what the system said of the file when it was read last; None if it was not there.
#[derive(Drop)]
pub struct MarksWatch {
    read: Option<Stamp>,
}

impl Model for MarksWatch {
    ghost use Rattle.std.specs.Prelude.{Option};
    ghost use Rattle.cue_desk.specs.declared.stamps.Stamp.{Stamp};

    ghost Value = { Option Stamp };

    ghost view = { λ w. w.read };
}

impl MarksWatch {
    /// A file that was not there, so far.
    pub fn new() -> MarksWatch
        ensures { result ≡ None }
    {
        MarksWatch { read: None }
    }

    /// Whether it is to be read again, if the system says this of it: if that is not what it said when it was read
    /// last.
    pub fn is_changed(&self, seen: Option<Stamp>) -> bool
        ensures { IsTrue result ↔ IsChanged self.now seen }
    {
        seen != self.read
    }

    /// It was read while the system said this of it. What could not be read is tried again at the next look.
    pub fn take(&mut self, seen: Option<Stamp>)
        ensures { self.new ≡ seen }
    {
        self.read = seen;
    }
}
