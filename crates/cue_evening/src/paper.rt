//! What the log writes on.
ghost use Rattle.std.specs.Prelude.{◌≡◌, ◌∷◌, ℕ, List, [], None, Option};
ghost use Rattle.std.specs.Option.{unwrap_or};
ghost use Rattle.cue_evening.specs.Looks.{Entry, Grew, held_between};
ghost use Rattle.cue_evening.specs.Looks.Entry.{refused, said};

use cue_log_lines::Line;

/// What the log writes on, at the time of a look.
pub trait Paper {
    /// All that was written, in order; None for one that does not report.
    ghost told: { Self → Option (List Entry) };

    /// The time of the look in milliseconds since 1970; None if the clock has none.
    ghost time: { Self → Option ℕ };

    /// Goes on to the next look. Answers for how long there was none, if that is to be said.
    fn turn(&mut self) -> Option<u64>
        ensures told { Grew (told self.old) [] (told self.new) }
        ensures held { result ≡ held_between (time self.old) (time self.new) };

    /// The time of the look in milliseconds since 1970; 0 if the clock has none.
    fn millis(&self) -> u64
        ensures { result ≡ unwrap_or (time self.now) 0 };

    /// Writes a line.
    fn write(&mut self, line: &Line<'_>)
        ensures told { Grew (told self.old) (said line.now ∷ []) (told self.new) }
        ensures time { time self.new ≡ time self.old };

    /// Writes the line of a refusal, or counts it.
    fn refuse(&mut self, line: &Line<'_>)
        ensures told { Grew (told self.old) (refused line.now ∷ []) (told self.new) }
        ensures time { time self.new ≡ time self.old };

    /// Something is lost, since there is no memory for it: from then on it does not report.
    fn lose(&mut self)
        ensures told { told self.new ≡ None }
        ensures time { time self.new ≡ time self.old };
}
