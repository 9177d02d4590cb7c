//! What a terminal shows that is given all that was written. Each contract is a theorem; there is nothing to run.
ghost use Rattle.cue_screen.specs.Laws as laws;

/// Whatever a terminal shows at first, and whatever pictures are drawn: it shows the lines of the last one, each in its
/// row, and nothing of an earlier one; the cursor is after the last line.
pub fn shows_last()
    ensures { laws.ShowsLast }
{}

/// Whatever somebody else makes of the window meanwhile: after twenty pictures it shows the lines of the last one.
pub fn shows_again()
    ensures { laws.ShowsAgain }
{}

/// A line that stays is not written again, but when all lines are.
pub fn stays_unwritten()
    ensures { laws.StaysUnwritten }
{}

/// No line that is drawn has a control in it.
pub fn drawn_is_plain()
    ensures { laws.DrawnIsPlain }
{}
