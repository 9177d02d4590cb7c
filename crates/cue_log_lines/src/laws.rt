//! Laws of the lines, each the contract of a function that does nothing.
ghost use Rattle.cue_log_lines.specs.Listed.{FailuresAreReadBack};
ghost use Rattle.cue_log_lines.specs.Laws.{LinesAreReadBack, LinesDiffer, OnlyLinesAreRead};

/// What was written is read as what was said, if it fits: its numbers are those of their types, and its free texts are
/// not words that stand for something else.
pub fn lines_are_read_back()
    ensures { LinesAreReadBack }
{}

/// What was not written is not read: whatever text is read as a line, that line is written by these bytes and no
/// others.
pub fn only_lines_are_read()
    ensures { OnlyLinesAreRead }
{}

/// No two lines have the same bytes.
pub fn lines_differ()
    ensures { LinesDiffer }
{}

/// From a list of devices that failed the first is taken as it was written, and the others are left as they were.
pub fn failures_are_read_back()
    ensures { FailuresAreReadBack }
{}
