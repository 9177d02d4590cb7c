//! Laws of the report, each the contract of a function that does nothing.
ghost use Rattle.cue_report.specs.Csv.{CellsAreReadBack};
ghost use Rattle.cue_report.specs.Laws.{LostEndsAreToldAsLost, OnlySaidIsTold};

/// Only what a line says is told: whatever lines are heard, an attempt that is told is named by one of them, and so are
/// the moments at which it was stood by, given, given up and ended, who asked, and how it ended.
pub fn only_said_is_told()
    ensures { OnlySaidIsTold }
{}

/// An attempt whose end no line says is told as one that has no end in this log, never as complete.
pub fn lost_ends_are_told_as_lost()
    ensures { LostEndsAreToldAsLost }
{}

/// A reader of the table finds each value of a row, whatever signs it has, and no other: a name cannot end its value, nor
/// its row.
pub fn cells_are_read_back()
    ensures { CellsAreReadBack }
{}
