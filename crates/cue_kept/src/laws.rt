//! Laws of the text, each the contract of a function that does nothing.
ghost use Rattle.std.specs.Prelude.{◌≡◌};
ghost use Rattle.cue_kept.specs.Laws.{AlarmsAreReadBack, CutTextsAreNotRead};
ghost use Rattle.cue_kept.specs.declared.TheConstants.{MOST, VERSION};

/// What was written is read back, whole, if it fits: its numbers are those of their types, and it has at most 128
/// attempts that were seen and 128 failures.
pub fn alarms_are_read_back()
    ensures { AlarmsAreReadBack }
{}

/// A text that was cut off anywhere is not read.
pub fn cut_texts_are_not_read()
    ensures { CutTextsAreNotRead }
{}

/// A text has at most 128 attempts that were seen, and 128 failures. Its version is 1.
pub fn limits()
    ensures most { MOST ≡ 128 }
    ensures version { VERSION ≡ 1 }
{}
