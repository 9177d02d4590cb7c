//! The law of what is told of a show file. Each contract is a theorem; there is nothing to run.
ghost use Rattle.std.specs.Prelude.{◌≡◌};
ghost use Rattle.cue_file_news.specs.Laws.{ReadAtRest, ToldTenSeconds, ToldUntilMended};
ghost use Rattle.cue_file_news.specs.declared.telling.TheConstants.{TOLD};

/// Each reading that counts came right after two looks in a row that found what it was begun with, and nothing was live
/// at the last one.
pub fn read_at_rest()
    ensures { ReadAtRest }
{}

/// That a file was read is told for ten seconds from the moment at which it was first shown, whatever comes without a
/// new text; unless the text cannot be had, which is told first.
pub fn told_for_ten_seconds()
    ensures { ToldTenSeconds }
{}

/// That a file has mistakes is told until a new text comes; unless the text cannot be had, which is told first.
pub fn told_until_mended()
    ensures { ToldUntilMended }
{}

/// Ten seconds are 10,000 milliseconds.
pub fn limits()
    ensures { TOLD ≡ 10000 }
{}
