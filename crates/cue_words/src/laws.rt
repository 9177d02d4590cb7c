//! Laws of the words, each the contract of a function that does nothing.
ghost use Rattle.cue_words.specs.CodeWords.{NumbersSayTheirCodes};

/// Each code has its own number, and the number says what the code says.
pub fn numbers_say_their_codes()
    ensures { NumbersSayTheirCodes }
{}
