//! What ties the functions that compute to what a pattern means and how it is written.

ghost use Rattle.cue_pattern.specs.Laws.{ReadsTheGrammar, MatchesTheMeaning, MatchesPartByPart};

/// Reading gives a pattern exactly if the bytes spell it: so no bytes spell two patterns, and
/// bytes that spell none are exactly those that are refused.
pub fn reads_the_grammar()
    ensures { ReadsTheGrammar }
{}

/// The test answers true exactly for the addresses that the pattern denotes.
pub fn matches_the_meaning()
    ensures { MatchesTheMeaning }
{}

/// Whoever has the parts of an address, as a name and a verb, can match them one by one, and need not
/// put the address together.
pub fn matches_part_by_part()
    ensures { MatchesPartByPart }
{}
