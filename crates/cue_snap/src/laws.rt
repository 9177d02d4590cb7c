// What the definitions of a pair give, over any bytes.
ghost use Rattle.cue_snap.specs.Laws.{PairsAreSymmetric, OneAreaOfAPair, ReaderFindsEachPair, AnyPairAnswers};
ghost use Rattle.cue_snap.specs.Laws.{PairThatReadsIsGood, PairsBeginWithOne};

/// Which of the two disks comes first does not count.
pub fn pairs_are_symmetric()
    ensures { PairsAreSymmetric }
{}

/// A pair reads as one area at most.
pub fn one_area_of_a_pair()
    ensures { OneAreaOfAPair }
{}

/// The reader of pairs finds the area that a pair reads as.
pub fn reader_finds_each_pair()
    ensures { ReaderFindsEachPair }
{}

/// Any two lists of bytes read as an area, or neither has one, or they are spoiled.
pub fn any_pair_answers()
    ensures { AnyPairAnswers }
{}

/// A pair that reads as an area has one, and is not spoiled: so each answer of opening excludes the others.
pub fn pair_that_reads_is_good()
    ensures { PairThatReadsIsGood }
{}

/// The first area of a pair has generation 1.
pub fn pairs_begin_with_one()
    ensures { PairsBeginWithOne }
{}
