// What the definitions of an area give, over any bytes.
ghost use Rattle.cue_log.specs.Laws.{OneArea, ReaderFindsEach, ReaderFindsOnly, AnyBytesAnswer, NoAreaIsAbsent};
ghost use Rattle.cue_log.specs.Laws.{LimitsOfAnArea};

/// The same bytes read as one area at most.
pub fn one_area()
    ensures { OneArea }
{}

/// The reader finds the area wherever there is one.
pub fn reader_finds_each()
    ensures { ReaderFindsEach }
{}

/// What the reader finds in bytes is there.
pub fn reader_finds_only()
    ensures { ReaderFindsOnly }
{}

/// Any bytes at all are absent, or an area, or damaged.
pub fn any_bytes_answer()
    ensures { AnyBytesAnswer }
{}

/// An area is not absent.
pub fn no_area_is_absent()
    ensures { NoAreaIsAbsent }
{}

/// The limits of an area as numbers: 16,777,216 bytes in all, 32,768 bytes of a payload, 13 in front of the snapshot, 5
/// in front of a payload, and the bytes of its gates.
pub fn limits_of_an_area()
    ensures { LimitsOfAnArea }
{}
