//! The laws of a connection. Each contract is a theorem; there is nothing to run.
ghost use Rattle.std.specs.Prelude.{◌≡◌};
ghost use Rattle.cue_connection.specs.Laws.{AnyPieces, EndsAtEmptyLine, KeepsLittle, NothingAfter, OneRequest};
ghost use Rattle.cue_connection.specs.declared.connection.TheConstants.{MAX_INPUT, PATIENCE};
ghost use Rattle.cue_connection.specs.declared.scanning.TheConstants.{MAX_FIELDS};

/// A request that comes in any pieces gives what it gives in one: what is kept of it, and how far its head has come, is
/// the same, and what it asks is said by these alone.
pub fn any_pieces()
    ensures { AnyPieces }
{}

/// A head ends where the first empty line ends that follows its first line.
pub fn ends_at_empty_line()
    ensures { EndsAtEmptyLine }
{}

/// Whatever happens at a connection, piece by piece and moment by moment: it asks once at most.
pub fn one_request()
    ensures { OneRequest }
{}

/// Once it has asked, it asks nothing more, and nothing is kept of what still comes.
pub fn nothing_after()
    ensures { NothingAfter }
{}

/// Whatever comes, at most 8,448 bytes of it are kept.
pub fn keeps_little()
    ensures { KeepsLittle }
{}

/// A connection has a second for its request and a second for its answer, at most 8,448 bytes of it are kept, and a
/// head has at most 64 fields.
pub fn limits()
    ensures patience { PATIENCE ≡ 1000 }
    ensures input { MAX_INPUT ≡ 8448 }
    ensures fields { MAX_FIELDS ≡ 64 }
{}
