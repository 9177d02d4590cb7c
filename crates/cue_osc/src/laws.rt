//! Laws of every datagram and every packet, each the contract of a function that does nothing.

ghost use Rattle.std.specs.Prelude.{◌≡◌};
ghost use Rattle.cue_osc.specs.declared.limits.TheConstants.{MAX_DEPTH, MAX_LEN};
ghost use Rattle.cue_osc.specs.Laws.{ReadingIsTheGrammar, OnePacket, WrittenIsSpelled, WrittenIsRead};
ghost use Rattle.cue_osc.specs.Laws.{OneSpelling, SpelledAsWritten, TwoSpellings};
ghost use Rattle.cue_osc.specs.Laws.{MessagesHaveAddresses, MemoryIsNoFault};

/// Reading from front to back finds a packet exactly if the grammar has one, and that one.
pub fn reading_is_the_grammar()
    ensures { ReadingIsTheGrammar }
{}

/// At most one packet belongs to the same bytes.
pub fn one_packet()
    ensures { OnePacket }
{}

/// A packet whose messages are all understood and have arguments has one datagram at most, the one
/// that `write` gives.
pub fn one_spelling()
    ensures alone { OneSpelling }
    ensures written { SpelledAsWritten }
{}

/// A message without arguments may lack its type tag string, as those of older senders do: so it has
/// two spellings, and no third.
pub fn two_spellings()
    ensures { TwoSpellings }
{}

/// What `write` gives of a plain packet is a datagram of that packet.
pub fn written_is_spelled()
    ensures { WrittenIsSpelled }
{}

/// What `write` gives of a plain packet is read as that packet.
pub fn written_is_read()
    ensures { WrittenIsRead }
{}

/// Each message of a datagram, also a discarded one, has an address: it begins with `/` and holds
/// no null.
pub fn messages_have_addresses()
    ensures { MessagesHaveAddresses }
{}

/// Whatever bytes come, `Fault::Memory` is not what is wrong with them.
pub fn memory_is_no_fault()
    ensures { MemoryIsNoFault }
{}

/// The limits, as numbers: a datagram has at most 4,096 bytes, and at most 8 bundles stand one in the other.
pub fn limits()
    ensures bytes { MAX_LEN ≡ 4096 }
    ensures depth { MAX_DEPTH ≡ 8 }
{}
