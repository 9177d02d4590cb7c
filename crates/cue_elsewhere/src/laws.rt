//! A law of the lines, the contract of a function that does nothing.
ghost use Rattle.cue_elsewhere.specs.Laws as laws;

/// Whatever differs, and however little room there is: the lines name the devices that stand elsewhere, each once and in
/// the order of the table, as many as have room; and the numbers of those that are left, and of those of which nothing
/// was heard, stand after them.
pub fn each_is_named_or_counted()
    ensures { laws.EachIsNamedOrCounted }
{}
