//! Which devices a plan relays. Each contract is a theorem; there is nothing to run.
ghost use Rattle.cue_relay_words.specs.Laws as laws;

/// Each device of a show file that is on the stage's network is relayed, from its port to its own address.
pub fn each_is_relayed()
    ensures { laws.EachIsRelayed }
{}

/// Nothing else is relayed: each route is that of a device of the file.
pub fn nothing_else()
    ensures { laws.NothingElse }
{}

/// Each of them has a port of its own, if a plan was made.
pub fn each_has_its_port()
    ensures { laws.EachHasItsPort }
{}
