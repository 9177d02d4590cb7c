//! The law over the whole stage: a controller with its store, a network that loses, repeats and delays, and devices.
//! Definitions and laws alone; nothing runs.
//!
//! All that a stage is follows from how it began and from the list of what happened since (`specs/Stage.antt`). The
//! store meets an incident of `cue_engine`, or something befalls a device of `cue_device`. The network has each
//! datagram that the controller ever handed to it, and may deliver it to any device at any time, as often as it likes,
//! or never. Nothing ties the inputs of the controller to what devices answered: whoever wants may send it anything.
//! `specs/Laws.antt` says what holds then, and `specs/Tasks.antt` what each device has to do. One law more holds if
//! nobody but a device says of itself that it stands by (`specs/Consent.antt`). And what was given or given up ends, and
//! what is prepared can go, if after a tick all goes well for it: `specs/Waiting.antt` has for whom an attempt waits,
//! `specs/Going.antt` what has to come.
//!
//! Why it is so:
//! - That only devices answer is a premise on what inputs say, and not on who sent them: the port of a datagram can be
//!   made up. A copy that comes late is as good as the first. What an input says is asked of its address and its
//!   argument, and not of the state, so the premise can be seen on the wire.
//! - A device also gives up if a STANDBY brings its number back with another task. None does: the cue of a live attempt
//!   stays in the stack, a cue of the stack does not change, and an attempt starts once.
//! - Consent is that of the required devices of the cue as it was when the attempt started: the kept batches have its
//!   Start, and a cue that is taken off the stack later changes nothing.
//! - That an attempt goes on rests on a measure: the number of its devices that are still to answer. No event raises it,
//!   but a GO or a cancel of it; each answer to the order of its stage lowers it; at none the attempt has ended, or can
//!   go. That answers come is a premise on one round, from a tick on: nothing is said of lists without an end.
#![tactic(auto)]

pub mod laws;
