//! The law from a finger to a machine: a stage, and the desks at which people press.
//! Definitions and laws alone; nothing runs.
//!
//! All that a house is follows from one list of what happened in it (`specs/House.antt`): on its stage (`cue_stage`),
//! or in a turn of one of its desks (`cue_station`). So of each press it is known what the store had met by then.
//! `specs/Asking.antt` has what an input asks for, `specs/Presses.antt` what a press is, and `specs/Finger.antt` the
//! law. It holds if nobody but a desk gives commands, if desks read the store as it was (`specs/Copies.antt`), and if
//! nobody but a device says of itself that it stands by.
//!
//! Why it is so:
//! - The law rests on the law of each desk (`KeepsLaw`), which `Station` keeps from `Station::new` on, and on what the
//!   contract of `datagram_with` says of the bytes of a message. Nothing is said of what carries them.
//! - That only desks command is a premise on bytes, and not on who sent them: a message may come late, and in any
//!   number of copies. So the press for which an attempt is given may have been for an earlier attempt of its cue: a go
//!   names a cue, and no attempt.
//! - That a desk reads the store as it was is asked of what the store keeps. A batch that a desk reads before it is
//!   safe, and that a loss of power then takes back, is none of that: its numbers may be drawn again.
//! - At a cue at most one attempt is live, since its devices are in one attempt alone. So of two attempts at a cue the
//!   one has ended before the other starts.
#![tactic(auto)]

pub mod laws;
