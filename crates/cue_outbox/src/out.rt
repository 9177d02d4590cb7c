//! A datagram with the port that it goes to.
use cue_show::Bytes;

/// A datagram that is owed: the port of this machine that it goes to, and its bytes.
#[derive(Debug, Drop, PartialEq, Eq)]
pub struct Out {
    pub to: u16,
    pub bytes: Bytes,
}
