//! What somebody intends who types a word or strikes a key.
use cue_show::CueNo;

/// An intent. With a cue it is of that one, and of no other.
#[derive(Clone, Copy, PartialEq, Eq, Debug)]
pub enum Intent {
    Standby(Option<CueNo>),
    Go(Option<CueNo>),
    Cancel,
}
