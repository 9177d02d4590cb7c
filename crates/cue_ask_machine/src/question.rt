//! What is asked by the words that were typed.
use cue_desk::orders::DeskCommand;
use cue_show::CueNo;

/// One command: what it asks, which cues it stands by with its own, who asks, if that is to be said, and the port of the
/// controller.
#[derive(Clone, Copy)]
pub struct Question<'a> {
    pub order: DeskCommand,
    pub others: &'a [CueNo],
    pub name: Option<&'a [u8]>,
    pub port: u16,
}
