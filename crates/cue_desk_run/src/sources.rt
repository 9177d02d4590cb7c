//! What a desk works with.
use cue_asker::AskerName;
use cue_show_file::Group;

/// What a desk works with: the folder of a store, a controller's port, the file of a relay, who presses, and which cues
/// are stood by together.
#[derive(Clone, Copy)]
pub struct Sources<'a> {
    pub dir: &'a str,
    pub port: u16,
    pub relay: Option<&'a str>,
    pub name: Option<AskerName>,
    /// The cues that STANDBY stands by together, for as long as the desk runs.
    pub together: &'a [Group],
}
