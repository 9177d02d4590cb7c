//! The buttons of a view.
use cue_show::{CueNo, DeviceNo};

/// A button of a view: what it is for stands in it.
#[derive(Clone, Copy, PartialEq, Eq, Debug)]
pub enum Button {
    /// Stand the cue by, and choose the attempt that comes of it.
    Standby(CueNo),
    /// Give the cue, in this attempt.
    Go(CueNo, u32),
    /// Give the preparation up.
    Cancel(CueNo, u32),
    /// Wait no longer for the device, in this attempt.
    Release(u32, DeviceNo),
    /// Move to the cue.
    MoveTo(CueNo),
    /// GO and CANCEL are for this attempt. Nothing is sent.
    Choose(u32),
    /// The end of this attempt was seen. Nothing is sent.
    Seen(u32),
}
