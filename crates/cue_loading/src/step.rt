//! The steps of a plan.
use cue_show::{CueNo, DeviceNo, Parts};

/// One thing that is asked of the controller.
#[derive(Debug, Drop)]
pub enum Step {
    /// Add the device with this port.
    AddDevice(DeviceNo, u16),
    /// Take the device out of the table.
    RemoveDevice(DeviceNo),
    /// Put the cue at the end of the stack.
    AddCue(CueNo, Parts),
    /// Take the cue off the stack.
    RemoveCue(CueNo),
    /// Move the place to the cue.
    MovePlace(CueNo),
}
