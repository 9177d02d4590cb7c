//! The kinds of event: all that can happen to a state.
ghost use Rattle.std.specs.Prelude.{◌≡◌};

use cue_exchange::{Outcome, Reason};
use cue_show::{CueNo, DeviceNo, Parts};
use std::alloc::AllocError;

/// An attempt that has ended, and how.
#[derive(Clone, Copy, PartialEq, Eq, Debug)]
pub struct Ended {
    pub seq: u32,
    pub outcome: Outcome,
}

/// What happens to a state.
///
/// Attempts are named by their sequence number, times are in milliseconds since 1970. Which events are acceptable
/// in a state, and what each makes of it, is said by the definitions `acceptable` and `after`.
#[derive(Drop)]
pub enum Event {
    /// The device goes into the table, with its port.
    Device(DeviceNo, u16),
    /// The device is taken out of the table.
    NoDevice(DeviceNo),
    /// The cue goes on the stack, with its parts.
    Cue(CueNo, Parts),
    /// The cue is taken off the stack.
    NoCue(CueNo),
    /// The operator moves to the cue.
    Place(CueNo),
    /// The attempt starts at the cue; from the time on a tick cancels it if it is still Preparing.
    Start(u32, CueNo, u64),
    /// The device stands by in the attempt.
    Ready(u32, DeviceNo),
    /// The attempt is decided: its cue is carried out.
    Go(u32),
    /// The device has carried its part out.
    Done(u32, DeviceNo),
    /// The preparation of the attempt is given up.
    Cancel(u32, Reason),
    /// The device has given its preparation up.
    LetGo(u32, DeviceNo),
    /// The device cannot go on.
    Failed(u32, DeviceNo),
    /// The optional device is excused: the cue may go without it.
    Excuse(u32, DeviceNo),
}

impl Clone for Event {
    ghost is_clone = { λ event copy. copy ≡ event };

    fn clone(&self) -> Result<Event, AllocError> {
        Ok(match self {
            Event::Device(device, port) => Event::Device(*device, *port),
            Event::NoDevice(device) => Event::NoDevice(*device),
            Event::Cue(cue, parts) => Event::Cue(*cue, parts.clone()?),
            Event::NoCue(cue) => Event::NoCue(*cue),
            Event::Place(cue) => Event::Place(*cue),
            Event::Start(seq, cue, deadline) => Event::Start(*seq, *cue, *deadline),
            Event::Ready(seq, device) => Event::Ready(*seq, *device),
            Event::Go(seq) => Event::Go(*seq),
            Event::Done(seq, device) => Event::Done(*seq, *device),
            Event::Cancel(seq, reason) => Event::Cancel(*seq, *reason),
            Event::LetGo(seq, device) => Event::LetGo(*seq, *device),
            Event::Failed(seq, device) => Event::Failed(*seq, *device),
            Event::Excuse(seq, device) => Event::Excuse(*seq, *device),
        })
    }
}
