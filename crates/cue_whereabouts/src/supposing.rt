//! What the stack supposes of a device.
ghost use Rattle.std.specs.Prelude.{◌≡◌};
ghost use Rattle.std.specs.Option.{option_or};
ghost use Rattle.cue_whereabouts.specs.Supposing as supposing;

use crate::last::PartBytes;
use crate::telling::bytes_for;
use cue_show::{CueNo, DeviceNo, Parts, Show};

/// What the stack supposes of a device: what the last cue before had it do.
#[derive(Clone, Copy)]
pub struct Supposed {
    pub cue: CueNo,
    pub bytes: PartBytes,
}

// What the cue has the device do, if it has a part for it; else what was supposed before.
fn supposed_with(
    device: DeviceNo,
    cue: CueNo,
    parts: &Parts,
    before: Option<Supposed>,
) -> Option<Supposed>
    ensures { result ≡ option_or (supposing.supposed_by device (cue, parts.now)) before }
{
    match bytes_for(device, parts) {
        Some(bytes) => Some(Supposed { cue, bytes }),
        None => before,
    }
}

/// What the stack supposes of the device at this cue: what the last cue before it that has a part for the device had
/// it do.
pub(crate) fn supposed_at(place: CueNo, device: DeviceNo, show: &Show) -> Option<Supposed>
    ensures { result ≡ supposing.supposed_at place device show.now.cues }
{
    let mut supposed = None;
    for (cue, parts) in show.cues() {
        if *cue == place {
            return supposed;
        }
        supposed = supposed_with(device, *cue, parts, supposed);
    }
    supposed
}
