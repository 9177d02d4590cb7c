//! Whether STANDBY asks once more because of a device.
ghost use Rattle.std.specs.Prelude.{◌≡◌, option_map};
ghost use Rattle.std.specs.List.{list_any};
ghost use Rattle.cue_show.specs.Parts.{uses};
ghost use Rattle.cue_elsewhere.specs.Asking as asking;

use cue_show::{CueNo, DeviceNo, Part, Show};
use cue_whereabouts::Difference;

// Whether some of the parts are for the device.
fn uses(device: DeviceNo, parts: &[Part]) -> bool
    ensures { result ≡ uses device parts.now }
{
    parts.iter().any(|part| part.device == device)
}

// Whether the cue has a part for the device.
fn is_used_in(show: &Show, device: DeviceNo, cue: CueNo) -> bool
    ensures { result ≡ asking.is_used_in show.now device cue }
{
    match show.parts(cue) {
        Some(parts) => uses(device, parts.as_slice()),
        None => false,
    }
}

// Whether one of these cues has.
fn is_used_by(show: &Show, device: DeviceNo, cues: &[CueNo]) -> bool
    ensures { result ≡ list_any (asking.is_used_in show.now device) cues.now }
{
    cues.iter().any(|cue| is_used_in(show, device, *cue))
}

// The same of a store that may not have been read.
fn is_used(show: Option<&Show>, device: DeviceNo, cues: &[CueNo]) -> bool
    ensures { result ≡ asking.is_used (option_map (λ s. s.now) show.entry) device cues.now }
{
    match show {
        Some(show) => is_used_by(show, device, cues),
        None => false,
    }
}

/// Whether STANDBY of the cue that is next asks once more because of the device: it is known not to stand as supposed,
/// and that cue has a part for it, or one of those that are stood by together with it. Of a device of which nothing was
/// heard STANDBY does not ask.
pub fn asks(difference: &Difference, show: Option<&Show>, companions: &[CueNo]) -> bool
    ensures { result ≡ asking.asks (option_map (λ s. s.now) show.entry) companions.now difference.now }
{
    difference.is_elsewhere()
        && (difference.is_next || is_used(show, difference.device, companions))
}
