//! What a load makes of the differences between a store and its show file.
ghost use Rattle.std.specs.Prelude.{◌≡◌};
ghost use Rattle.cue_load_machine.specs.Differing as differing;

use crate::planned::is_exact;
use cue_loading::{Difference, Manner};
use cue_show::Show;

/// Whether the store has something there that the file does not have.
pub fn is_left(difference: &Difference) -> bool
    ensures { result ≡ differing.is_left difference.now }
{
    match difference {
        Difference::LeftDevice(_) => true,
        Difference::LeftCue(_) => true,
        Difference::MissingDevice(_) => false,
        Difference::MissingCue(_) => false,
        Difference::OtherPort(_, _) => false,
        Difference::OtherParts(_) => false,
        Difference::OtherOrder(_, _) => false,
        Difference::Otherwise => false,
    }
}

// Whether the file has something there that the store does not have.
fn is_missing(difference: &Difference) -> bool
    ensures { result ≡ differing.is_missing difference.now }
{
    match difference {
        Difference::LeftDevice(_) => false,
        Difference::LeftCue(_) => false,
        Difference::MissingDevice(_) => true,
        Difference::MissingCue(_) => true,
        Difference::OtherPort(_, _) => false,
        Difference::OtherParts(_) => false,
        Difference::OtherOrder(_, _) => false,
        Difference::Otherwise => false,
    }
}

/// Whether the controller refuses to add what differs so: its reply has said it then.
pub fn is_refused(difference: &Difference) -> bool
    ensures { result ≡ differing.is_refused difference.now }
{
    match difference {
        Difference::LeftDevice(_) => false,
        Difference::LeftCue(_) => false,
        Difference::MissingDevice(_) => false,
        Difference::MissingCue(_) => false,
        Difference::OtherPort(_, _) => true,
        Difference::OtherParts(_) => true,
        Difference::OtherOrder(_, _) => false,
        Difference::Otherwise => false,
    }
}

// Whether a load of this manner changes something of that: what is missing is added in any case, and the rest is
// replaced; what is left goes by one that is exact.
fn changes(manner: Manner, difference: &Difference) -> bool
    ensures { result ≡ differing.changes manner difference.now }
{
    if is_left(difference) {
        is_exact(manner)
    } else {
        is_missing(difference) || !manner.goes_on(false)
    }
}

// Whether it changes one of these.
fn changes_some(manner: Manner, found: &[Difference]) -> bool
    ensures { result ≡ differing.changes_some manner found.now }
{
    match found {
        [] => false,
        [first, rest @ ..] => changes(manner, first) || changes_some(manner, rest),
    }
}

// Whether there is a device.
fn has_devices(show: &Show) -> bool
    ensures { result ≡ differing.has_some show.now.devices }
{
    match show.devices().next() {
        Some(_) => true,
        None => false,
    }
}

// Whether there is a cue.
fn has_cues(show: &Show) -> bool
    ensures { result ≡ differing.has_some show.now.cues }
{
    match show.cues().next() {
        Some(_) => true,
        None => false,
    }
}

/// Whether a load of this manner changes a store that has something, and differs so from the file.
pub fn changes_stored(manner: Manner, stored: &Show, found: &[Difference]) -> bool
    ensures { result ≡ differing.changes_stored manner stored.now found.now }
{
    (has_devices(stored) || has_cues(stored)) && changes_some(manner, found)
}
