//! Which attempt each device is in, by the number of the device.
ghost use Rattle.std.specs.Prelude.{◌≡◌, ℕ, ◌≤◌, [], if◌then◌else◌, slice_index};
ghost use Rattle.cue_show.specs.declared.limits.TheConstants.{MAX_DEVICE_NUMBER};
ghost use Rattle.cue_exchange.specs.Answers.{is_one_of};
ghost use Rattle.cue_exchange.specs.Holders.{AreHolders};

use crate::attempt::{Attempt, DeviceAnswer};
use cue_show::limits::MAX_DEVICES;

/// For each device the number of the attempt that it is in, and 0 if it is in none.
pub(crate) type Holders = [u32; MAX_DEVICES];

// The table of these attempts. If a device were in two, the first would count.
pub(crate) fn holders_of(attempts: &[Attempt]) -> Holders
    ensures { AreHolders result attempts.now }
{
    match attempts {
        [] => no_holders(),
        [first, rest @ ..] => {
            let mut holders = holders_of(rest);
            mark(&mut holders, first.seq, first.answers.as_slice());
            holders
        }
    }
}

// Each device is in no attempt.
pub(crate) fn no_holders() -> Holders
    ensures { AreHolders result [] }
{
    [0; MAX_DEVICES]
}

// The devices of these answers are in the attempt with the number.
fn mark(holders: &mut Holders, seq: u32, items: &[DeviceAnswer])
    ensures { (d : ℕ) → d ≤ MAX_DEVICE_NUMBER → slice_index holders.new d
        ≡ (if is_one_of d items.now then seq else slice_index holders.old d) }
{
    for item in items {
        holders[usize::from(item.device.number())] = seq;
    }
}
