//! Whether the controller was held up, as by a process that was stopped or a disk that hangs.
ghost use Rattle.std.specs.Prelude.{◌≡◌};
ghost use Rattle.cue_evening.specs.Holding.{held_up};

/// The longest time between two looks, in milliseconds, of which nothing is said: there is a tick four times a second.
pub const LONGEST: u64 = 1_000;

/// For how long the log did not look, by the times of two looks in milliseconds since 1970; none if that is no longer
/// than a second, or if the clock was put back.
pub fn held_up(before: u64, now: u64) -> Option<u64>
    ensures { result ≡ held_up before now }
{
    let millis = now.checked_sub(before)?;
    if millis > LONGEST { Some(millis) } else { None }
}
