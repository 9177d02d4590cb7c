//! Numbers as they are spelled here: in decimal, with no zero in front and no sign.
ghost use Rattle.std.specs.Prelude.{◌≡◌, IfSome};
ghost use Rattle.std.specs.Fmt.{decimal};

use cue_show::DeviceNo;
use itoa::Buffer;

/// The number that is spelled so.
pub(crate) fn number_in(text: &[u8]) -> Option<u64>
    ensures { IfSome result (λ number. text.now ≡ decimal number) }
{
    let number: u64 = str::from_utf8(text).ok()?.parse().ok()?;
    let mut buffer = Buffer::new();
    let spelled = buffer.format(number);
    if spelled.as_bytes() == text {
        Some(number)
    } else {
        None
    }
}

/// The device whose number is spelled so.
pub(crate) fn device_in(text: &[u8]) -> Option<DeviceNo>
    ensures { IfSome result (λ device. text.now ≡ decimal device) }
{
    let number = i32::try_from(number_in(text)?).ok()?;
    DeviceNo::of(number)
}
