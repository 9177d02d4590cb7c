//! Device numbers, each within its range from the moment it is made.
ghost use Rattle.std.specs.Prelude.{◌≡◌, ◌≤◌};
ghost use Rattle.cue_show.specs.DeviceNumber.{device_of, device_of_byte};

use crate::limits::MAX_DEVICE_NUMBER;
use std::marker::Model;

/// The number of a device, 0 to 111.
#[derive(Clone, Copy, PartialEq, Eq, PartialOrd, Ord, Hash, Debug)]
pub struct DeviceNo {
    number: u8,
}

impl Model for DeviceNo {
    ghost use Rattle.std.specs.Prelude.{ℕ, ◌≤◌};
    ghost use Rattle.cue_show.specs.declared.limits.TheConstants.{MAX_DEVICE_NUMBER};

    ghost Value = { ℕ };

    ghost view = { λ d. d.number };

    ghost invariant = { λ d. d.number ≤ MAX_DEVICE_NUMBER };

    ghost inverse = { λ n. record { number = n } };
}

impl DeviceNo {
    /// The device of a number that a message carries, if it is in range.
    pub fn of(number: i32) -> Option<DeviceNo>
        ensures { result ≡ device_of number }
    {
        match u8::try_from(number) {
            Ok(byte) => DeviceNo::of_byte(byte),
            Err(_) => None,
        }
    }

    /// The device of a number that a stored text carries, if it is in range.
    pub fn of_byte(number: u8) -> Option<DeviceNo>
        ensures { result ≡ device_of_byte number }
    {
        if number <= MAX_DEVICE_NUMBER {
            Some(DeviceNo { number })
        } else {
            None
        }
    }

    /// The number.
    pub fn number(self) -> u8
        ensures value { result ≡ self }
        ensures range { result ≤ MAX_DEVICE_NUMBER }
    {
        self.number
    }
}
