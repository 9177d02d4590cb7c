//! The attempts that hang on one device: it alone is required, and the others of the cue are optional.
ghost use Rattle.std.specs.Prelude.{◌≡◌};
ghost use Rattle.cue_evening.specs.Alone.{
  required_count,
  has_optional,
  hangs_on_one,
  first_required,
  alone_required,
  is_new,
  named_device,
};

use cue_exchange::{Answers, Attempt};
use cue_show::DeviceNo;

// How many devices are required.
fn required_count(answers: &Answers) -> usize
    ensures { result ≡ required_count answers.now }
{
    answers.as_slice().iter().filter(|x| !x.optional).count()
}

// Whether some device is optional.
fn has_optional(answers: &Answers) -> bool
    ensures { result ≡ has_optional answers.now }
{
    answers.as_slice().iter().any(|x| x.optional)
}

// Whether one device alone is required, and another one is optional.
fn hangs_on_one(answers: &Answers) -> bool
    ensures { result ≡ hangs_on_one answers.now }
{
    required_count(answers) == 1 && has_optional(answers)
}

// The first required device.
fn first_required(answers: &Answers) -> Option<DeviceNo>
    ensures { result ≡ first_required answers.now }
{
    let found = answers.as_slice().iter().find(|x| !x.optional)?;
    Some(found.device)
}

// The device that alone is required, if others are optional.
fn alone_required(answers: &Answers) -> Option<DeviceNo>
    ensures { result ≡ alone_required answers.now }
{
    if hangs_on_one(answers) {
        first_required(answers)
    } else {
        None
    }
}

/// The device that alone is required of an attempt that is Preparing and began after the one with this number, if
/// other devices of it are optional.
pub fn named_device(last: u32, attempt: &Attempt) -> Option<DeviceNo>
    ensures { result ≡ named_device last attempt.now }
{
    if attempt.seq > last && attempt.stage.is_preparing() {
        alone_required(&attempt.answers)
    } else {
        None
    }
}
