//! What is to be sent, as C has it.
ghost use Rattle.std.specs.Prelude.{◌≡◌, []};
ghost use Rattle.cue_device.specs.Datagrams.{answered_text};
ghost use Rattle.cue_device_c.specs.Calls.{sent_bytes};

use crate::state::CuePlace;
use cue_device::{Answer, Device, MAX_ANSWER};

/// `struct cue_answer`: the first `length` bytes are sent to the place, none if it is 0.
#[repr(C)]
#[derive(Clone, Copy)]
pub struct CueAnswer {
    pub length: u32,
    pub to: CuePlace,
    pub bytes: [u8; MAX_ANSWER],
}

impl CueAnswer {
    // There is nothing to send.
    pub(crate) fn none() -> CueAnswer
        ensures { sent_bytes result ≡ [] }
    {
        CueAnswer {
            length: 0,
            to: CuePlace::none(),
            bytes: [0; MAX_ANSWER],
        }
    }

    // The datagram of the device's answer, for this place; nothing to send if there is none.
    pub(crate) fn of(device: &Device, answer: Option<Answer>, to: CuePlace) -> CueAnswer
        ensures bytes { sent_bytes result ≡ answered_text device.now.number answer }
        ensures to { result.to ≡ to }
    {
        let mut bytes = [0; MAX_ANSWER];
        let length = device.write_answer(answer, &mut bytes);
        CueAnswer {
            length: length as u32,
            to,
            bytes,
        }
    }
}
