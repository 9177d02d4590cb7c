//! States as bytes.
ghost use Rattle.std.specs.Prelude.{◌≡◌, ◌↔◌, IsTrue, IfOk, IsErrOf};
ghost use Rattle.cue_core.specs.State.{is_state};
ghost use Rattle.cue_records.specs.State.{state_text, is_other_version, IsStateText, IsNoState};
ghost use Rattle.cue_records.specs.StateReading.{GivesState, state_of};

mod numbers;
mod reading;
mod writing;

use crate::fault::StateFault;
use crate::fields::{put_byte, put_u32};
use crate::limits::MAX_STATE_BYTES;
use cue_core::State;
use cue_show::Bytes;
use std::alloc::{AllocError, Global};

/// The version of the format: the first byte of each encoding of a state that is written.
pub const VERSION: u8 = 2;

/// The version before it, whose encodings are still read: each part is required.
pub const OLD_VERSION: u8 = 1;

/// The encoding of a state. It takes memory once, for the longest encoding.
pub fn write_state(alloc: Global, state: &State) -> Result<Bytes, AllocError>
    ensures text { IfOk result (λ bytes. bytes ≡ state_text state.now) }
    // So the encoding is read again as the state.
    ensures rules { IsTrue (is_state state.now) }
{
    let show = state.show();
    let mut out = Vec::with_capacity(alloc, MAX_STATE_BYTES)?;
    put_byte(&mut out, VERSION)?;
    writing::put_show(&mut out, show)?;
    put_u32(&mut out, state.last_seq())?;
    writing::put_ended(&mut out, state.ended())?;
    writing::put_live(&mut out, state.live())?;
    Ok(Bytes::from_vec(out))
}

/// The state whose encoding the bytes are, all of the bytes, in this version or in the one before it.
pub fn read_state(alloc: Global, bytes: &[u8]) -> Result<State, StateFault>
    // The first byte alone says the version, before anything else is looked at.
    ensures version { IsErrOf result StateFault.Version ↔ IsTrue (is_other_version bytes.now) }
    // What is read keeps the rules of a state, and the bytes are an encoding of it.
    ensures found { IfOk result (λ state. IsTrue (is_state state) × IsStateText bytes.now state) }
    // No encoding of a state is refused as malformed.
    ensures only { IsErrOf result StateFault.Malformed → IsNoState bytes.now }
    // What is read is what reading from front to back finds.
    ensures exact { GivesState result (state_of bytes.now) }
{
    state_in(alloc, bytes)
}

#[tactic(auto, unfolding(crate::specs::StateReading::state_of))]
fn state_in(alloc: Global, bytes: &[u8]) -> Result<State, StateFault>
    ensures version { IsErrOf result StateFault.Version ↔ IsTrue (is_other_version bytes.now) }
    ensures exact { GivesState result (state_of bytes.now) }
{
    match bytes {
        [] => Err(StateFault::Malformed),
        [number, rest @ ..] => {
            let Some(form) = numbers::form_of_version(*number) else {
                return Err(StateFault::Version);
            };
            Ok(reading::standing_of(alloc, form, rest)?)
        }
    }
}
