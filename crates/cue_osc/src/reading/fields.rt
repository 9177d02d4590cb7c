//! The atomic types, each read from the front of the bytes: the value, and the bytes after it.

ghost use Rattle.std.specs.Prelude.{◌≡◌, option_map};
ghost use Rattle.std.specs.Int.{w32, w64};
ghost use Rattle.cue_osc.specs.Argument.{arg_view};
ghost use Rattle.cue_osc.specs.Reading.{Gives, number_at, text_len as text_length, padded_at, string_at, blob_at};
ghost use Rattle.cue_osc.specs.Reading.{arg_at, are_zeros as all_zeros};

use crate::fault::Fault;
use crate::packet::Arg;

/// The first count that is negative as an int32.
const NEGATIVE: u32 = 1 << 31;

/// Four bytes as a number.
pub(crate) fn u32_at(bytes: &[u8]) -> Result<(u32, &[u8]), Fault>
    ensures { Gives (λ x. (x.0, x.1.now)) result (number_at w32 bytes.now) }
{
    if bytes.len() < 4 {
        return Err(Fault::BadSize);
    }
    let (front, rest) = bytes.split_at(4);
    let number = u32::from_be_bytes([front[0], front[1], front[2], front[3]]);
    Ok((number, rest))
}

/// Eight bytes as a number.
pub(crate) fn u64_at(bytes: &[u8]) -> Result<(u64, &[u8]), Fault>
    ensures { Gives (λ x. (x.0, x.1.now)) result (number_at w64 bytes.now) }
{
    if bytes.len() < 8 {
        return Err(Fault::BadSize);
    }
    let (front, rest) = bytes.split_at(8);
    let number = u64::from_be_bytes([
        front[0], front[1], front[2], front[3], front[4], front[5], front[6], front[7],
    ]);
    Ok((number, rest))
}

/// The number of bytes before the first null, or of all bytes if there is none.
fn text_len(bytes: &[u8]) -> usize
    ensures { result ≡ text_length bytes.now }
{
    for (i, b) in bytes.iter().enumerate() {
        if *b == 0 {
            return i;
        }
    }
    bytes.len()
}

fn are_zeros(bytes: &[u8]) -> bool
    ensures { result ≡ all_zeros bytes.now }
{
    bytes.iter().all(|b| *b == 0)
}

/// So many bytes, and so many zeros after them.
#[tactic(auto, unfolding(crate::specs::Reading::padded_at))]
fn padded(bytes: &[u8], len: usize, padding: usize) -> Option<(&[u8], &[u8])>
    ensures { option_map (λ x. (x.0.now, x.1.now)) result ≡ padded_at len padding bytes.now }
{
    if bytes.len() < len {
        return None;
    }
    let (content, rest) = bytes.split_at(len);
    if rest.len() < padding {
        return None;
    }
    let (zeros, rest) = rest.split_at(padding);
    if !are_zeros(zeros) {
        return None;
    }
    Some((content, rest))
}

/// An OSC-string.
#[tactic(auto, unfolding(crate::specs::Reading::string_at))]
pub(crate) fn string(bytes: &[u8]) -> Result<(&[u8], &[u8]), Fault>
    ensures { Gives (λ x. (x.0.now, x.1.now)) result (string_at bytes.now) }
{
    let len = text_len(bytes);
    match padded(bytes, len, 4 - len % 4) {
        Some(found) => Ok(found),
        None => Err(Fault::BadString),
    }
}

/// An OSC-blob.
#[tactic(auto, unfolding(crate::specs::Reading::blob_at))]
fn blob(bytes: &[u8]) -> Result<(&[u8], &[u8]), Fault>
    ensures { Gives (λ x. (x.0.now, x.1.now)) result (blob_at bytes.now) }
{
    let (count, rest) = u32_at(bytes)?;
    if count >= NEGATIVE {
        return Err(Fault::BadBlob);
    }
    let len = count as usize;
    match padded(rest, len, (4 - len % 4) % 4) {
        Some(found) => Ok(found),
        None => Err(Fault::BadBlob),
    }
}

/// An argument with this type tag, which is `i`, `s` or `b`.
#[tactic(auto, unfolding(crate::specs::Reading::arg_at))]
pub(crate) fn arg(kind: u8, bytes: &[u8]) -> Result<(Arg<'_>, &[u8]), Fault>
    ensures { Gives (λ x. (arg_view x.0, x.1.now)) result (arg_at kind bytes.now) }
{
    if kind == b'i' {
        let (number, rest) = u32_at(bytes)?;
        Ok((Arg::Int(number.cast_signed()), rest))
    } else if kind == b's' {
        let (text, rest) = string(bytes)?;
        Ok((Arg::Text(text), rest))
    } else {
        let (content, rest) = blob(bytes)?;
        Ok((Arg::Blob(content), rest))
    }
}
