//! Pieces of a line.
ghost use Rattle.std.specs.Prelude.{◌≡◌, ◌≤◌, ◌<◌, ◌+◌, not, length, position, take, drop};
ghost use Rattle.std.specs.Char.{is_ascii_digit};
ghost use Rattle.std.specs.Option.{option_map};
ghost use Rattle.cue_log_lines.specs.Pieces as piece;

use cue_show::{CueNo, DeviceNo};
use memchr::memrchr;

/// What follows these words at the front of a text.
#[tactic(auto, unfolding(crate::specs::Pieces::after))]
pub fn after<'a>(words: &[u8], text: &'a [u8]) -> Option<&'a [u8]>
    ensures { option_map (λ x. x.now) result ≡ piece.after words.now text.now }
{
    text.strip_prefix(words)
}

/// What stands before these words at the end of a text.
#[tactic(auto, unfolding(crate::specs::Pieces::before))]
pub fn before<'a>(words: &[u8], text: &'a [u8]) -> Option<&'a [u8]>
    ensures { option_map (λ x. x.now) result ≡ piece.before words.now text.now }
{
    text.strip_suffix(words)
}

// The place of the first byte that is no digit, if there is one.
fn first_other(text: &[u8]) -> Option<usize>
    ensures { result ≡ position (λ x. not (is_ascii_digit x)) text.now }
{
    text.iter().position(|x| !x.is_ascii_digit())
}

// How many digits stand at the front.
fn digits_end(text: &[u8]) -> usize
    ensures value { result ≡ piece.end_of is_ascii_digit text.now }
    ensures range { result ≤ length text.now }
{
    first_other(text).unwrap_or(text.len())
}

// A number with one digit more, up to the largest that there is.
fn next_number(sum: u64, byte: u8) -> u64
    ensures { result ≡ piece.next_number sum byte }
{
    sum.saturating_mul(10)
        .saturating_add(u64::from(byte.saturating_sub(b'0')))
}

// The number that digits are, up to the largest that there is.
fn number_of(digits: &[u8]) -> u64
    ensures { result ≡ piece.number_of digits.now }
{
    digits
        .iter()
        .fold(0, |sum: u64, byte| next_number(sum, *byte))
}

/// The number at the front of a text, and what follows it; 0 if no digit stands there.
#[tactic(auto, unfolding(crate::specs::Pieces::number_at))]
pub fn number_in(text: &[u8]) -> (u64, &[u8])
    ensures { (result.0, result.1.now) ≡ piece.number_at text.now }
{
    let end = digits_end(text);
    (number_of(&text[..end]), &text[end..])
}

// Whether a byte may stand in a cue number.
fn is_cue_sign(byte: u8) -> bool
    ensures { result ≡ piece.is_cue_sign byte }
{
    byte.is_ascii_digit() || byte == b'.'
}

// The place of the first byte that cannot stand in a cue number, if there is one.
fn first_beside(text: &[u8]) -> Option<usize>
    ensures { result ≡ position (λ x. not (piece.is_cue_sign x)) text.now }
{
    text.iter().position(|x| !is_cue_sign(*x))
}

// How many bytes of a cue number stand at the front.
fn cue_end(text: &[u8]) -> usize
    ensures value { result ≡ piece.end_of piece.is_cue_sign text.now }
    ensures range { result ≤ length text.now }
{
    first_beside(text).unwrap_or(text.len())
}

/// The cue at the front of a text, and what follows it.
#[tactic(auto, unfolding(crate::specs::Pieces::cue_at))]
pub fn cue_in(text: &[u8]) -> Option<(CueNo, &[u8])>
    ensures { option_map (λ x. (x.0, x.1.now)) result ≡ piece.cue_at text.now }
{
    let end = cue_end(text);
    match CueNo::read(&text[..end]) {
        Some(cue) => Some((cue, &text[end..])),
        None => None,
    }
}

// A number that fits into a byte.
fn byte_of(number: u64) -> Option<u8>
    ensures { result ≡ piece.below 256 number }
{
    u8::try_from(number).ok()
}

/// The device at the front of a text, and what follows it.
#[tactic(auto, unfolding(crate::specs::Pieces::device_at))]
pub fn device_in(text: &[u8]) -> Option<(DeviceNo, &[u8])>
    ensures { option_map (λ x. (x.0, x.1.now)) result ≡ piece.device_at text.now }
{
    let (number, rest) = number_in(text);
    let device = DeviceNo::of_byte(byte_of(number)?)?;
    Some((device, rest))
}

/// A number that fits into 16 bits.
pub fn short_of(number: u64) -> Option<u16>
    ensures { result ≡ piece.below 65536 number }
{
    u16::try_from(number).ok()
}

/// A number that fits into 32 bits.
pub fn word_of(number: u64) -> Option<u32>
    ensures { result ≡ piece.below 4294967296 number }
{
    u32::try_from(number).ok()
}

// What a place cuts a text into, without the byte there.
fn cut_at(text: &[u8], place: usize) -> (&[u8], &[u8])
    requires { place < length text.now }
    ensures front { result.0.now ≡ take place text.now }
    ensures rest { result.1.now ≡ drop (place + 1) text.now }
{
    (&text[..place], &text[place + 1..])
}

/// What stands before the last of these bytes, and what stands after it.
pub fn cut_last(byte: u8, text: &[u8]) -> Option<(&[u8], &[u8])>
    ensures { option_map (λ x. (x.0.now, x.1.now)) result ≡ piece.cut_last byte text.now }
{
    match memrchr(byte, text) {
        Some(place) => Some(cut_at(text, place)),
        None => None,
    }
}
