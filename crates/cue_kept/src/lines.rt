//! The lines of a text, and what each says.
ghost use Rattle.std.specs.Prelude.{◌≡◌, ◌<◌, ◌+◌, codes, decimal, drop, find, length, nat_eq, take};
ghost use Rattle.std.specs.Cmp.Lexicographic.{pointwise};
ghost use Rattle.std.specs.Option.{option_map};
ghost use Rattle.cue_log_lines.specs.Pieces as piece;
ghost use Rattle.cue_words.specs.Answered.{outcome_words, reason_words};
ghost use Rattle.cue_kept.specs.Reading as spec;

use crate::{MOST, VERSION};
use cue_exchange::{Outcome, Reason};
use cue_show::{CueNo, DeviceNo};
use cue_words::{outcome_words, reason_words};
use itoa::Buffer;
use memchr::memchr;

// What a place cuts a text into, without the byte there.
fn cut_at(text: &[u8], place: usize) -> (&[u8], &[u8])
    requires { place < length text.now }
    ensures front { result.0.now ≡ take place text.now }
    ensures rest { result.1.now ≡ drop (place + 1) text.now }
{
    (&text[..place], &text[place + 1..])
}

// The first line without its line feed, and what follows it.
fn line_in(text: &[u8]) -> Option<(&[u8], &[u8])>
    ensures { option_map (λ x. (x.0.now, x.1.now)) result ≡ spec.line_at text.now }
{
    match memchr(b'\n', text) {
        Some(place) => Some(cut_at(text, place)),
        None => None,
    }
}

// What follows these words at the front of a line.
#[tactic(auto, unfolding(cue_log_lines::specs::Pieces::after))]
fn after<'a>(words: &[u8], line: &'a [u8]) -> Option<&'a [u8]>
    ensures { option_map (λ x. x.now) result ≡ piece.after words.now line.now }
{
    line.strip_prefix(words)
}

// What the first line says after these words, and what follows the line.
#[tactic(auto, unfolding(crate::specs::Reading::said_at))]
fn said_in<'a>(words: &[u8], text: &'a [u8]) -> Option<(&'a [u8], &'a [u8])>
    ensures { option_map (λ x. (x.0.now, x.1.now)) result ≡ spec.said_at words.now text.now }
{
    let (line, rest) = line_in(text)?;
    let said = after(words, line)?;
    Some((said, rest))
}

// A number with one digit more, up to the largest that there is.
fn next_number(sum: u64, byte: u8) -> u64
    ensures { result ≡ piece.next_number sum byte }
{
    sum.saturating_mul(10)
        .saturating_add(u64::from(byte.saturating_sub(b'0')))
}

// The number that digits are, up to the largest that there is.
fn number_of(digits: &[u8]) -> u64
    ensures { result ≡ piece.number_of digits.now }
{
    digits
        .iter()
        .fold(0, |sum: u64, byte| next_number(sum, *byte))
}

// A number that fits into 32 bits.
fn word_of(number: u64) -> Option<u32>
    ensures { result ≡ piece.below 4294967296 number }
{
    u32::try_from(number).ok()
}

// Whether these are the digits that are written of a number.
fn is_written(number: u32, said: &[u8]) -> bool
    ensures { result ≡ pointwise nat_eq (decimal number) said.now }
{
    let mut buffer = Buffer::new();
    buffer.format(number).as_bytes() == said
}

// The number that is said, in the digits that are written of it.
#[tactic(auto, unfolding(crate::specs::Reading::number))]
fn number_said(said: &[u8]) -> Option<u32>
    ensures { result ≡ spec.number said.now }
{
    let number = word_of(number_of(said))?;
    if is_written(number, said) {
        Some(number)
    } else {
        None
    }
}

// The count that is said, if it is not more than a desk keeps.
#[tactic(auto, unfolding(crate::specs::Reading::few))]
fn few_said(said: &[u8]) -> Option<u32>
    ensures { result ≡ spec.few said.now }
{
    let count = number_said(said)?;
    if count <= MOST { Some(count) } else { None }
}

// The version that is said, if it is this one.
#[tactic(auto, unfolding(crate::specs::Reading::version))]
fn version_said(said: &[u8]) -> Option<u32>
    ensures { result ≡ spec.version said.now }
{
    let version = number_said(said)?;
    if version == VERSION {
        Some(version)
    } else {
        None
    }
}

// A number that fits into a byte.
fn byte_of(number: u32) -> Option<u8>
    ensures { result ≡ piece.below 256 number }
{
    u8::try_from(number).ok()
}

// The device that is said.
#[tactic(auto, unfolding(crate::specs::Reading::device))]
fn device_said(said: &[u8]) -> Option<DeviceNo>
    ensures { result ≡ spec.device said.now }
{
    let number = number_said(said)?;
    DeviceNo::of_byte(byte_of(number)?)
}

// Whether it is said that there is none.
fn is_none(said: &[u8]) -> bool
    ensures { result ≡ pointwise nat_eq said.now (codes "none") }
{
    said == b"none".as_slice()
}

// The cue that is said, or that nobody knows it.
#[tactic(auto, unfolding(crate::specs::Reading::cue))]
fn cue_said(said: &[u8]) -> Option<Option<CueNo>>
    ensures { result ≡ spec.cue said.now }
{
    match CueNo::read(said) {
        Some(cue) => Some(Some(cue)),
        None if is_none(said) => Some(None),
        None => None,
    }
}

/// How attempts end.
const OUTCOMES: [Outcome; 3] = [Outcome::Complete, Outcome::Cancelled, Outcome::Failed];

// Which of these outcomes is said.
fn outcome_among(outcomes: &[Outcome], said: &[u8]) -> Option<Outcome>
    ensures { result ≡ find (λ o. pointwise nat_eq said.now (outcome_words o)) outcomes.now }
{
    outcomes
        .iter()
        .copied()
        .find(|outcome| said == outcome_words(*outcome).as_bytes())
}

// How an attempt ended, as it is said.
fn outcome_said(said: &[u8]) -> Option<Outcome>
    ensures { result ≡ spec.ending said.now }
{
    outcome_among(&OUTCOMES, said)
}

/// Why preparations are given up.
const REASONS: [Reason; 5] = [
    Reason::Operator,
    Reason::Deadline,
    Reason::Abort,
    Reason::Power,
    Reason::Release,
];

// Which of these reasons is said.
fn reason_among(reasons: &[Reason], said: &[u8]) -> Option<Reason>
    ensures { result ≡ find (λ r. pointwise nat_eq said.now (reason_words r)) reasons.now }
{
    reasons
        .iter()
        .copied()
        .find(|reason| said == reason_words(*reason).as_bytes())
}

// The reason that is said, or that there is none.
#[tactic(auto, unfolding(crate::specs::Reading::why))]
fn reason_said(said: &[u8]) -> Option<Option<Reason>>
    ensures { result ≡ spec.why said.now }
{
    if is_none(said) {
        return Some(None);
    }
    let reason = reason_among(&REASONS, said)?;
    Some(Some(reason))
}

/// The number after these words, and what follows its line.
#[tactic(auto, unfolding(crate::specs::Reading::value_at))]
pub fn number_in<'a>(words: &[u8], text: &'a [u8]) -> Option<(u32, &'a [u8])>
    ensures { option_map (λ x. (x.0, x.1.now)) result ≡ spec.value_at spec.number words.now text.now }
{
    let (said, rest) = said_in(words, text)?;
    let number = number_said(said)?;
    Some((number, rest))
}

/// The count after these words, if it is not more than a desk keeps, and what follows its line.
#[tactic(auto, unfolding(crate::specs::Reading::value_at))]
pub fn count_in<'a>(words: &[u8], text: &'a [u8]) -> Option<(u32, &'a [u8])>
    ensures { option_map (λ x. (x.0, x.1.now)) result ≡ spec.value_at spec.few words.now text.now }
{
    let (said, rest) = said_in(words, text)?;
    let count = few_said(said)?;
    Some((count, rest))
}

/// The version, if it is this one, and what follows its line.
#[tactic(auto, unfolding(crate::specs::Reading::value_at))]
pub fn version_in(text: &[u8]) -> Option<(u32, &[u8])>
    ensures { option_map (λ x. (x.0, x.1.now)) result ≡ spec.value_at spec.version (codes "alarms ") text.now }
{
    let (said, rest) = said_in(b"alarms ", text)?;
    let version = version_said(said)?;
    Some((version, rest))
}

/// The attempt of the first line, and what follows it.
pub fn attempt_in(text: &[u8]) -> Option<(u32, &[u8])>
    ensures { option_map (λ x. (x.0, x.1.now)) result ≡ spec.attempt_at text.now }
{
    number_in(b"attempt ", text)
}

/// The device of the first line, and what follows it.
#[tactic(auto, unfolding(crate::specs::Reading::value_at))]
pub fn device_in(text: &[u8]) -> Option<(DeviceNo, &[u8])>
    ensures { option_map (λ x. (x.0, x.1.now)) result ≡ spec.device_at text.now }
{
    let (said, rest) = said_in(b"device ", text)?;
    let device = device_said(said)?;
    Some((device, rest))
}

/// The cue of the first line, and what follows it.
#[tactic(auto, unfolding(crate::specs::Reading::value_at))]
pub fn cue_in(text: &[u8]) -> Option<(Option<CueNo>, &[u8])>
    ensures { option_map (λ x. (x.0, x.1.now)) result ≡ spec.value_at spec.cue (codes "cue ") text.now }
{
    let (said, rest) = said_in(b"cue ", text)?;
    let cue = cue_said(said)?;
    Some((cue, rest))
}

/// How an attempt ended, by the first line, and what follows it.
#[tactic(auto, unfolding(crate::specs::Reading::value_at))]
pub fn outcome_in(text: &[u8]) -> Option<(Outcome, &[u8])>
    ensures { option_map (λ x. (x.0, x.1.now)) result ≡ spec.value_at spec.ending (codes "outcome ") text.now }
{
    let (said, rest) = said_in(b"outcome ", text)?;
    let outcome = outcome_said(said)?;
    Some((outcome, rest))
}

/// Why a preparation was given up, by the first line, and what follows it.
#[tactic(auto, unfolding(crate::specs::Reading::value_at))]
pub fn reason_in(text: &[u8]) -> Option<(Option<Reason>, &[u8])>
    ensures { option_map (λ x. (x.0, x.1.now)) result ≡ spec.value_at spec.why (codes "reason ") text.now }
{
    let (said, rest) = said_in(b"reason ", text)?;
    let reason = reason_said(said)?;
    Some((reason, rest))
}
