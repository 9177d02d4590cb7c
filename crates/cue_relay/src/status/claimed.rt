//! What the lines may say that a device told of itself.
ghost use Rattle.std.specs.Prelude.{◌≡◌, pos};
ghost use Rattle.std.specs.Option.{option_map};
ghost use Rattle.cue_relay.specs.Pieces as piece;
ghost use Rattle.cue_relay.specs.Reading as spec;

use crate::claims::{Claims, MAX_UNIT, MAX_WORDS, Position, Reason, Words};
use crate::pieces::{after, line_in, number_after, number_in, word_after};
use cue_show::ShortBytes;

// The rest of a line, of so many bytes at most, and what follows its line feed.
#[tactic(auto, unfolding(crate::specs::Reading::rest_at))]
fn rest_in<const N: usize>(text: &[u8]) -> Option<(ShortBytes<N>, &[u8])>
    ensures { option_map (λ x. (x.0, x.1.now)) result ≡ spec.rest_at N text.now }
{
    let (line, more) = line_in(text);
    let said = ShortBytes::read(line)?;
    let rest = after(b"\n", more)?;
    Some((said, rest))
}

// Why it aborted an attempt.
#[tactic(auto, unfolding(crate::specs::Reading::why_said))]
fn reason_in(text: &[u8]) -> Option<(Reason, &[u8])>
    ensures { option_map (λ x. (x.0, x.1.now)) result ≡ spec.why_said text.now }
{
    let (seq, rest) = word_after(b"why ", text)?;
    match rest_in::<MAX_WORDS>(after(b" ", rest)?) {
        Some((words, rest)) => Some((Reason { seq, words }, rest)),
        None => None,
    }
}

// The number of 32 bits below 0 that this is without its sign.
fn negative(number: u64) -> Option<i32>
    ensures { result ≡ option_map spec.negative (piece.below 2147483649 number) }
{
    if number > 2_147_483_648 {
        return None;
    }
    i32::try_from(-(number as i64)).ok()
}

// A number below 0, after its sign.
#[tactic(auto, unfolding(crate::specs::Reading::below_zero))]
fn below_zero(text: &[u8]) -> Option<(i32, &[u8])>
    ensures { option_map (λ x. (x.0, x.1.now)) result ≡ spec.below_zero text.now }
{
    let (number, rest) = number_after(b"-", text)?;
    let number = negative(number)?;
    Some((number, rest))
}

// A number of 32 bits that is not below 0.
fn positive(number: u64) -> Option<i32>
    ensures { result ≡ option_map pos (piece.below 2147483648 number) }
{
    i32::try_from(number).ok()
}

// A number that is not below 0.
#[tactic(auto, unfolding(crate::specs::Reading::from_zero))]
fn from_zero(text: &[u8]) -> Option<(i32, &[u8])>
    ensures { option_map (λ x. (x.0, x.1.now)) result ≡ spec.from_zero text.now }
{
    let (number, rest) = number_in(text);
    let number = positive(number)?;
    Some((number, rest))
}

// A number after a space that may be negative.
#[tactic(auto, unfolding(crate::specs::Reading::measure_after))]
fn measure_after<'a>(words: &[u8], text: &'a [u8]) -> Option<(i32, &'a [u8])>
    ensures { option_map (λ x. (x.0, x.1.now)) result ≡ spec.measure_after words.now text.now }
{
    let rest = after(words, text)?;
    match below_zero(rest) {
        Some(found) => Some(found),
        None => from_zero(rest),
    }
}

// Where it was, and where it went.
#[tactic(auto, unfolding(crate::specs::Reading::measures_at))]
fn measures_in(text: &[u8]) -> Option<((i32, i32), &[u8])>
    ensures { option_map (λ x. (x.0, x.1.now)) result ≡ spec.measures_at text.now }
{
    let (at, rest) = measure_after(b" ", text)?;
    let (goal, rest) = measure_after(b" ", rest)?;
    Some(((at, goal), rest))
}

// Where it was and where it went, and the unit of both.
#[tactic(auto, unfolding(crate::specs::Reading::place_said))]
fn position_in(text: &[u8]) -> Option<(Position, &[u8])>
    ensures { option_map (λ x. (x.0, x.1.now)) result ≡ spec.place_said text.now }
{
    let (told, rest) = number_after(b"at ", text)?;
    let ((at, goal), rest) = measures_in(rest)?;
    let Some((unit, rest)) = rest_in::<MAX_UNIT>(after(b" ", rest)?) else {
        return None;
    };
    let position = Position {
        told,
        at,
        goal,
        unit,
    };
    Some((position, rest))
}

// Who made it.
#[tactic(auto, unfolding(crate::specs::Reading::who_said))]
fn identity_in(text: &[u8]) -> Option<(Words, &[u8])>
    ensures { option_map (λ x. (x.0, x.1.now)) result ≡ spec.who_said text.now }
{
    rest_in::<MAX_WORDS>(after(b"who ", text)?)
}

// Why it aborted an attempt, if it told so.
fn any_reason_in(text: &[u8]) -> (Option<Reason>, &[u8])
    ensures { (result.0, result.1.now) ≡ piece.if_there (spec.why_said text.now) text.now }
{
    match reason_in(text) {
        Some((reason, rest)) => (Some(reason), rest),
        None => (None, text),
    }
}

// Where it was, if it told so.
fn any_position_in(text: &[u8]) -> (Option<Position>, &[u8])
    ensures { (result.0, result.1.now) ≡ piece.if_there (spec.place_said text.now) text.now }
{
    match position_in(text) {
        Some((position, rest)) => (Some(position), rest),
        None => (None, text),
    }
}

// Who made it, if it told so.
fn any_identity_in(text: &[u8]) -> (Option<Words>, &[u8])
    ensures { (result.0, result.1.now) ≡ piece.if_there (spec.who_said text.now) text.now }
{
    match identity_in(text) {
        Some((words, rest)) => (Some(words), rest),
        None => (None, text),
    }
}

/// What it told of itself, and what follows those lines.
#[tactic(auto, unfolding(crate::specs::Reading::claims_at))]
pub fn claims_in(text: &[u8]) -> (Claims, &[u8])
    ensures { (result.0, result.1.now) ≡ spec.claims_at text.now }
{
    let (reason, rest) = any_reason_in(text);
    let (position, rest) = any_position_in(rest);
    let (identity, rest) = any_identity_in(rest);
    let claims = Claims {
        reason,
        position,
        identity,
    };
    (claims, rest)
}
