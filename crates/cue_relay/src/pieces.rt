//! Pieces of a text, each found at its front: what it is, and what follows it.
ghost use Rattle.std.specs.Prelude.{◌≡◌, ◌≤◌, not, length, position};
ghost use Rattle.std.specs.Char.{is_ascii_digit};
ghost use Rattle.std.specs.Option.{option_map};
ghost use Rattle.cue_relay.specs.Pieces as piece;

/// What follows these words.
#[tactic(auto, unfolding(crate::specs::Pieces::after))]
pub fn after<'a>(words: &[u8], text: &'a [u8]) -> Option<&'a [u8]>
    ensures { option_map (λ x. x.now) result ≡ piece.after words.now text.now }
{
    text.strip_prefix(words)
}

// The place of the first byte that is no digit, if there is one.
fn first_other(text: &[u8]) -> Option<usize>
    ensures { result ≡ position (λ x. not (is_ascii_digit x)) text.now }
{
    text.iter().position(|x| !x.is_ascii_digit())
}

// How many digits stand at the front.
fn digits_end(text: &[u8]) -> usize
    ensures value { result ≡ piece.end_of is_ascii_digit text.now }
    ensures range { result ≤ length text.now }
{
    first_other(text).unwrap_or(text.len())
}

// A number with one digit more, up to the largest that there is.
fn next_number(sum: u64, byte: u8) -> u64
    ensures { result ≡ piece.next_number sum byte }
{
    sum.saturating_mul(10)
        .saturating_add(u64::from(byte.saturating_sub(b'0')))
}

// The number that digits are, up to the largest that there is.
fn number_of(digits: &[u8]) -> u64
    ensures { result ≡ piece.number_of digits.now }
{
    digits
        .iter()
        .fold(0, |sum: u64, byte| next_number(sum, *byte))
}

/// The number at the front; 0 if no digit stands there.
#[tactic(auto, unfolding(crate::specs::Pieces::number_at))]
pub fn number_in(text: &[u8]) -> (u64, &[u8])
    ensures { (result.0, result.1.now) ≡ piece.number_at text.now }
{
    let end = digits_end(text);
    (number_of(&text[..end]), &text[end..])
}

/// The number after these words.
#[tactic(auto, unfolding(crate::specs::Pieces::number_after))]
pub fn number_after<'a>(words: &[u8], text: &'a [u8]) -> Option<(u64, &'a [u8])>
    ensures { option_map (λ x. (x.0, x.1.now)) result ≡ piece.number_after words.now text.now }
{
    let rest = after(words, text)?;
    Some(number_in(rest))
}

// The place of the first line feed, if there is one.
fn first_feed(text: &[u8]) -> Option<usize>
    ensures { result ≡ position (λ x. not (piece.is_of_line x)) text.now }
{
    text.iter().position(|x| *x == b'\n')
}

// How many bytes stand before the first line feed.
fn line_end(text: &[u8]) -> usize
    ensures value { result ≡ piece.end_of piece.is_of_line text.now }
    ensures range { result ≤ length text.now }
{
    first_feed(text).unwrap_or(text.len())
}

/// The rest of a line, and what follows it, beginning with its line feed.
#[tactic(auto, unfolding(crate::specs::Pieces::line_at))]
pub fn line_in(text: &[u8]) -> (&[u8], &[u8])
    ensures { (result.0.now, result.1.now) ≡ piece.line_at text.now }
{
    let end = line_end(text);
    (&text[..end], &text[end..])
}

/// A number that fits into a byte.
pub fn byte_of(number: u64) -> Option<u8>
    ensures { result ≡ piece.below 256 number }
{
    u8::try_from(number).ok()
}

/// A number that fits into 16 bits.
pub fn short_of(number: u64) -> Option<u16>
    ensures { result ≡ piece.below 65536 number }
{
    u16::try_from(number).ok()
}

// A number that fits into 32 bits.
fn word_of(number: u64) -> Option<u32>
    ensures { result ≡ piece.below 4294967296 number }
{
    u32::try_from(number).ok()
}

/// A number of 32 bits, after these words.
#[tactic(auto, unfolding(crate::specs::Pieces::word_after))]
pub fn word_after<'a>(words: &[u8], text: &'a [u8]) -> Option<(u32, &'a [u8])>
    ensures { option_map (λ x. (x.0, x.1.now)) result ≡ piece.word_after words.now text.now }
{
    let (number, rest) = number_after(words, text)?;
    let word = word_of(number)?;
    Some((word, rest))
}
