//! The next piece of a part as it is spelled, without memory of its own.

ghost use Rattle.std.specs.Prelude.{◌≡◌, MatchOption, None, length};
ghost use Rattle.std.specs.List.{list_all};
ghost use Rattle.std.specs.Option.{option_map};
ghost use Rattle.cue_pattern.specs.Bytes.{close_bracket, close_brace};
ghost use Rattle.cue_pattern.specs.Reading.{piece_at, bracketed_piece, braced_piece, piece_between, text_before};
ghost use Rattle.cue_pattern.specs.Reading.{is_braced, pieces_after};
ghost use Rattle.cue_pattern.specs.Steps.{Reads, piece_of};

use crate::cut::cut_first;

/// A piece whose ranges and texts still lie in the pattern's bytes.
#[derive(Clone, Copy)]
pub(crate) enum Token<'a> {
    One,
    Many,
    Listed(&'a [u8]),
    Unlisted(&'a [u8]),
    Among(&'a [u8]),
    Plain(u8),
}

fn is_braced(b: u8) -> bool
    ensures { result ≡ is_braced b }
{
    !matches!(b, b'[' | b']' | b'{' | b'}' | b'*' | b'?')
}

fn is_all_braced(inside: &[u8]) -> bool
    ensures { result ≡ list_all is_braced inside.now }
{
    inside.iter().all(|b| is_braced(*b))
}

/// The piece that begins with a `[`, of which `behind` follows it.
fn bracket_at(behind: &[u8]) -> Option<(Token<'_>, &[u8])>
    ensures { MatchOption result (piece_between bracketed_piece (text_before close_bracket behind.now) ≡ None)
        (λ r. Reads (piece_between bracketed_piece (text_before close_bracket behind.now))
        behind.now (piece_of r.0) r.1.now) }
{
    let (inside, rest) = cut_first(b']', behind);
    let rest = rest?;
    match inside {
        [] | [b'!'] => None,
        [b'!', listed @ ..] => Some((Token::Unlisted(listed), rest)),
        [_, ..] => Some((Token::Listed(inside), rest)),
    }
}

/// The piece that begins with a `{`, of which `behind` follows it.
fn brace_at(behind: &[u8]) -> Option<(Token<'_>, &[u8])>
    ensures { MatchOption result (piece_between braced_piece (text_before close_brace behind.now) ≡ None)
        (λ r. Reads (piece_between braced_piece (text_before close_brace behind.now))
        behind.now (piece_of r.0) r.1.now) }
{
    let (inside, rest) = cut_first(b'}', behind);
    let rest = rest?;
    if is_all_braced(inside) {
        Some((Token::Among(inside), rest))
    } else {
        None
    }
}

/// The piece that begins with this byte, and what follows the piece; `None` if brackets or braces
/// are badly written.
#[tactic(auto, unfolding(crate::specs::Reading::piece_at))]
pub(crate) fn token_at(first: u8, behind: &[u8]) -> Option<(Token<'_>, &[u8])>
    ensures { MatchOption result (piece_at first behind.now ≡ None)
        (λ r. Reads (piece_at first behind.now) behind.now (piece_of r.0) r.1.now) }
{
    match first {
        b'?' => Some((Token::One, behind)),
        b'*' => Some((Token::Many, behind)),
        b'[' => bracket_at(behind),
        b'{' => brace_at(behind),
        _ => Some((Token::Plain(first), behind)),
    }
}

/// How many pieces a part has; `None` if it is badly written.
pub(crate) fn count_pieces(text: &[u8]) -> Option<usize>
    ensures { result ≡ option_map length (pieces_after 0 text.now) }
{
    let mut count = 0;
    let mut rest = text;
    while let [first, behind @ ..] = rest {
        let (_, after) = token_at(*first, behind)?;
        count += 1;
        rest = after;
    }
    Some(count)
}
