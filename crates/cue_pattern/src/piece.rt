//! What a pattern is made of: parts, and in a part its pieces in a row.

ghost use Rattle.std.specs.Prelude.{◌≡◌, ◌<◌, ◌≤◌, length, IfOk, IsOk, Some, None};
ghost use Rattle.std.specs.Option.{option_map};
ghost use Rattle.cue_pattern.specs.Reading.{pieces_after};

use crate::fault::Fault;
use crate::limits::MAX_SHORT;
use crate::positions;
use crate::ranges::Ranges;
use crate::texts::Texts;
use crate::token::{Token, count_pieces, token_at};
use std::alloc::{AllocError, Global};
use std::marker::Model;

/// One piece of a part. It stands for a set of texts.
#[derive(Debug, Drop)]
pub enum Piece {
    /// `?`: any one byte.
    One,
    /// `*`: any text, also the empty one.
    Many,
    /// `[a-cx]`: one byte of the ranges.
    Listed(Ranges),
    /// `[!a-cx]`: one byte of none of the ranges.
    Unlisted(Ranges),
    /// `{ab,c}`: one of the texts.
    Among(Texts),
    /// Any other byte: itself.
    Plain(u8),
}

impl Piece {
    ghost use Rattle.cue_pattern.specs.Matching.{takes};
    ghost use Rattle.cue_pattern.specs.Steps.{piece_of};

    fn read(alloc: Global, token: Token<'_>) -> Result<Piece, AllocError>
        ensures { IfOk result (λ p. p ≡ piece_of token.entry) }
    {
        match token {
            Token::One => Ok(Piece::One),
            Token::Many => Ok(Piece::Many),
            Token::Listed(inside) => Ok(Piece::Listed(Ranges::read(alloc, inside)?)),
            Token::Unlisted(inside) => Ok(Piece::Unlisted(Ranges::read(alloc, inside)?)),
            Token::Among(inside) => Ok(Piece::Among(Texts::read(alloc, inside)?)),
            Token::Plain(b) => Ok(Piece::Plain(b)),
        }
    }

    /// Whether the piece stands for single bytes, and for this one.
    pub(crate) fn takes(&self, b: u8) -> bool
        ensures { result ≡ takes self.now b }
    {
        match self {
            Piece::One => true,
            Piece::Listed(ranges) => ranges.contains(b),
            Piece::Unlisted(ranges) => !ranges.contains(b),
            Piece::Plain(c) => b == *c,
            Piece::Many | Piece::Among(_) => false,
        }
    }
}

/// What stands between two slashes of a pattern: pieces in a row.
#[derive(Debug, Drop)]
pub struct Part {
    pieces: Vec<Piece>,
}

impl Model for Part {
    ghost use Rattle.std.specs.Prelude.{List};
    ghost use Rattle.cue_pattern.specs.declared.piece.Piece.{Piece};

    ghost Value = { List Piece };

    ghost view = { λ p. p.pieces.items };
}

impl Part {
    ghost use Rattle.cue_pattern.specs.Matching.{part_matches};

    pub(crate) fn read(alloc: Global, text: &[u8]) -> Result<Part, Fault>
        ensures found { IfOk result (λ p. pieces_after 0 text.now ≡ Some p) }
        ensures bad { result ≡ Err Fault.BadPattern → pieces_after 0 text.now ≡ None }
    {
        let Some(count) = count_pieces(text) else {
            return Err(Fault::BadPattern);
        };
        let mut pieces = Vec::with_capacity(alloc, count)?;
        let mut rest = text;
        while let [first, behind @ ..] = rest {
            let Some((token, after)) = token_at(*first, behind) else {
                return Err(Fault::BadPattern);
            };
            pieces.push(Piece::read(alloc, token)?)?;
            rest = after;
        }
        Ok(Part { pieces })
    }

    pub(crate) fn pieces(&self) -> &[Piece]
        ensures { result.now ≡ self.now }
    {
        self.pieces.as_slice()
    }

    /// Whether the part matches a text between two slashes of an address. A text of up to `MAX_SHORT`
    /// bytes takes no memory, a longer one takes it once.
    pub fn matches(&self, text: &[u8]) -> Result<bool, AllocError>
        ensures exact { IfOk result (λ b. b ≡ part_matches self.now text.now) }
        ensures short { length text.now ≤ MAX_SHORT → IsOk result }
    {
        if text.len() <= MAX_SHORT {
            return Ok(self.matches_short(text));
        }
        let alloc = *self.pieces.allocator();
        let mut reached = vec![in alloc; false; text.len() + 1]?;
        Ok(self.matches_by(text, reached.as_mut_slice()))
    }

    /// Whether the part matches a short text. This takes no memory.
    pub fn matches_short(&self, text: &[u8]) -> bool
        requires { length text.now ≤ MAX_SHORT }
        ensures { result ≡ part_matches self.now text.now }
    {
        let mut reached = [false; MAX_SHORT + 1];
        self.matches_by(text, &mut reached)
    }

    /// Whether the part matches the text. What `reached` holds does not matter, it is room to work in.
    fn matches_by(&self, text: &[u8], reached: &mut [bool]) -> bool
        requires { length text.now < length reached.old }
        ensures { result ≡ part_matches self.now text.now }
    {
        positions::start_at_end(text, reached);
        let mut rest = self.pieces.as_slice();
        while let [before @ .., last] = rest {
            positions::step(last, text, reached);
            rest = before;
        }
        reached[0]
    }
}
