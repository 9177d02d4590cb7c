//! A whole pattern: read from bytes, and matched with addresses.

ghost use Rattle.std.specs.Prelude.{◌≡◌, ◌↔◌, ◌≤◌, ◌==◌, ℕ, count_by, List, IsTrue, IfOk, IsOk, MatchResult, Some};
ghost use Rattle.std.specs.Prelude.{None, length};
ghost use Rattle.std.specs.List.{list_all};
ghost use Rattle.std.specs.Option.{option_copied, option_map};
ghost use Rattle.cue_pattern.specs.Bytes.{slash};
ghost use Rattle.cue_pattern.specs.Reading.{cut, parts_of, pattern_at};
ghost use Rattle.cue_pattern.specs.Steps.{left_len};

use crate::cut::cut_first;
use crate::fault::Fault;
use crate::piece::Part;
use crate::token::count_pieces;
use std::alloc::{AllocError, Global};
use std::marker::Model;

/// An OSC address pattern. It keeps the allocator that it was read with.
#[derive(Debug, Drop)]
pub struct Pattern {
    parts: Vec<Part>,
}

impl Model for Pattern {
    ghost use Rattle.std.specs.Prelude.{List};
    ghost use Rattle.cue_pattern.specs.declared.piece.Piece.{Piece};

    ghost Value = { List (List Piece) };

    ghost view = { λ p. p.parts.items };
}

/// What stands after the slash that begins an address or a pattern.
fn after_slash(bytes: &[u8]) -> Option<&[u8]>
    ensures parts { parts_of bytes.now ≡ option_map (cut slash) (option_copied result) }
    ensures shorter { left_len (option_copied result) ≤ length bytes.now }
{
    match bytes {
        [b'/', rest @ ..] => Some(rest),
        _ => None,
    }
}

/// How many parts a pattern has; `None` if the bytes are no pattern. No memory is needed for it.
fn count_parts(bytes: &[u8]) -> Option<usize>
    ensures { result ≡ option_map length (pattern_at bytes.now) }
{
    let first = after_slash(bytes)?;
    let mut count = 0;
    let mut left = Some(first);
    while let Some(rest) = left {
        let (text, behind) = cut_first(b'/', rest);
        count_pieces(text)?;
        count += 1;
        left = behind;
    }
    Some(count)
}

fn count_slashes(rest: &[u8]) -> usize
    ensures count { result ≡ count_by (λ b. b == slash) rest.now }
    ensures few { result ≤ length rest.now }
{
    rest.iter().filter(|b| **b == b'/').count()
}

/// How many texts stand between the slashes.
fn count_texts(rest: &[u8]) -> usize
    ensures { result ≡ length (cut slash rest.now) }
{
    count_slashes(rest) + 1
}

impl Pattern {
    ghost use Rattle.cue_pattern.specs.declared.piece.Piece.{Piece};
    ghost use Rattle.cue_pattern.specs.Meaning.{Denotes};
    ghost use Rattle.cue_pattern.specs.Grammar.{IsPattern};
    ghost use Rattle.cue_pattern.specs.Matching.{parts_match, matches};
    ghost use Rattle.cue_pattern.specs.Short.{is_short, are_short};

    /// Reads the address of a message as a pattern. An address without special bytes is a pattern
    /// too, which matches itself alone. Bad bytes are told apart from a refused allocation in every case.
    pub fn read(alloc: Global, bytes: &[u8]) -> Result<Pattern, Fault>
        // What is read is what the bytes spell.
        ensures found { IfOk result (λ p. IsPattern bytes.now p) }
        // What the bytes spell is read, unless memory runs out.
        ensures only { (p : List (List Piece)) → IsPattern bytes.now p
            → MatchResult result (λ q. q ≡ p) (λ e. e ≡ Fault.Memory) }
        // Bytes that spell no pattern are refused as such, and no others.
        ensures refused { (result ≡ Err Fault.BadPattern)
            ↔ ((p : List (List Piece)) → ¬ IsPattern bytes.now p) }

        // The same by a function that computes, for the layers above.
        ensures exact { IfOk result (λ p. pattern_at bytes.now ≡ Some p) }
        ensures bad { (result ≡ Err Fault.BadPattern) ↔ (pattern_at bytes.now ≡ None) }
    {
        let Some(count) = count_parts(bytes) else {
            return Err(Fault::BadPattern);
        };
        Pattern::read_parts(alloc, count, bytes)
    }

    /// The parts, with room for so many taken at once.
    fn read_parts(alloc: Global, count: usize, bytes: &[u8]) -> Result<Pattern, Fault>
        ensures found { IfOk result (λ p. pattern_at bytes.now ≡ Some p) }
        ensures bad { result ≡ Err Fault.BadPattern → pattern_at bytes.now ≡ None }
    {
        let Some(first) = after_slash(bytes) else {
            return Err(Fault::BadPattern);
        };
        let mut parts = Vec::with_capacity(alloc, count)?;
        let mut left = Some(first);
        while let Some(rest) = left {
            let (text, behind) = cut_first(b'/', rest);
            parts.push(Part::read(alloc, text)?)?;
            left = behind;
        }
        Ok(Pattern { parts })
    }

    /// The parts, in order.
    pub fn parts(&self) -> &[Part]
        ensures { result.now ≡ self.now }
    {
        self.parts.as_slice()
    }

    /// Whether the pattern matches an address. Bytes that do not begin with `/` are no address, and
    /// are never matched. The time is bounded by the number of pieces times the length of the
    /// address; memory is asked for only by parts of the address that are not short.
    pub fn matches(&self, address: &[u8]) -> Result<bool, AllocError>
        // The answer is whether the pattern denotes the address.
        ensures denotes { IfOk result (λ b. IsTrue b ↔ Denotes self.now address.now) }

        // The same by a function that computes, for the layers above.
        ensures exact { IfOk result (λ b. b ≡ matches self.now address.now) }
        // If each part of the address is short, no memory is asked for.
        ensures short { IsTrue (are_short (parts_of address.now)) → IsOk result }
    {
        let Some(first) = after_slash(address) else {
            return Ok(false);
        };
        if count_texts(first) != self.parts().len() {
            return Ok(false);
        }
        self.match_parts(first)
    }

    /// Whether the parts match what follows the first slash of an address, as many of the one as of
    /// the other.
    fn match_parts(&self, rest: &[u8]) -> Result<bool, AllocError>
        ensures exact { IfOk result (λ b. b ≡ parts_match self.now (cut slash rest.now)) }
        ensures short { IsTrue (list_all is_short (cut slash rest.now)) → IsOk result }
    {
        let mut left = Some(rest);
        for part in &self.parts {
            let Some(rest) = left else {
                return Ok(false);
            };
            let (text, next) = cut_first(b'/', rest);
            if !part.matches(text)? {
                return Ok(false);
            }
            left = next;
        }
        Ok(left.is_none())
    }
}
