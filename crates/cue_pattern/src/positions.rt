//! The set of positions of a text from which the last pieces of a part match the rest of it, as one
//! mark for each position. Each piece in turn, from the last to the first, moves the set once along
//! the text, in place.

ghost use Rattle.std.specs.Prelude.{ℕ, Bool, List, ◌<◌, length};
ghost use Rattle.cue_pattern.specs.Reading.{cut};
ghost use Rattle.cue_pattern.specs.Matching.{takes, is_empty_text, after_any, after_byte, after_texts, after_piece};
ghost use Rattle.cue_pattern.specs.Steps.{Tells};

use crate::piece::Piece;
use crate::texts::Texts;

/// Before any piece only the end is reached.
pub(crate) fn start_at_end(text: &[u8], reached: &mut [bool])
    requires { length text.now < length reached.old }
    ensures { Tells is_empty_text text.now reached.new }
{
    for i in 0..text.len() {
        reached[i] = false;
    }
    reached[text.len()] = true;
}

/// A piece that stands for single bytes: from here, if it takes the byte here and the rest matches
/// from the next position.
fn step_byte(piece: &Piece, text: &[u8], reached: &mut [bool])
    requires { length text.now < length reached.old }
    ensures { (rest : List ℕ → Bool) → Tells rest text.now reached.old
        → Tells (after_byte (takes piece.now) rest) text.now reached.new }
{
    for i in 0..text.len() {
        let taken = piece.takes(text[i]);
        reached[i] = taken && reached[i + 1];
    }
    reached[text.len()] = false;
}

/// Any text: from here, if the rest matches from here or from a later position.
fn step_many(text: &[u8], reached: &mut [bool])
    requires { length text.now < length reached.old }
    ensures { (rest : List ℕ → Bool) → Tells rest text.now reached.old
        → Tells (after_any rest) text.now reached.new }
{
    let mut i = text.len();
    while i > 0 {
        i -= 1;
        reached[i] = reached[i] || reached[i + 1];
    }
}

/// One of some texts: from here, where one stands here and the rest matches from where that one ends.
fn step_texts(texts: &Texts, text: &[u8], reached: &mut [bool])
    requires { length text.now < length reached.old }
    ensures { (rest : List ℕ → Bool) → Tells rest text.now reached.old
        → Tells (after_texts texts.now rest) text.now reached.new }
{
    for i in 0..text.len() + 1 {
        reached[i] = texts.lead(&text[i..], &reached[i..]);
    }
}

/// One more piece in front of those whose set this is.
pub(crate) fn step(piece: &Piece, text: &[u8], reached: &mut [bool])
    requires { length text.now < length reached.old }
    ensures { (rest : List ℕ → Bool) → Tells rest text.now reached.old
        → Tells (after_piece piece.now rest) text.now reached.new }
{
    match piece {
        Piece::Many => step_many(text, reached),
        Piece::Among(texts) => step_texts(texts, text, reached),
        Piece::One | Piece::Listed(_) | Piece::Unlisted(_) | Piece::Plain(_) => {
            step_byte(piece, text, reached)
        }
    }
}
