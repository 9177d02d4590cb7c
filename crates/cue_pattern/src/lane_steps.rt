//! The steps of `positions` for names side by side: a row has a word for each position, and a word a bit for each name.

ghost use Rattle.std.specs.Prelude.{◌≡◌, ◌<◌, ◌||◌, ◌==◌, ℕ, Bool, List, length};
ghost use Rattle.std.specs.List.{list_all};
ghost use Rattle.cue_pattern.specs.Matching.{after_any, after_byte, after_text, after_texts, after_piece};
ghost use Rattle.cue_pattern.specs.Lanes.{Marks, Stands, Reaches};

use crate::lanes::Lanes;
use crate::limits::ROWS;
use crate::piece::Piece;
use crate::texts::{Text, Texts};

/// A single byte: from here, if the name is in the row here and the rest matches from the next position.
fn step_row(row: &[u64; ROWS], reached: &mut [u64; ROWS])
    ensures { (j : ℕ) (text : List ℕ) (test : ℕ → Bool) (rest : List ℕ → Bool) → length text < ROWS
        → Marks test text j row.now → Reaches rest text j reached.old
        → Reaches (after_byte test rest) text j reached.new }
{
    for k in 0..ROWS - 1 {
        reached[k] = row[k] & reached[k + 1];
    }
    reached[ROWS - 1] = 0;
}

/// Any text: from here, if the rest matches from here or from a later position.
fn step_many(reached: &mut [u64; ROWS])
    ensures { (j : ℕ) (text : List ℕ) (rest : List ℕ → Bool) → length text < ROWS
        → Reaches rest text j reached.old → Reaches (after_any rest) text j reached.new }
{
    let mut k = ROWS - 1;
    while k > 0 {
        k -= 1;
        reached[k] |= reached[k + 1];
    }
}

/// One text, byte by byte from its end.
fn step_text(text: &Text, lanes: &Lanes, reached: &mut [u64; ROWS])
    ensures { (j : ℕ) (name : List ℕ) (rest : List ℕ → Bool) → Stands lanes.now j name
        → Reaches rest name j reached.old → Reaches (after_text text.now rest) name j reached.new }
{
    let mut left = text.bytes();
    while let [before @ .., last] = left {
        step_row(&lanes.with_byte(*last), reached);
        left = before;
    }
}

/// What either reaches.
fn join(reached: &mut [u64; ROWS], other: &[u64; ROWS])
    ensures { (j : ℕ) (name : List ℕ) (f g : List ℕ → Bool) → length name < ROWS → Reaches f name j reached.old
        → Reaches g name j other.now → Reaches (λ t. f t || g t) name j reached.new }
{
    for k in 0..ROWS {
        reached[k] |= other[k];
    }
}

/// One of some texts: from here, where one stands here and the rest matches from where that one ends.
fn step_texts(texts: &Texts, lanes: &Lanes, behind: &[u64; ROWS]) -> [u64; ROWS]
    ensures { (j : ℕ) (name : List ℕ) (rest : List ℕ → Bool) → Stands lanes.now j name
        → Reaches rest name j behind.now → Reaches (after_texts texts.now rest) name j result }
{
    let mut reached = [0; ROWS];
    for text in texts.items() {
        let mut by_text = *behind;
        step_text(text, lanes, &mut by_text);
        join(&mut reached, &by_text);
    }
    reached
}

/// One more piece in front of those whose set this is.
fn step_some(piece: &Piece, lanes: &Lanes, reached: &mut [u64; ROWS])
    ensures { (j : ℕ) (name : List ℕ) (rest : List ℕ → Bool) → Stands lanes.now j name
        → Reaches rest name j reached.old → Reaches (after_piece piece.now rest) name j reached.new }
{
    match piece {
        Piece::Many => step_many(reached),
        Piece::Among(texts) => *reached = step_texts(texts, lanes, reached),
        Piece::One | Piece::Listed(_) | Piece::Unlisted(_) | Piece::Plain(_) => {
            step_row(&lanes.taken(piece), reached)
        }
    }
}

/// Whether no name is reached at any position.
fn is_nowhere(reached: &[u64; ROWS]) -> bool
    ensures { result ≡ list_all (λ word. word == 0) reached.now }
{
    reached.iter().all(|word| *word == 0)
}

/// The same; where nothing is reached no more will be, which takes next to no time.
pub(crate) fn step(piece: &Piece, lanes: &Lanes, reached: &mut [u64; ROWS])
    ensures { (j : ℕ) (name : List ℕ) (rest : List ℕ → Bool) → Stands lanes.now j name
        → Reaches rest name j reached.old → Reaches (after_piece piece.now rest) name j reached.new }
{
    if !is_nowhere(reached) {
        step_some(piece, lanes, reached);
    }
}
