//! Short names side by side: a word has a bit for each of up to 64 names. So one step along the positions of a name
//! is made for all of them at once.

ghost use Rattle.std.specs.Prelude.{◌≡◌, ◌≢◌, ◌<◌, ◌≤◌, ◌==◌, ◌+◌, ◌*◌, ℕ, true, List, [], bit_or, length, map, IfSome, slice_index_or};
ghost use Rattle.std.specs.List.{list_all};
ghost use Rattle.cue_pattern.specs.Matching.{takes};
ghost use Rattle.cue_pattern.specs.Lanes.{is_letter, lane, Marks, Stands, IsBlank, SameLane};

use crate::limits::{CELLS, FIRST_LETTER, LANES, LETTERS, ROWS};
use crate::piece::Piece;

/// Where each letter stands in each name, and where each name ends.
#[derive(Clone, Copy)]
pub(crate) struct Lanes {
    /// For each letter the names that have it at each position.
    letters: [u64; CELLS],
    /// The names that end at each position.
    ends: [u64; ROWS],
}

fn is_letter(b: u8) -> bool
    ensures { result ≡ is_letter b }
{
    matches!(b, b'.'..=b'9')
}

fn are_letters(name: &[u8]) -> bool
    ensures { result ≡ list_all is_letter name.now }
{
    name.iter().all(|b| is_letter(*b))
}

/// Whether a name can stand in a lane.
fn fits(name: &[u8]) -> bool
    ensures short { result ≡ true → length name.now < ROWS }
    ensures known { result ≡ true → list_all is_letter name.now ≡ true }
{
    name.len() < ROWS && are_letters(name)
}

/// The word with the bit of the lane.
fn with_lane(word: u64, at: usize) -> u64
    requires { at < LANES }
    ensures here { lane at result ≡ true }
    ensures others { (j : ℕ) → j ≢ at → lane j result ≡ lane j word }
{
    word | 1u64 << at
}

impl Lanes {
    fn empty() -> Lanes
        ensures blank { (j : ℕ) → IsBlank result j }
        ensures letters { length result.letters ≡ CELLS }
        ensures ends { length result.ends ≡ ROWS }
    {
        Lanes {
            letters: [0; CELLS],
            ends: [0; ROWS],
        }
    }

    /// Puts a name into a lane that has nothing.
    fn put(&mut self, lane: usize, name: &[u8])
        requires lane { lane < LANES }
        requires short { length name.now < ROWS }
        requires known { list_all is_letter name.now ≡ true }
        requires blank { IsBlank self.old lane }
        ensures stands { Stands self.new lane name.now }
        ensures others { (j : ℕ) → j ≢ lane → SameLane j self.old self.new }
    {
        for k in 0..name.len() {
            let cell = usize::from(name[k] - FIRST_LETTER) * ROWS + k;
            self.letters[cell] = with_lane(self.letters[cell], lane);
        }
        self.ends[name.len()] = with_lane(self.ends[name.len()], lane);
    }

    /// The names, each in its lane, if each fits.
    pub(crate) fn of(names: &[&[u8]]) -> Option<Lanes>
        requires { length names.now ≤ LANES }
        ensures { IfSome result (λ lanes. (j : ℕ) → j < length names.now
            → Stands lanes j (slice_index_or (map (λ name. name.now) names.now) j [])) }
    {
        let mut lanes = Lanes::empty();
        for lane in 0..names.len() {
            let name = names[lane];
            if !fits(name) {
                return None;
            }
            lanes.put(lane, name);
        }
        Some(lanes)
    }

    /// The names that end at each position.
    pub(crate) fn ends(&self) -> [u64; ROWS]
        ensures { result ≡ self.now.ends }
    {
        self.ends
    }

    /// Adds the names that have the letter.
    fn add(&self, letter: usize, row: &mut [u64; ROWS])
        requires { letter < LETTERS }
        ensures { (k : ℕ) → k < ROWS → slice_index_or row.new k 0
            ≡ bit_or (slice_index_or row.old k 0) (slice_index_or self.now.letters (letter * ROWS + k) 0) }
    {
        for k in 0..ROWS {
            row[k] |= self.letters[letter * ROWS + k];
        }
    }

    /// The names that have a byte at each position which the piece takes.
    pub(crate) fn taken(&self, piece: &Piece) -> [u64; ROWS]
        ensures { (j : ℕ) (text : List ℕ) → Stands self.now j text → Marks (takes piece.now) text j result }
    {
        let mut row = [0; ROWS];
        for letter in 0..LETTERS {
            if piece.takes(FIRST_LETTER + letter as u8) {
                self.add(letter, &mut row);
            }
        }
        row
    }

    /// The names that have this byte at each position.
    pub(crate) fn with_byte(&self, b: u8) -> [u64; ROWS]
        ensures { (j : ℕ) (text : List ℕ) → Stands self.now j text → Marks (λ c. b == c) text j result }
    {
        let mut row = [0; ROWS];
        if is_letter(b) {
            self.add(usize::from(b - FIRST_LETTER), &mut row);
        }
        row
    }
}
