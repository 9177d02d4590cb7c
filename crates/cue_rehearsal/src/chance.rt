//! What is left to chance: the same of the same seed.
ghost use Rattle.std.specs.Prelude.{◌≡◌, ◌≤◌, IsTrue, false};
ghost use Rattle.cue_rehearsal.specs.Drawing.{chance_of, is_lost, next, up_to, word_of};

use rand_core::utils::NextWord;
use rand_pcg::Pcg32;

/// The stream of the generator that rehearsals draw from.
const STREAM: u64 = 54;

/// Draws from a seed. It is no secret.
#[derive(Clone, Copy)]
pub struct Chance {
    // That of the generator.
    state: u64,
}

impl Chance {
    /// The draws of this seed.
    pub fn new(seed: u64) -> Chance
        ensures { result ≡ chance_of seed }
    {
        Chance {
            state: Pcg32::new(seed, STREAM).state(),
        }
    }

    // The next draw.
    fn word(&mut self) -> u32
        ensures word { result ≡ word_of self.old }
        ensures next { self.new ≡ next self.old }
    {
        let mut generator = Pcg32::from_state(self.state, STREAM);
        let word = generator.next_word();
        self.state = generator.state();
        word
    }

    /// A number up to this one.
    pub fn up_to(&mut self, most: u32) -> u32
        ensures drawn { result ≡ up_to most self.old }
        ensures next { self.new ≡ next self.old }
        ensures within { result ≤ most }
    {
        let word = self.word();
        match most.checked_add(1) {
            Some(count) => word % count,
            None => word,
        }
    }

    /// Whether the next datagram is lost, if so many of a hundred are.
    pub fn is_lost(&mut self, of_hundred: u8) -> bool
        ensures drawn { result ≡ is_lost of_hundred self.old }
        ensures next { self.new ≡ next self.old }
        ensures none { of_hundred ≡ 0 → result ≡ false }
        ensures all { 100 ≤ of_hundred → IsTrue result }
    {
        let drawn = self.word() % 100;
        drawn < u32::from(of_hundred)
    }
}
