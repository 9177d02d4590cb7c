//! Cue numbers: short texts that are compared byte for byte, kept in place so that they take no memory.
ghost use Rattle.std.specs.Prelude.{◌≡◌, false, IsTrue, IfSome, IfNone};
ghost use Rattle.std.proofs.Common.{rules};
ghost use Rattle.std.specs.Cmp.{partial_equiv_from_equiv};
ghost use Rattle.std.specs.Cmp.Lexicographic.{nat_list_eq_equiv};
ghost use Rattle.std.specs.Cmp.Rules.{hashing};
ghost use Rattle.std.specs.Hash as fed;
ghost use Rattle.cue_show.specs.Number.{is_cue_number, same_text};

use crate::limits::MAX_CUE_BYTES;
use crate::short_bytes::ShortBytes;
use std::hash::{Hash, Hasher};
use std::marker::Model;

/// The number of a cue, as its text.
///
/// Numbers are compared byte for byte, so `1`, `01` and `1.0` are three cues.
#[derive(Clone, Copy, Debug)]
pub struct CueNo {
    text: ShortBytes<MAX_CUE_BYTES>,
}

impl Model for CueNo {
    ghost use Rattle.std.specs.Prelude.{ℕ, List, IsTrue};
    ghost use Rattle.cue_show.specs.Number.{is_cue_number};

    ghost Value = { List ℕ };

    ghost view = { λ c. c.text };

    ghost invariant = { λ c. IsTrue (is_cue_number c.text) };

    ghost inverse = { λ text. record { text = text } };
}

impl CueNo {
    /// The cue number that the text is: 1 to 16 bytes, runs of digits joined by single points.
    pub fn read(text: &[u8]) -> Option<CueNo>
        ensures found { IfSome result (λ c. (c ≡ text.now) × IsTrue (is_cue_number text.now)) }
        ensures none { IfNone result (is_cue_number text.now ≡ false) }
    {
        if !is_cue_number(text) {
            return None;
        }
        Some(CueNo {
            text: ShortBytes::read(text)?,
        })
    }

    /// The text.
    pub fn text(&self) -> &[u8]
        ensures value { result.now ≡ self.now }
        ensures number { IsTrue (is_cue_number self.now) }
    {
        self.text.as_slice()
    }
}

impl PartialEq for CueNo {
    ghost eq = { same_text };

    ghost laws = { partial_equiv_from_equiv nat_list_eq_equiv };

    fn eq(&self, other: &CueNo) -> bool {
        self.text() == other.text()
    }
}

impl Eq for CueNo {
    ghost laws = { nat_list_eq_equiv };
}

impl Hash for CueNo {
    ghost hash_input = { fed.slice fed.u8 };

    ghost respects_eq = { Prim.search (hashing, rules) };

    fn hash<H: Hasher>(&self, state: &mut H) {
        self.text().hash(state);
    }
}

// Whether the text is a cue number, byte by byte from the front.
fn is_cue_number(text: &[u8]) -> bool
    ensures { result ≡ is_cue_number text.now }
{
    if text.len() > MAX_CUE_BYTES {
        return false;
    }
    let mut after_digit = false;
    for byte in text {
        if byte.is_ascii_digit() {
            after_digit = true;
        } else if *byte == b'.' && after_digit {
            after_digit = false;
        } else {
            return false;
        }
    }
    after_digit
}
