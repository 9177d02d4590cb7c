//! A few bytes, kept in place so that they take no memory.
ghost use Rattle.std.specs.Prelude.{◌≡◌, ◌≤◌, ◌<◌, nat_eq, IfSome, IfNone, length};
ghost use Rattle.std.specs.Cmp.{partial_equiv_from_equiv};
ghost use Rattle.std.specs.Cmp.Lexicographic.{nat_list_eq_equiv, pointwise};

use std::marker::Model;

/// 0 to `N` bytes, kept in place so that they take no memory.
#[derive(Clone, Copy, Debug)]
pub struct ShortBytes<const N: usize> {
    // The bytes, with zeros after them.
    bytes: [u8; N],
    len: usize,
}

impl<const N: usize> Model for ShortBytes<N> {
    ghost use Rattle.std.specs.Prelude.{ℕ, List, length};

    ghost Value = { List ℕ };

    ghost use Rattle.cue_show.specs.Padded.{kept_in, padded, IsPadded};

    ghost view = { λ b. kept_in b.bytes b.len };

    ghost invariant = { λ b. IsPadded N b.bytes b.len };

    ghost inverse = { λ bytes. record { bytes = padded N bytes; len = length bytes } };

    ghost inverse_ok = { λ b h i. record { bytes = h.zeros i; len = h.whole i } };
}

impl<const N: usize> ShortBytes<N> {
    /// The bytes, if there are not too many.
    pub fn read(bytes: &[u8]) -> Option<ShortBytes<N>>
        ensures found { IfSome result (λ b. (b ≡ bytes.now) × (length bytes.now ≤ N)) }
        ensures none { IfNone result (N < length bytes.now) }
    {
        if bytes.len() > N {
            return None;
        }
        let mut kept = [0; N];
        kept[..bytes.len()].copy_from_slice(bytes);
        Some(ShortBytes {
            bytes: kept,
            len: bytes.len(),
        })
    }

    /// The bytes.
    pub fn as_slice(&self) -> &[u8]
        ensures value { result.now ≡ self.now }
        ensures short { length self.now ≤ N }
    {
        &self.bytes[..self.len]
    }
}

impl<const N: usize> PartialEq for ShortBytes<N> {
    ghost eq = { pointwise nat_eq };

    ghost laws = { partial_equiv_from_equiv nat_list_eq_equiv };

    fn eq(&self, other: &ShortBytes<N>) -> bool {
        self.as_slice() == other.as_slice()
    }
}

impl<const N: usize> Eq for ShortBytes<N> {
    ghost laws = { nat_list_eq_equiv };
}
