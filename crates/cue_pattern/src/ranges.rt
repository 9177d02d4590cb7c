//! What stands between brackets: ranges of bytes.

ghost use Rattle.std.specs.Prelude.{◌≡◌, ◌∷◌, ◌≤◌, length, IfOk};
ghost use Rattle.cue_pattern.specs.Grammar.{ranges};

use std::alloc::{AllocError, Global};
use std::marker::Model;

/// The bytes from `low` to `high`, both included; none if `low` is above `high`.
#[derive(Clone, Copy, Debug, PartialEq, Eq)]
pub struct Range {
    pub low: u8,
    pub high: u8,
}

/// The ranges that stand between two brackets. A byte that stands for itself is a range of one.
#[derive(Debug, Drop)]
pub struct Ranges {
    items: Vec<Range>,
}

impl Model for Ranges {
    ghost use Rattle.std.specs.Prelude.{List};
    ghost use Rattle.cue_pattern.specs.declared.ranges.Range.{Range};

    ghost Value = { List Range };

    ghost view = { λ r. r.items.items };
}

/// The range that begins with this byte, and what follows the range.
fn first_range(low: u8, behind: &[u8]) -> (Range, &[u8])
    ensures first { ranges (low ∷ behind.now) ≡ result.0 ∷ ranges result.1.now }
    ensures shorter { length result.1.now ≤ length behind.now }
{
    match behind {
        [b'-', high, rest @ ..] => (Range { low, high: *high }, rest),
        _ => (Range { low, high: low }, behind),
    }
}

impl Ranges {
    ghost use Rattle.cue_pattern.specs.Matching.{is_in};

    /// Reads what stands between the brackets, after the `!` if there is one.
    pub(crate) fn read(alloc: Global, inside: &[u8]) -> Result<Ranges, AllocError>
        ensures { IfOk result (λ r. r ≡ ranges inside.now) }
    {
        let mut items = Vec::with_capacity(alloc, inside.len())?;
        let mut rest = inside;
        while let [low, behind @ ..] = rest {
            let (range, after) = first_range(*low, behind);
            items.push(range)?;
            rest = after;
        }
        Ok(Ranges { items })
    }

    /// Whether one of the ranges has the byte.
    pub(crate) fn contains(&self, b: u8) -> bool
        ensures { result ≡ is_in self.now b }
    {
        self.items.iter().any(|r| r.low <= b && b <= r.high)
    }
}
