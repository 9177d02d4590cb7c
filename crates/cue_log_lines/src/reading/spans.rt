//! Times, and for how many a line stands.
ghost use Rattle.std.specs.Prelude.{◌≡◌};
ghost use Rattle.std.specs.Option.{option_map};
ghost use Rattle.cue_log_lines.specs.Reading as spec;

use super::pieces::{after, cut_last, number_in};
use crate::line::{Count, Span};

/// The time at the front of a text, and what follows it.
#[tactic(auto, unfolding(crate::specs::Reading::span_at))]
pub fn span_in(text: &[u8]) -> Option<(Span, &[u8])>
    ensures { option_map (λ x. (x.0, x.1.now)) result ≡ spec.span_at text.now }
{
    let (seconds, rest) = number_in(text);
    let (tenths, rest) = number_in(after(b".", rest)?);
    Some((Span { seconds, tenths }, rest))
}

// What follows the words for one time or for more.
fn after_times(text: &[u8]) -> Option<&[u8]>
    ensures { option_map (λ x. x.now) result ≡ spec.after_times text.now }
{
    match after(b" times more in ", text) {
        Some(rest) => Some(rest),
        None => after(b" time more in ", text),
    }
}

// For how many a line stands, after a comma.
#[tactic(auto, unfolding(crate::specs::Reading::count_in))]
fn count_in(text: &[u8]) -> Option<Count>
    ensures { result ≡ spec.count_in text.now }
{
    let (times, rest) = number_in(after(b" ", text)?);
    let (span, rest) = span_in(after_times(rest)?)?;
    if rest == b" s".as_slice() {
        Some(Count { times, span })
    } else {
        None
    }
}

/// A line, and for how many it stands if it says so at its end.
#[tactic(auto, unfolding(crate::specs::Reading::count_at))]
pub fn count_at(text: &[u8]) -> Option<(&[u8], Count)>
    ensures { option_map (λ x. (x.0.now, x.1)) result ≡ spec.count_at text.now }
{
    let (front, tail) = cut_last(b',', text)?;
    let count = count_in(tail)?;
    Some((front, count))
}
