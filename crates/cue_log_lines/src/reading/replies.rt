//! The lines of replies.
ghost use Rattle.std.specs.Prelude.{◌≡◌};
ghost use Rattle.std.specs.Option.{option_map};
ghost use Rattle.cue_log_lines.specs.Reading as spec;

use super::pieces::{after, before, cut_last, number_in, short_of};
use super::spans::count_at;
use crate::line::{Asked, Line, Refused};
use crate::text::Text;

// Commands that were refused, with the code of the first.
#[tactic(auto, unfolding(crate::specs::Reading::refusals_at))]
fn refusals_in(text: &[u8]) -> Option<Refused>
    ensures { result ≡ spec.refusals_at text.now }
{
    let (number, rest) = number_in(text);
    let count = short_of(number)?;
    if count == 0 {
        return Some(Refused::Nothing);
    }
    let (number, _) = number_in(after(b", code ", rest)?);
    Some(Refused::Some {
        count,
        code: short_of(number)?,
    })
}

// Others to which it did not apply.
#[tactic(auto, unfolding(crate::specs::Reading::aside_at))]
fn aside_in(text: &[u8]) -> Option<Refused>
    ensures { result ≡ spec.aside_at text.now }
{
    let (number, _) = number_in(after(b", ", text)?);
    Some(Refused::Aside(short_of(number)?))
}

// What was made nothing of.
#[tactic(auto, unfolding(crate::specs::Reading::refused_at))]
fn refused_in(text: &[u8]) -> Option<Refused>
    ensures { result ≡ spec.refused_at text.now }
{
    match after(b" refused ", text) {
        Some(rest) => refusals_in(rest),
        None => aside_in(text),
    }
}

// How many commands were made, how many were known, and what was made nothing of.
#[tactic(auto, unfolding(crate::specs::Reading::counts_at))]
fn counts_in(text: &[u8]) -> Option<(u16, u16, Refused)>
    ensures { result ≡ spec.counts_at text.now }
{
    let (number, rest) = number_in(text);
    let made = short_of(number)?;
    let (number, rest) = number_in(after(b" known ", rest)?);
    let known = short_of(number)?;
    let refused = refused_in(rest)?;
    Some((made, known, refused))
}

// The pieces of a reply: its address, its counts, and what is added to it.
#[derive(Clone, Copy)]
struct Body<'a> {
    address: &'a [u8],
    counts: &'a [u8],
    more: &'a [u8],
}

// A reply that something is added to, by what stands before the last colon and after it.
#[tactic(auto, unfolding(crate::specs::Reading::longer_at))]
fn longer_body<'a>(front: &'a [u8], tail: &'a [u8]) -> Option<Body<'a>>
    ensures { option_map (λ x. (x.address.now, x.counts.now, x.more.now)) result ≡ spec.longer_at front.now tail.now }
{
    let (address, counts) = cut_last(b':', front)?;
    let more = after(b" ", tail)?;
    let counts = after(b" made ", counts)?;
    Some(Body {
        address,
        counts,
        more,
    })
}

// What stands round the last colons.
#[tactic(auto, unfolding(crate::specs::Reading::body_at))]
fn body_in(text: &[u8]) -> Option<Body<'_>>
    ensures { option_map (λ x. (x.address.now, x.counts.now, x.more.now)) result ≡ spec.body_at text.now }
{
    let (front, tail) = cut_last(b':', text)?;
    match after(b" made ", tail) {
        Some(counts) => Some(Body {
            address: front,
            counts,
            more: &[],
        }),
        None => longer_body(front, tail),
    }
}

// A reply without the words that it was not sent, and whether it has none.
#[tactic(auto, unfolding(crate::specs::Reading::sent_at))]
fn sent_in(text: &[u8]) -> (&[u8], bool)
    ensures { (result.0.now, result.1) ≡ spec.sent_at text.now }
{
    match before(b", the reply was not sent", text) {
        Some(body) => (body, false),
        None => (text, true),
    }
}

// A reply of this port, after the word `asked`.
#[tactic(auto, unfolding(crate::specs::Reading::asked_of))]
fn asked_of(port: u16, text: &[u8]) -> Option<Asked<'_>>
    ensures { result ≡ spec.asked_of port text.now }
{
    let (body, is_sent) = sent_in(text);
    let body = body_in(body)?;
    let (made, known, refused) = counts_in(body.counts)?;
    Some(Asked {
        port,
        address: Text::new(body.address),
        made,
        known,
        refused,
        more: Text::new(body.more),
        is_sent,
    })
}

// A reply.
#[tactic(auto, unfolding(crate::specs::Reading::asked_at))]
fn asked_in(text: &[u8]) -> Option<Asked<'_>>
    ensures { result ≡ spec.asked_at text.now }
{
    let (port, rest) = number_in(text);
    asked_of(short_of(port)?, after(b" asked ", rest)?)
}

/// A reply, and for how many it stands.
#[tactic(auto, unfolding(crate::specs::Reading::replied_at))]
pub fn read_replied(text: &[u8]) -> Option<Line<'_>>
    ensures { result ≡ spec.replied_at text.now }
{
    match count_at(text) {
        Some((front, count)) => {
            let asked = asked_in(front)?;
            Some(Line::Replied(asked, Some(count)))
        }
        None => {
            let asked = asked_in(text)?;
            Some(Line::Replied(asked, None))
        }
    }
}
