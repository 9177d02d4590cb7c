//! What the line of a device may say.
ghost use Rattle.std.specs.Prelude.{◌≡◌, codes};
ghost use Rattle.std.specs.Option.{option_map};
ghost use Rattle.cue_relay.specs.Pieces as piece;
ghost use Rattle.cue_relay.specs.Reading as spec;
ghost use Rattle.cue_relay.specs.declared.status.Ordered.TheVariants.{Cancel};

use crate::motion::Motion;
use crate::pieces::{after, byte_of, number_after, short_of, word_after};
use crate::route::Address;
use crate::status::claimed::claims_in;
use crate::status::{Ordered, Seen};
use cue_show::DeviceNo;

// A device.
#[tactic(auto, unfolding(crate::specs::Reading::device_at))]
fn device_in(text: &[u8]) -> Option<(DeviceNo, &[u8])>
    ensures { option_map (λ x. (x.0, x.1.now)) result ≡ spec.device_at text.now }
{
    let (number, rest) = number_after(b"device ", text)?;
    let device = DeviceNo::of_byte(byte_of(number)?)?;
    Some((device, rest))
}

// A number of one byte, after these words.
#[tactic(auto, unfolding(crate::specs::Reading::octet_after))]
fn octet_after<'a>(words: &[u8], text: &'a [u8]) -> Option<(u8, &'a [u8])>
    ensures { option_map (λ x. (x.0, x.1.now)) result ≡ spec.octet_after words.now text.now }
{
    let (number, rest) = number_after(words, text)?;
    let octet = byte_of(number)?;
    Some((octet, rest))
}

// Two of them, the second after a dot.
#[tactic(auto, unfolding(crate::specs::Reading::octets_after))]
fn octets_after<'a>(words: &[u8], text: &'a [u8]) -> Option<((u8, u8), &'a [u8])>
    ensures { option_map (λ x. (x.0, x.1.now)) result ≡ spec.octets_after words.now text.now }
{
    let (first, rest) = octet_after(words, text)?;
    let (second, rest) = octet_after(b".", rest)?;
    Some(((first, second), rest))
}

// A port.
#[tactic(auto, unfolding(crate::specs::Reading::port_at))]
fn port_in(text: &[u8]) -> Option<(u16, &[u8])>
    ensures { option_map (λ x. (x.0, x.1.now)) result ≡ spec.port_at text.now }
{
    let (number, rest) = number_after(b":", text)?;
    let port = short_of(number)?;
    Some((port, rest))
}

// An address, after a space.
#[tactic(auto, unfolding(crate::specs::Reading::address_at))]
fn address_in(text: &[u8]) -> Option<(Address, &[u8])>
    ensures { option_map (λ x. (x.0, x.1.now)) result ≡ spec.address_at text.now }
{
    let (high, rest) = octets_after(b" ", text)?;
    let (low, rest) = octets_after(b".", rest)?;
    let (port, rest) = port_in(rest)?;
    let host = u32::from_be_bytes([high.0, high.1, low.0, low.1]);
    Some((Address { host, port }, rest))
}

// That it was never heard.
#[tactic(auto, unfolding(crate::specs::Reading::never_at))]
fn never_in(text: &[u8]) -> Option<(Option<u64>, &[u8])>
    ensures { option_map (λ x. (x.0, x.1.now)) result ≡ spec.never_at text.now }
{
    let rest = after(b" never", text)?;
    Some((None, rest))
}

// When it was heard.
#[tactic(auto, unfolding(crate::specs::Reading::heard_at))]
fn heard_in(text: &[u8]) -> Option<(Option<u64>, &[u8])>
    ensures { option_map (λ x. (x.0, x.1.now)) result ≡ spec.heard_at text.now }
{
    match number_after(b" heard ", text) {
        Some((heard, rest)) => Some((Some(heard), rest)),
        None => never_in(text),
    }
}

// The order of this word.
#[tactic(auto, unfolding(crate::specs::Reading::order_at))]
fn order_in<'a>(word: &[u8], order: Ordered, text: &'a [u8]) -> Option<(Ordered, &'a [u8])>
    ensures { option_map (λ x. (x.0, x.1.now)) result ≡ spec.order_at word.now order text.now }
{
    let rest = after(word, text)?;
    Some((order, rest))
}

// A cancel, if it has not answered that.
fn cancel_in(text: &[u8]) -> (Option<Ordered>, &[u8])
    ensures { (result.0, result.1.now) ≡ piece.if_there (spec.order_at (codes " cancel") Cancel text.now) text.now }
{
    match order_in(b" cancel", Ordered::Cancel, text) {
        Some((order, rest)) => (Some(order), rest),
        None => (None, text),
    }
}

// The order that it has not answered, if there is one.
#[tactic(auto, unfolding(crate::specs::Reading::ordered_at))]
fn ordered_in(text: &[u8]) -> (Option<Ordered>, &[u8])
    ensures { (result.0, result.1.now) ≡ spec.ordered_at text.now }
{
    if let Some((order, rest)) = order_in(b" standby", Ordered::Standby, text) {
        return (Some(order), rest);
    }
    match order_in(b" go", Ordered::Go, text) {
        Some((order, rest)) => (Some(order), rest),
        None => cancel_in(text),
    }
}

// That it may move.
#[tactic(auto, unfolding(crate::specs::Reading::moving_at))]
fn moving_in(text: &[u8]) -> Option<(Motion, &[u8])>
    ensures { option_map (λ x. (x.0, x.1.now)) result ≡ spec.moving_at text.now }
{
    let (seq, rest) = word_after(b" moving ", text)?;
    Some((Motion::Moving(seq), rest))
}

// Which of its motions are over.
#[tactic(auto, unfolding(crate::specs::Reading::over_at))]
fn over_in(text: &[u8]) -> Option<(Motion, &[u8])>
    ensures { option_map (λ x. (x.0, x.1.now)) result ≡ spec.over_at text.now }
{
    let (seq, rest) = word_after(b" over ", text)?;
    Some((Motion::Over(seq), rest))
}

// What is known of its motions.
#[tactic(auto, unfolding(crate::specs::Reading::motion_at))]
fn motion_in(text: &[u8]) -> (Motion, &[u8])
    ensures { (result.0, result.1.now) ≡ spec.motion_at text.now }
{
    if let Some(found) = moving_in(text) {
        return found;
    }
    match over_in(text) {
        Some(found) => found,
        None => (Motion::Unknown, text),
    }
}

// Whether it is silent.
#[tactic(auto, unfolding(crate::specs::Reading::silent_at))]
fn silent_in(text: &[u8]) -> (bool, &[u8])
    ensures { (result.0, result.1.now) ≡ spec.silent_at text.now }
{
    match after(b" silent", text) {
        Some(rest) => (true, rest),
        None => (false, text),
    }
}

// What the lines of a device say, after its address.
#[tactic(auto, unfolding(crate::specs::Reading::seen_of))]
fn seen_of(device: DeviceNo, address: Address, text: &[u8]) -> Option<(Seen, &[u8])>
    ensures { option_map (λ x. (x.0, x.1.now)) result ≡ spec.seen_of device address text.now }
{
    let (heard, rest) = heard_in(text)?;
    let (ordered, rest) = ordered_in(rest);
    let (motion, rest) = motion_in(rest);
    let (silent, rest) = silent_in(rest);
    let (claims, rest) = claims_in(after(b"\n", rest)?);
    let seen = Seen {
        device,
        address,
        heard,
        ordered,
        motion,
        silent,
        claims,
    };
    Some((seen, rest))
}

/// What the lines of a device may say, and what follows them.
#[tactic(auto, unfolding(crate::specs::Reading::seen_at))]
pub fn seen_in(text: &[u8]) -> Option<(Seen, &[u8])>
    ensures { option_map (λ x. (x.0, x.1.now)) result ≡ spec.seen_at text.now }
{
    let Some((device, rest)) = device_in(text) else {
        return None;
    };
    let (address, rest) = address_in(rest)?;
    seen_of(device, address, rest)
}
