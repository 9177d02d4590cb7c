//! What a device tells of itself: shown as told by it, and never a fact.
ghost use Rattle.std.specs.Prelude.{◌≡◌, ◌&&◌, IfNone, IfSome, decimal};
ghost use Rattle.std.specs.List.{list_all};
ghost use Rattle.std.specs.Option.{option_map};
ghost use Rattle.cue_show.specs.Number.{same_text};
ghost use Rattle.cue_relay.specs.Claims as spec;
ghost use Rattle.cue_relay.specs.Pieces.{after};
ghost use Rattle.cue_relay.specs.declared.claims.Claim as declared;

use crate::fields::{int_in, lone_text_in, text_in};
use crate::messages::is_attempt;
use crate::pieces::after as after_words;
use cue_show::{DeviceNo, ShortBytes};
use itoa::Buffer;

/// The most bytes of words that a device tells.
pub const MAX_WORDS: usize = 48;

/// The most bytes of a unit.
pub const MAX_UNIT: usize = 8;

/// Words that a device tells: 1 to 48 bytes, each printable ASCII.
pub type Words = ShortBytes<MAX_WORDS>;

/// The unit of a position: 0 to 8 bytes, each printable ASCII.
pub type Unit = ShortBytes<MAX_UNIT>;

/// Why a device aborted an attempt.
#[derive(Clone, Copy, Debug, PartialEq, Eq)]
pub struct Reason {
    /// The number of the attempt.
    pub seq: u32,
    pub words: Words,
}

/// Where a device is, and where it goes.
#[derive(Clone, Copy, Debug, PartialEq, Eq)]
pub struct Position {
    /// When it told so, in milliseconds since 1970.
    pub told: u64,
    /// Where it is, in units of its maker.
    pub at: i32,
    /// Where it goes, in the same units.
    pub goal: i32,
    pub unit: Unit,
}

/// What a device told of itself last, of each kind.
#[derive(Clone, Copy, Debug, PartialEq, Eq)]
pub struct Claims {
    pub reason: Option<Reason>,
    pub position: Option<Position>,
    /// Who made it, of which kind and version.
    pub identity: Option<Words>,
}

/// What a device tells of itself in one message.
#[derive(Clone, Copy, Debug, PartialEq, Eq)]
pub enum Claim {
    /// Why it aborted an attempt.
    Why(Reason),
    /// Where it is, where it goes, and the unit of both.
    At { at: i32, goal: i32, unit: Unit },
    /// Who made it, of which kind and version.
    Who(Words),
}

impl Claims {
    /// A device that told nothing of itself.
    pub const NONE: Claims = Claims {
        reason: None,
        position: None,
        identity: None,
    };

    /// What it told last, once it told this at this time.
    pub fn after(self, claim: Claim, now: u64) -> Claims
        ensures { result ≡ spec.after_claim self claim now }
    {
        match claim {
            Claim::Why(reason) => Claims {
                reason: Some(reason),
                position: self.position,
                identity: self.identity,
            },
            Claim::At { at, goal, unit } => Claims {
                reason: self.reason,
                position: Some(Position {
                    told: now,
                    at,
                    goal,
                    unit,
                }),
                identity: self.identity,
            },
            Claim::Who(words) => Claims {
                reason: self.reason,
                position: self.position,
                identity: Some(words),
            },
        }
    }

    // Whether a device may have told these.
    pub(crate) fn are_fit(&self) -> bool
        ensures { result ≡ spec.are_claims self.now }
    {
        is_any_reason(&self.reason)
            && is_any_position(&self.position)
            && are_any_words(&self.identity)
    }
}

// Whether a byte is printable ASCII.
fn is_printable(byte: u8) -> bool
    ensures { result ≡ spec.is_printable byte }
{
    byte >= 32 && byte <= 126
}

fn are_printable(bytes: &[u8]) -> bool
    ensures { result ≡ list_all spec.is_printable bytes.now }
{
    bytes.iter().all(|byte| is_printable(*byte))
}

// Whether these are 1 to 48 printable bytes.
fn are_words(bytes: &[u8]) -> bool
    ensures { result ≡ spec.are_words bytes.now }
{
    bytes.len() >= 1 && bytes.len() <= MAX_WORDS && are_printable(bytes)
}

// Whether these are at most 8 printable bytes.
fn is_unit(bytes: &[u8]) -> bool
    ensures { result ≡ spec.is_unit bytes.now }
{
    bytes.len() <= MAX_UNIT && are_printable(bytes)
}

fn is_any_reason(reason: &Option<Reason>) -> bool
    ensures { result ≡ spec.if_told spec.is_reason reason.now }
{
    match reason {
        Some(reason) => is_attempt(reason.seq) && are_words(reason.words.as_slice()),
        None => true,
    }
}

fn is_any_position(position: &Option<Position>) -> bool
    ensures { result ≡ spec.if_told (λ p. spec.is_unit p.unit) position.now }
{
    match position {
        Some(position) => is_unit(position.unit.as_slice()),
        None => true,
    }
}

fn are_any_words(words: &Option<Words>) -> bool
    ensures { result ≡ spec.if_told spec.are_words words.now }
{
    match words {
        Some(words) => are_words(words.as_slice()),
        None => true,
    }
}

// Words that a device may tell.
fn words_of(bytes: &[u8]) -> Option<Words>
    ensures { result ≡ spec.kept spec.are_words bytes.now }
{
    if are_words(bytes) {
        Words::read(bytes)
    } else {
        None
    }
}

// A unit that a device may tell.
fn unit_of(bytes: &[u8]) -> Option<Unit>
    ensures { result ≡ spec.kept spec.is_unit bytes.now }
{
    if is_unit(bytes) {
        Unit::read(bytes)
    } else {
        None
    }
}

// Why it aborted.
#[tactic(auto, unfolding(crate::specs::Claims::why_at))]
fn why_in(bytes: &[u8]) -> Option<Claim>
    ensures { result ≡ spec.why_at bytes.now }
{
    let (seq, rest) = int_in(bytes)?;
    let words = words_of(lone_text_in(rest)?)?;
    if is_attempt(seq) {
        Some(Claim::Why(Reason { seq, words }))
    } else {
        None
    }
}

// Where it is, where it goes, and the unit of both.
#[tactic(auto, unfolding(crate::specs::Claims::at_at))]
fn at_in(bytes: &[u8]) -> Option<Claim>
    ensures { result ≡ spec.at_at bytes.now }
{
    let (at, rest) = int_in(bytes)?;
    let (goal, rest) = int_in(rest)?;
    let unit = unit_of(lone_text_in(rest)?)?;
    let (at, goal) = (at.cast_signed(), goal.cast_signed());
    Some(Claim::At { at, goal, unit })
}

// Who made it.
#[tactic(auto, unfolding(crate::specs::Claims::who_at))]
fn who_in(bytes: &[u8]) -> Option<Claim>
    ensures { result ≡ spec.who_at bytes.now }
{
    let words = words_of(lone_text_in(bytes)?)?;
    Some(Claim::Who(words))
}

// Whether two texts are these.
fn are_both(name: &[u8], wanted: &[u8], tags: &[u8], types: &[u8]) -> bool
    ensures { result ≡ (same_text name.now wanted.now && same_text tags.now types.now) }
{
    name == wanted && tags == types
}

// The claim of this name and with these tags.
#[tactic(auto, unfolding(crate::specs::Claims::named_at))]
fn named_in(name: &[u8], tags: &[u8], bytes: &[u8]) -> Option<Claim>
    ensures { result ≡ spec.named_at name.now tags.now bytes.now }
{
    if are_both(name, b"/why", tags, b",is") {
        why_in(bytes)
    } else if are_both(name, b"/at", tags, b",iis") {
        at_in(bytes)
    } else if are_both(name, b"/who", tags, b",s") {
        who_in(bytes)
    } else {
        None
    }
}

// What follows the digits of a device.
fn after_number(device: DeviceNo, text: &[u8]) -> Option<&[u8]>
    ensures { option_map (λ x. x.now) result ≡ after (decimal device) text.now }
{
    let mut buffer = Buffer::new();
    after_words(buffer.format(device.number()).as_bytes(), text)
}

// The name in an address of this device.
#[tactic(auto, unfolding(crate::specs::Claims::name_in))]
fn name_in(device: DeviceNo, address: &[u8]) -> Option<&[u8]>
    ensures { option_map (λ x. x.now) result ≡ spec.name_in device address.now }
{
    let rest = after_words(b"/device/", address)?;
    after_number(device, rest)
}

// The claim of the device that the datagram is.
#[tactic(auto, unfolding(crate::specs::Claims::claim_in))]
fn claimed_in(device: DeviceNo, datagram: &[u8]) -> Option<Claim>
    ensures { result ≡ spec.claim_in device datagram.now }
{
    let (address, rest) = text_in(datagram)?;
    let name = name_in(device, address)?;
    let (tags, rest) = text_in(rest)?;
    named_in(name, tags, rest)
}

/// What the device tells of itself in this datagram; None if it is no claim of that very device. The relay calls it for
/// what comes from the device's own address.
pub fn claim_in(device: DeviceNo, datagram: &[u8]) -> Option<Claim>
    ensures value { result ≡ spec.claim_in device datagram.now }
    ensures found { IfSome result (λ c. spec.IsClaimOf device datagram.now c) }
    ensures none { IfNone result ((c : declared.Claim) → spec.IsClaimOf device datagram.now c → ⊥) }
{
    claimed_in(device, datagram)
}
