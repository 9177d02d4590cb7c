//! What devices told the relay of themselves, in words. It is said to be told by them, and nothing is decided by it.
ghost use Rattle.std.specs.Prelude.{◌≡◌, ◌++◌, ◌∷◌, [], IfOk, OnOk, count_by, map, string_bytes};
ghost use Rattle.std.specs.List.{flat_map};
ghost use Rattle.std.specs.Option.{option_copied};
ghost use Rattle.cue_board.specs.Board.{said_of};
ghost use Rattle.cue_board.specs.Claims as claims;

use crate::line::BoardLine;
use cue_exchange::{Answer, DeviceAnswer};
use cue_relay::{Claims, Position, Reason, Words};
use cue_show::DeviceNo;
use cue_view::view::Contacted;
use std::alloc::{AllocError, Global};

/// What a device tells of itself.
#[derive(Clone, Copy)]
pub(crate) enum Kind {
    /// Where it is, and where it goes.
    Position,
    /// Why it aborted an attempt.
    Reason,
    /// Who made it.
    Identity,
}

// A byte as it is shown: a question mark where it is no printed sign of ASCII, and a single quotation mark for a double
// one, so that words never end their own quotation.
fn sign_of(byte: u8) -> u8
    ensures { result ≡ claims.sign_of byte }
{
    if byte == b'"' {
        b'\''
    } else if byte >= b' ' && byte <= b'~' {
        byte
    } else {
        b'?'
    }
}

// Puts a byte after the text, as it is shown.
#[tactic(auto, using(crate::proofs::ClaimLemmas::sign_encoded))]
fn push_sign(text: &mut String, byte: u8) -> Result<(), AllocError>
    ensures { OnOk result (string_bytes text.new ≡ string_bytes text.old ++ claims.sign_of byte ∷ []) }
{
    text.push(char::from(sign_of(byte)))
}

/// The text of words that a device told: a question mark stands where a byte is no printed sign of ASCII, and a single
/// quotation mark for a double one.
pub fn plain_text(alloc: Global, bytes: &[u8]) -> Result<String, AllocError>
    ensures { IfOk result (λ text. string_bytes text ≡ claims.plain bytes.now) }
{
    let mut text = String::new(alloc);
    for byte in bytes {
        push_sign(&mut text, *byte)?;
    }
    Ok(text)
}

// Why a device aborted, and in which attempt.
fn reason_words(alloc: Global, reason: Option<Reason>) -> Result<String, AllocError>
    ensures { IfOk result (λ text. string_bytes text ≡ claims.reason_words reason) }
{
    match reason {
        Some(reason) => {
            let words = plain_text(alloc, reason.words.as_slice())?;
            let (words, seq) = (words.as_str(), reason.seq);
            format!(in alloc; "\"{words}\" (attempt {seq})")
        }
        None => Ok(String::new(alloc)),
    }
}

// A unit after a space; nothing if there is none.
fn unit_after(alloc: Global, unit: &[u8]) -> Result<String, AllocError>
    ensures { IfOk result (λ text. string_bytes text ≡ claims.unit_after unit.now) }
{
    if unit.is_empty() {
        return Ok(String::new(alloc));
    }
    let unit = plain_text(alloc, unit)?;
    let unit = unit.as_str();
    format!(in alloc; " {unit}")
}

// Where a device is, and where it goes; nothing if it does not tell.
fn position_words(alloc: Global, position: Option<Position>) -> Result<String, AllocError>
    ensures { IfOk result (λ text. string_bytes text ≡ claims.position_words position) }
{
    match position {
        Some(position) => {
            let unit = unit_after(alloc, position.unit.as_slice())?;
            let (at, goal, unit) = (position.at, position.goal, unit.as_str());
            format!(in alloc; "at {at} of {goal}{unit}")
        }
        None => Ok(String::new(alloc)),
    }
}

// Who made a device; nothing if it does not tell.
fn identity_words(alloc: Global, identity: Option<Words>) -> Result<String, AllocError>
    ensures { IfOk result (λ text. string_bytes text ≡ claims.identity_words identity) }
{
    match identity {
        Some(words) => {
            let words = plain_text(alloc, words.as_slice())?;
            let words = words.as_str();
            format!(in alloc; "it is \"{words}\"")
        }
        None => Ok(String::new(alloc)),
    }
}

// What a device told of this kind; nothing if it told nothing of it.
fn claim_words(alloc: Global, kind: Kind, told: &Claims) -> Result<String, AllocError>
    ensures { IfOk result (λ text. string_bytes text ≡ claims.claim_words kind told.now) }
{
    match kind {
        Kind::Position => position_words(alloc, told.position),
        Kind::Reason => reason_words(alloc, told.reason),
        Kind::Identity => identity_words(alloc, told.identity),
    }
}

// Puts what a device told of this kind after the texts, with its number.
#[tactic(auto, unfolding(crate::specs::Claims::claim_texts))]
fn push_claim(
    alloc: Global,
    texts: &mut Vec<String>,
    kind: Kind,
    contact: &Contacted,
) -> Result<(), AllocError>
    ensures { OnOk result (map string_bytes texts.new.items
        ≡ map string_bytes texts.old.items ++ claims.claim_texts kind contact.now) }
{
    let words = claim_words(alloc, kind, &contact.claims)?;
    if words.len() == 0 {
        return Ok(());
    }
    let (device, words) = (contact.device.number(), words.as_str());
    texts.push(format!(in alloc; "{device}: {words}")?)?;
    Ok(())
}

// Puts what each device told of this kind after the texts.
fn push_claims(
    alloc: Global,
    texts: &mut Vec<String>,
    kind: Kind,
    network: &[Contacted],
) -> Result<(), AllocError>
    ensures { OnOk result (map string_bytes texts.new.items
        ≡ map string_bytes texts.old.items ++ flat_map (claims.claim_texts kind) network.now) }
{
    for contact in network {
        push_claim(alloc, texts, kind, contact)?;
    }
    Ok(())
}

/// All that devices told of themselves: what is of now first.
pub(crate) fn claim_texts(alloc: Global, network: &[Contacted]) -> Result<Vec<String>, AllocError>
    ensures { IfOk result (λ texts. map string_bytes texts.items ≡ claims.all_claims network.now) }
{
    let mut texts = Vec::new(alloc);
    push_claims(alloc, &mut texts, Kind::Position, network)?;
    push_claims(alloc, &mut texts, Kind::Reason, network)?;
    push_claims(alloc, &mut texts, Kind::Identity, network)?;
    Ok(texts)
}

// What the relay says of the device.
fn contact_of(device: DeviceNo, network: &[Contacted]) -> Option<&Contacted>
    ensures { option_copied result ≡ claims.contact_of device network.now }
{
    network.iter().find(|contact| contact.device == device)
}

// The words of a reason that is of this attempt.
fn of_attempt(seq: u32, reason: Option<Reason>) -> Option<Words>
    ensures { result ≡ claims.of_attempt seq reason }
{
    match reason {
        Some(reason) if reason.seq == seq => Some(reason.words),
        _ => None,
    }
}

// Why the device says that it aborted the attempt, if it says so.
#[tactic(auto, unfolding(crate::specs::Claims::reason_of))]
fn reason_of(network: &[Contacted], seq: u32, device: DeviceNo) -> Option<Words>
    ensures { result ≡ claims.reason_of network.now seq device }
{
    match contact_of(device, network) {
        Some(contact) => of_attempt(seq, contact.claims.reason),
        None => None,
    }
}

// That the device says so.
fn says_words(alloc: Global, device: DeviceNo, words: &[u8]) -> Result<String, AllocError>
    ensures { IfOk result (λ text. string_bytes text ≡ claims.says_words device words.now) }
{
    let words = plain_text(alloc, words)?;
    let (device, words) = (device.number(), words.as_str());
    format!(in alloc; "       device {device} says: \"{words}\"")
}

/// Puts the line of what the device says of why it aborted the attempt after the lines, if it says so.
#[tactic(auto, unfolding(crate::specs::Claims::says_lines))]
pub(crate) fn push_says(
    alloc: Global,
    lines: &mut Vec<BoardLine>,
    network: &[Contacted],
    seq: u32,
    device: DeviceNo,
) -> Result<(), AllocError>
    ensures { OnOk result (map said_of lines.new.items
        ≡ map said_of lines.old.items ++ claims.says_lines network.now seq device) }
{
    if let Some(words) = reason_of(network, seq, device) {
        let said = says_words(alloc, device, words.as_slice())?;
        lines.push(BoardLine::bare(alloc, said))?;
    }
    Ok(())
}

// Whether it has one.
#[tactic(auto, unfolding(crate::specs::Claims::has_said))]
fn has_said(network: &[Contacted], seq: u32, device: DeviceNo) -> bool
    ensures { result ≡ claims.has_said network.now seq device }
{
    reason_of(network, seq, device).is_some()
}

/// How many of these devices have one.
pub(crate) fn count_said(network: &[Contacted], seq: u32, devices: &[DeviceNo]) -> usize
    ensures { result ≡ count_by (claims.has_said network.now seq) devices.now }
{
    devices
        .iter()
        .filter(|device| has_said(network, seq, **device))
        .count()
}

// Whether the device failed.
fn is_failed(answer: Answer) -> bool
    ensures { result ≡ claims.is_failed answer }
{
    matches!(answer, Answer::Failed)
}

// Puts the line of a device of a live attempt after the lines, if it failed in it and says why.
#[tactic(auto, unfolding(crate::specs::Claims::answer_says))]
fn push_answer_says(
    alloc: Global,
    lines: &mut Vec<BoardLine>,
    network: &[Contacted],
    seq: u32,
    answer: &DeviceAnswer,
) -> Result<(), AllocError>
    ensures { OnOk result (map said_of lines.new.items
        ≡ map said_of lines.old.items ++ claims.answer_says network.now seq answer.now) }
{
    if is_failed(answer.answer) {
        push_says(alloc, lines, network, seq, answer.device)?;
    }
    Ok(())
}

/// Puts what the devices of a live attempt say that failed in it after the lines.
pub(crate) fn push_answers_say(
    alloc: Global,
    lines: &mut Vec<BoardLine>,
    network: &[Contacted],
    seq: u32,
    answers: &[DeviceAnswer],
) -> Result<(), AllocError>
    ensures { OnOk result (map said_of lines.new.items
        ≡ map said_of lines.old.items ++ flat_map (claims.answer_says network.now seq) answers.now) }
{
    for answer in answers {
        push_answer_says(alloc, lines, network, seq, answer)?;
    }
    Ok(())
}

// Whether it has one.
#[tactic(auto, unfolding(crate::specs::Claims::has_answer_said))]
fn has_answer_said(network: &[Contacted], seq: u32, answer: &DeviceAnswer) -> bool
    ensures { result ≡ claims.has_answer_said network.now seq answer.now }
{
    is_failed(answer.answer) && has_said(network, seq, answer.device)
}

/// How many lines that takes.
pub(crate) fn count_answers_said(network: &[Contacted], seq: u32, answers: &[DeviceAnswer]) -> usize
    ensures { result ≡ count_by (claims.has_answer_said network.now seq) answers.now }
{
    answers
        .iter()
        .filter(|answer| has_answer_said(network, seq, answer))
        .count()
}
