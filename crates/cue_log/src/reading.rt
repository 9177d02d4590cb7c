// Reading the encoding of an area from the front. Any bytes at all give an answer.
ghost use Rattle.std.specs.Prelude.{◌≡◌, ◌<◌, ◌≤◌, ◌+◌, ◌↔◌, None, Some, MatchOption, IsTrue};
ghost use Rattle.std.specs.Prelude.{IsSome, IfSome, IfOk};
ghost use Rattle.std.specs.Prelude.{length};
ghost use Rattle.std.specs.Option.{option_map};
ghost use Rattle.cue_log.specs.Area.{IsArea, area_text};
ghost use Rattle.cue_log.specs.Parts.{parts_area};
ghost use Rattle.cue_log.specs.Reading.{frame_at, payloads_at, area_with, area_at, bytes_left};

use crate::area::{HEAD_LEN, MAX_AREA, MAX_PAYLOAD, OPEN};
use crate::records::Records;
use std::alloc::{AllocError, Global};

/// What stands in front of the records of an area, and the bytes from the first of their gates on.
#[derive(Drop)]
pub(crate) struct Front<'a> {
    pub generation: u64,
    pub snapshot: &'a [u8],
    pub tail: &'a [u8],
}

/// A length of at most `most` and so many bytes: those, and what follows them.
#[tactic(auto, unfolding(crate::specs::Reading::frame_at, crate::specs::Reading::four_at))]
pub(crate) fn frame(bytes: &[u8], most: usize) -> Option<(&[u8], &[u8])>
    ensures frame { MatchOption result (frame_at most bytes.now ≡ None)
        (λ parts. frame_at most bytes.now ≡ Some (parts.0.now, parts.1.now)) }
    ensures len { IfSome result (λ parts. 4 + length parts.0.now + length parts.1.now ≡ length bytes.now) }
    ensures short { IfSome result (λ parts. length parts.0.now ≤ most) }
{
    let (len, behind) = bytes.split_first_chunk::<4>()?;
    let len = u32::from_be_bytes(*len) as usize;
    if len > most {
        return None;
    }
    if len > behind.len() {
        return None;
    }
    Some(behind.split_at(len))
}

// The front of an area's encoding, if it is there in whole.
#[tactic(auto, unfolding(crate::specs::Reading::eight_at))]
fn split_front(text: &[u8]) -> Option<Front<'_>>
    ensures front { MatchOption result (area_at text.now ≡ None)
        (λ front. area_at text.now ≡ area_with front.generation front.snapshot.now
        (payloads_at (length front.tail.now) front.tail.now)) }
    ensures len { IfSome result
        (λ front. HEAD_LEN + length front.snapshot.now + length front.tail.now ≡ length text.now) }
{
    let (gate, after) = text.split_first()?;
    if *gate != OPEN {
        return None;
    }
    let (generation, behind) = after.split_first_chunk::<8>()?;
    let generation = u64::from_be_bytes(*generation);
    let (snapshot, tail) = frame(behind, MAX_AREA as usize)?;
    Some(Front {
        generation,
        snapshot,
        tail,
    })
}

// How many bytes stand from the last gate on, where the records end.
fn len_left(tail: &[u8]) -> Option<usize>
    ensures { result ≡ bytes_left tail.now }
{
    let mut rest = tail;
    while let Some((gate, after)) = rest.split_first() {
        if *gate != OPEN {
            return Some(rest.len());
        }
        let (_, behind) = frame(after, MAX_PAYLOAD)?;
        rest = behind;
    }
    None
}

/// Whether the encoding of an area stands in front of these bytes, whole.
pub(crate) fn is_whole(text: &[u8]) -> bool
    ensures { IsTrue result ↔ IsSome (area_at text.now) }
{
    match split_front(text) {
        Some(front) => len_left(front.tail).is_some(),
        None => false,
    }
}

/// An area, and where its last gate stands.
#[derive(Drop)]
pub(crate) struct Parts {
    pub generation: u64,
    pub snapshot: Vec<u8>,
    pub records: Records,
    pub end: u64,
}

/// The area that stands in front of these bytes, if there is one.
pub(crate) fn read_parts(alloc: Global, text: &[u8]) -> Result<Option<Parts>, AllocError>
    requires { length text.now ≤ MAX_AREA }
    ensures area { IfOk result (λ parts. option_map parts_area parts ≡ area_at text.now) }
    ensures found { IfOk result (λ parts. IfSome parts (λ whole. IsArea (parts_area whole) text.now)) }
    ensures few { IfOk result (λ parts. IfSome parts (λ whole. length whole.records ≤ whole.end)) }
    ensures end { IfOk result (λ parts. IfSome parts (λ whole. whole.end ≡ length (area_text (parts_area whole)))) }
    ensures within { IfOk result (λ parts. IfSome parts (λ whole. whole.end < length text.now)) }
{
    let Some(front) = split_front(text) else {
        return Ok(None);
    };
    let Some(behind) = len_left(front.tail) else {
        return Ok(None);
    };
    let records = Records::of(alloc, front.tail)?;
    let snapshot = front.snapshot.to_vec(alloc)?;
    Ok(Some(Parts {
        generation: front.generation,
        snapshot,
        records,
        end: (text.len() - behind) as u64,
    }))
}
