//! A part of a pattern, matched with many names.

ghost use Rattle.std.specs.Prelude.{◌≡◌, ◌≤◌, ◌++◌, ℕ, List, length, map, IfOk, OnOk, ◌<◌, [], slice_index_or};
ghost use Rattle.cue_pattern.specs.Matching.{part_matches};
ghost use Rattle.cue_pattern.specs.Lanes.{lane, Stands};

use crate::lane_steps;
use crate::lanes::Lanes;
use crate::limits::{FEW, LANES};
use crate::piece::Part;
use std::alloc::{AllocError, Global};

/// The names that the part matches, by their lanes.
fn matching_lanes(part: &Part, lanes: &Lanes) -> u64
    ensures { (j : ℕ) (name : List ℕ) → Stands lanes.now j name → lane j result ≡ part_matches part.now name }
{
    let mut reached = lanes.ends();
    let mut rest = part.pieces();
    while let [before @ .., last] = rest {
        lane_steps::step(last, lanes, &mut reached);
        rest = before;
    }
    reached[0]
}

/// Whether the word has the bit of the lane.
fn is_in_lane(word: u64, at: usize) -> bool
    requires { at < LANES }
    ensures { result ≡ lane at word }
{
    word >> at & 1 == 1
}

/// Adds for each name whether its bit is set.
fn push_lanes(
    word: u64,
    names: &[&[u8]],
    part: &Part,
    matched: &mut Vec<bool>,
) -> Result<(), AllocError>
    requires matching { (j : ℕ) → j < length names.now
        → lane j word ≡ part_matches part.now (slice_index_or (map (λ name. name.now) names.now) j []) }
    requires few { length names.now ≤ LANES }
    ensures { OnOk result (matched.new.items ≡ matched.old.items
        ++ map (λ name. part_matches part.now name.now) names.now) }
{
    for lane in 0..names.len() {
        matched.push(is_in_lane(word, lane))?;
    }
    Ok(())
}

/// Adds for each name whether the part matches it, one name after the other.
fn push_singly(part: &Part, names: &[&[u8]], matched: &mut Vec<bool>) -> Result<(), AllocError>
    ensures { OnOk result (matched.new.items ≡ matched.old.items
        ++ map (λ name. part_matches part.now name.now) names.now) }
{
    for name in names {
        matched.push(part.matches(name)?)?;
    }
    Ok(())
}

/// Adds for each name of a group whether the part matches it.
fn push_group(part: &Part, names: &[&[u8]], matched: &mut Vec<bool>) -> Result<(), AllocError>
    requires { length names.now ≤ LANES }
    ensures { OnOk result (matched.new.items ≡ matched.old.items
        ++ map (λ name. part_matches part.now name.now) names.now) }
{
    if names.len() < FEW {
        return push_singly(part, names, matched);
    }
    let Some(lanes) = Lanes::of(names) else {
        return push_singly(part, names, matched);
    };
    push_lanes(matching_lanes(part, &lanes), names, part, matched)
}

impl Part {
    /// For each name whether the part matches it. Names of up to 16 bytes that are digits and points are matched 64 at a
    /// time, so that a long pattern costs little over a long list.
    pub fn matches_each(&self, alloc: Global, names: &[&[u8]]) -> Result<Vec<bool>, AllocError>
        ensures exact { IfOk result (λ matched. matched.items
            ≡ map (λ name. part_matches self.now name.now) names.now) }
    {
        let mut matched = Vec::with_capacity(alloc, names.len())?;
        let mut from = 0;
        while from < names.len() {
            let to = from + LANES.min(names.len() - from);
            push_group(self, &names[from..to], &mut matched)?;
            from = to;
        }
        Ok(matched)
    }
}
