//! Cues that are stood by together, with one press.
ghost use Rattle.std.specs.Prelude.{◌≡◌, ◌++◌, IfOk, OnOk, filter, find, is_some, map};
ghost use Rattle.std.specs.List.{list_all};
ghost use Rattle.std.specs.Option.{option_copied};
ghost use Rattle.cue_show.specs.Number.{same_text};
ghost use Rattle.cue_show.specs.Parts.{uses};
ghost use Rattle.cue_show_file.specs.Together as together;
ghost use Rattle.cue_show_file.specs.declared.together.Group.{Group};

use crate::file::{Companions, CueEntry, ShowFile};
use cue_show::{CueNo, DeviceNo, Part};
use std::alloc::{AllocError, Global};

/// How many cues may stand by together with one: a controller has eight live attempts at most.
pub const MAX_COMPANIONS: usize = 7;

/// A cue, and those that are stood by together with it.
#[derive(Drop)]
pub struct Group {
    pub first: CueNo,
    pub others: Companions,
}

// The first entry of the cue.
fn entry_in(entries: &[CueEntry], cue: CueNo) -> Option<&CueEntry>
    ensures { option_copied result ≡ together.entry_in entries.now cue }
{
    entries.iter().find(|entry| entry.number == cue)
}

// Whether one of the parts is for the device.
fn uses(device: DeviceNo, parts: &[Part]) -> bool
    ensures { result ≡ uses device parts.now }
{
    parts.iter().any(|part| part.device == device)
}

// Whether some of these parts are for devices of those.
fn are_shared(parts: &[Part], others: &[Part]) -> bool
    ensures { result ≡ together.are_shared parts.now others.now }
{
    parts.iter().any(|part| uses(part.device, others))
}

// The parts of the cue; none if there is no such cue.
fn parts_in(entries: &[CueEntry], cue: CueNo) -> &[Part]
    ensures { result.now ≡ together.parts_of (together.entry_in entries.now cue) }
{
    match entry_in(entries, cue) {
        Some(entry) => entry.parts.as_slice(),
        None => &[],
    }
}

// Whether the two cues can be live at once.
pub(crate) fn are_apart(entries: &[CueEntry], cue: CueNo, other: CueNo) -> bool
    ensures { result ≡ together.are_apart entries.now cue other }
{
    cue != other && !are_shared(parts_in(entries, cue), parts_in(entries, other))
}

// Whether the cue can be live beside each of the others.
fn is_apart(entries: &[CueEntry], cue: CueNo, others: &[CueNo]) -> bool
    ensures { result ≡ list_all (together.are_apart entries.now cue) others.now }
{
    others.iter().all(|other| are_apart(entries, cue, *other))
}

// Whether each two of the cues can be live at once.
fn all_apart(entries: &[CueEntry], cues: &[CueNo]) -> bool
    ensures { result ≡ together.all_apart entries.now cues.now }
{
    match cues {
        [] => true,
        [first, rest @ ..] => is_apart(entries, *first, rest) && all_apart(entries, rest),
    }
}

// Whether the file has each of the cues.
fn are_known(entries: &[CueEntry], cues: &[CueNo]) -> bool
    ensures { result ≡ list_all (λ c. is_some (together.entry_in entries.now c)) cues.now }
{
    cues.iter().all(|cue| entry_in(entries, *cue).is_some())
}

/// Whether the cue can be stood by with its companions: they are few, the file has each, and all of them can be live at
/// once.
pub(crate) fn is_group(entries: &[CueEntry], entry: &CueEntry) -> bool
    ensures { result ≡ together.is_group entries.now entry.now }
{
    let others = entry.companions.as_slice();
    others.len() <= MAX_COMPANIONS
        && (are_known(entries, others)
            && (is_apart(entries, entry.number, others) && all_apart(entries, others)))
}

// Whether it stands by with others, and can.
fn is_accompanied(entries: &[CueEntry], entry: &CueEntry) -> bool
    ensures { result ≡ together.is_accompanied entries.now entry.now }
{
    !entry.companions.as_slice().is_empty() && is_group(entries, entry)
}

// The cue with those that stand by with it.
fn group_of(alloc: Global, entry: &CueEntry) -> Result<Group, AllocError>
    ensures { IfOk result (λ group. group ≡ together.group_of entry.now) }
{
    let others = Vec::from_slice(alloc, entry.companions.as_slice())?;
    Ok(Group {
        first: entry.number,
        others: Companions::of(others),
    })
}

// Puts each of these that stands by with others after the groups.
fn push_groups(
    alloc: Global,
    groups: &mut Vec<Group>,
    entries: &[CueEntry],
    rest: &[CueEntry],
) -> Result<(), AllocError>
    ensures { OnOk result (groups.new.items
        ≡ groups.old.items ++ map together.group_of (filter (together.is_accompanied entries.now) rest.now)) }
{
    match rest {
        [] => Ok(()),
        [first, rest @ ..] => {
            if is_accompanied(entries, first) {
                groups.push(group_of(alloc, first)?)?;
            }
            push_groups(alloc, groups, entries, rest)
        }
    }
}

/// Each cue of a file with those that are stood by together with it. One that `review_of` finds fault with is not among
/// them: it is stood by alone.
pub fn groups_of(alloc: Global, file: &ShowFile) -> Result<Vec<Group>, AllocError>
    ensures { IfOk result (λ groups. groups.items ≡ together.groups_in file.now) }
{
    let mut groups = Vec::new(alloc);
    push_groups(alloc, &mut groups, &file.cues, &file.cues)?;
    Ok(groups)
}

// The first group of the cue.
fn group_in(groups: &[Group], cue: CueNo) -> Option<&Group>
    ensures { option_copied result ≡ find (λ (g : Group). same_text g.first cue) groups.now }
{
    groups.iter().find(|group| group.first == cue)
}

/// Those that are stood by together with the cue; none if it is stood by alone.
pub fn others_of(groups: &[Group], cue: CueNo) -> &[CueNo]
    ensures { result.now ≡ together.others_of groups.now cue }
{
    match group_in(groups, cue) {
        Some(group) => group.others.as_slice(),
        None => &[],
    }
}
