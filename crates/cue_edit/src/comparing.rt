//! Whether the cues of a file are those of another one after a change: a file that was read again is compared with what
//! was asked for.
ghost use Rattle.std.specs.Prelude.{◌≡◌, ◌∷◌, IsTrue, find, map, option_copied, option_map, string_bytes};
ghost use Rattle.cue_show.specs.Number.{same_text};
ghost use Rattle.cue_show_file.specs.declared.file.CueEntry.{CueEntry};
ghost use Rattle.cue_edit.specs.Editing as editing;

use crate::edit::{Change, Edit, Sign};
use cue_show::{CueNo, Part};
use cue_show_file::{CueEntry, DeviceEntry, Form, ShowFile};

// Whether two texts are the same, or there is neither.
fn are_same_texts(left: &Option<String>, right: &Option<String>) -> bool
    ensures { IsTrue result → option_map string_bytes left.now ≡ option_map string_bytes right.now }
{
    match (left, right) {
        (None, None) => true,
        (Some(left), Some(right)) => left.as_str() == right.as_str(),
        _ => false,
    }
}

// Whether two cue numbers are the same.
#[tactic(auto, using(crate::proofs::EditingLemmas::one_number))]
fn is_same_number(left: CueNo, right: CueNo) -> bool
    ensures { IsTrue result → left ≡ right }
{
    left == right
}

// Whether two lists of cues are the same.
fn are_same_numbers(left: &[CueNo], right: &[CueNo]) -> bool
    ensures { IsTrue result → left.now ≡ right.now }
{
    match left {
        [] => right.is_empty(),
        [first, rest @ ..] => match right {
            [] => false,
            [other, others @ ..] => is_same_number(*first, *other)
                && are_same_numbers(rest, others),
        },
    }
}

// Whether two parts are the same.
fn is_same_part(left: &Part, right: &Part) -> bool
    ensures { IsTrue result → left.now ≡ right.now }
{
    left.device == right.device
        && left.optional == right.optional
        && left.bytes.as_slice() == right.bytes.as_slice()
}

// Whether two lists of parts are the same.
fn are_same_parts(left: &[Part], right: &[Part]) -> bool
    ensures { IsTrue result → left.now ≡ right.now }
{
    match left {
        [] => right.is_empty(),
        [first, rest @ ..] => match right {
            [] => false,
            [other, others @ ..] => is_same_part(first, other) && are_same_parts(rest, others),
        },
    }
}

// Whether two lists of forms are the same.
fn are_same_forms(left: &[Form], right: &[Form]) -> bool
    ensures { IsTrue result → left.now ≡ right.now }
{
    match left {
        [] => right.is_empty(),
        [first, rest @ ..] => match right {
            [] => false,
            [other, others @ ..] => first == other && are_same_forms(rest, others),
        },
    }
}

// Whether two cues are the same but for their numbers and their signs.
fn have_same_rest(left: &CueEntry, right: &CueEntry) -> bool
    ensures companions { IsTrue result → left.now.companions ≡ right.now.companions }
    ensures parts { IsTrue result → left.now.parts ≡ right.now.parts }
    ensures forms { IsTrue result → left.now.forms ≡ right.now.forms }
{
    are_same_numbers(left.companions.as_slice(), right.companions.as_slice())
        && are_same_parts(left.parts.as_slice(), right.parts.as_slice())
        && are_same_forms(left.forms.as_slice(), right.forms.as_slice())
}

// Whether two cues have the same name and note.
fn have_same_texts(left: &CueEntry, right: &CueEntry) -> bool
    ensures name { IsTrue result → option_map string_bytes left.now.name ≡ option_map string_bytes right.now.name }
    ensures note { IsTrue result → option_map string_bytes left.now.note ≡ option_map string_bytes right.now.note }
{
    are_same_texts(&left.name, &right.name) && are_same_texts(&left.note, &right.note)
}

// Whether two cues are marked alike.
fn have_same_marks(left: &CueEntry, right: &CueEntry) -> bool
    ensures color { IsTrue result → left.now.color ≡ right.now.color }
    ensures flag { IsTrue result → left.now.flag ≡ right.now.flag }
{
    left.color == right.color && left.flag == right.flag
}

// Whether one cue is the other with this number.
fn is_renumbered(old: &CueEntry, number: CueNo, new: &CueEntry) -> bool
    ensures { IsTrue result → editing.seen new.now ≡ editing.renumbered number (editing.seen old.now) }
{
    is_same_number(new.number, number)
        && have_same_rest(old, new)
        && have_same_texts(old, new)
        && have_same_marks(old, new)
}

// Whether people see the same of two cues.
fn is_same(old: &CueEntry, new: &CueEntry) -> bool
    ensures { IsTrue result → editing.seen new.now ≡ editing.seen old.now }
{
    is_renumbered(old, old.number, new)
}

// Whether one cue is the other with this sign.
fn is_signed(old: &CueEntry, sign: &Sign, new: &CueEntry) -> bool
    ensures { IsTrue result → editing.seen new.now ≡ editing.signed sign.now (editing.seen old.now) }
{
    if !(is_same_number(new.number, old.number) && have_same_rest(old, new)) {
        return false;
    }
    match sign {
        Sign::Name(name) => are_same_texts(name, &new.name)
            && are_same_texts(&old.note, &new.note)
            && have_same_marks(old, new),
        Sign::Note(note) => are_same_texts(&old.name, &new.name)
            && are_same_texts(note, &new.note)
            && have_same_marks(old, new),
        Sign::Color(color) => have_same_texts(old, new)
            && new.color == *color
            && new.flag == old.flag,
        Sign::Flag(flag) => have_same_texts(old, new)
            && new.color == old.color
            && new.flag == *flag,
    }
}

// Whether one cue is the other with this sign if it has the number, and the same if not.
fn is_signed_at(cue: CueNo, sign: &Sign, old: &CueEntry, new: &CueEntry) -> bool
    ensures { IsTrue result → editing.seen new.now ≡ editing.signed_at cue sign.now (editing.seen old.now) }
{
    if old.number == cue {
        is_signed(old, sign, new)
    } else {
        is_same(old, new)
    }
}

// Whether these cues are the old ones with this sign.
fn are_signed(cue: CueNo, sign: &Sign, old: &[CueEntry], new: &[CueEntry]) -> bool
    ensures { IsTrue result
        → map editing.seen new.now ≡ map (editing.signed_at cue sign.now) (map editing.seen old.now) }
{
    match old {
        [] => new.is_empty(),
        [first, rest @ ..] => match new {
            [] => false,
            [other, others @ ..] => is_signed_at(cue, sign, first, other)
                && are_signed(cue, sign, rest, others),
        },
    }
}

// Whether these cues are the old ones without the one that has the number.
fn are_without(cue: CueNo, old: &[CueEntry], new: &[CueEntry]) -> bool
    ensures { IsTrue result → map editing.seen new.now ≡ editing.without cue (map editing.seen old.now) }
{
    match old {
        [] => new.is_empty(),
        [first, rest @ ..] => {
            if first.number == cue {
                return are_without(cue, rest, new);
            }
            match new {
                [] => false,
                [other, others @ ..] => is_same(first, other) && are_without(cue, rest, others),
            }
        }
    }
}

// Whether a cue has this number, if one is given.
fn is_at(number: &Option<CueNo>, entry: &CueEntry) -> bool
    ensures { result ≡ editing.is_at number.now (editing.seen entry.now) }
{
    match number {
        Some(number) => entry.number == *number,
        None => false,
    }
}

// Whether these cues are the old ones with the moved one at its new place.
fn are_placed(
    before: &Option<CueNo>,
    cue: CueNo,
    moved: &CueEntry,
    old: &[CueEntry],
    new: &[CueEntry],
) -> bool
    ensures { IsTrue result → map editing.seen new.now ≡ editing.placed before.now (editing.seen moved.now)
        (editing.without cue (map editing.seen old.now)) }
{
    match old {
        [] => match new {
            [last] => is_same(moved, last),
            _ => false,
        },
        [first, rest @ ..] => {
            if first.number == cue {
                return are_placed(before, cue, moved, rest, new);
            }
            match new {
                [] => false,
                [other, others @ ..] => {
                    if is_at(before, first) {
                        is_same(moved, other) && are_without(cue, old, others)
                    } else {
                        is_same(first, other) && are_placed(before, cue, moved, rest, others)
                    }
                }
            }
        }
    }
}

// The first cue with the number.
fn entry_in(entries: &[CueEntry], cue: CueNo) -> Option<&CueEntry>
    ensures { option_copied result ≡ find (λ (e : CueEntry). same_text e.number cue) entries.now }
{
    entries.iter().find(|entry| entry.number == cue)
}

// Whether these cues are the old ones with the one that has the number carried there.
#[tactic(auto, using(crate::proofs::EditingLemmas::carried_found))]
fn are_carried(before: &Option<CueNo>, cue: CueNo, old: &[CueEntry], new: &[CueEntry]) -> bool
    ensures { IsTrue result → map editing.seen new.now ≡ editing.carried before.now cue (map editing.seen old.now) }
{
    match entry_in(old, cue) {
        Some(moved) => are_placed(before, cue, moved, old, new),
        None => false,
    }
}

// Whether these cues are the old ones, each as it was.
fn are_same(old: &[CueEntry], new: &[CueEntry]) -> bool
    ensures { IsTrue result → map editing.seen new.now ≡ map editing.seen old.now }
{
    match old {
        [] => new.is_empty(),
        [first, rest @ ..] => match new {
            [] => false,
            [other, others @ ..] => is_same(first, other) && are_same(rest, others),
        },
    }
}

// Whether these cues begin with the copy of a cue, and then have the others as they were.
fn begin_with_copy(first: &CueEntry, number: CueNo, rest: &[CueEntry], new: &[CueEntry]) -> bool
    ensures { IsTrue result → map editing.seen new.now
        ≡ (editing.renumbered number (editing.seen first.now) ∷ map editing.seen rest.now) }
{
    match new {
        [] => false,
        [copy, others @ ..] => is_renumbered(first, number, copy) && are_same(rest, others),
    }
}

// Whether these cues are the old ones with a copy after the one that has the number.
fn are_copied(cue: CueNo, number: CueNo, old: &[CueEntry], new: &[CueEntry]) -> bool
    ensures { IsTrue result → map editing.seen new.now ≡ editing.copied cue number (map editing.seen old.now) }
{
    match old {
        [] => new.is_empty(),
        [first, rest @ ..] => match new {
            [] => false,
            [other, others @ ..] => {
                if !is_same(first, other) {
                    return false;
                }
                if first.number == cue {
                    begin_with_copy(first, number, rest, others)
                } else {
                    are_copied(cue, number, rest, others)
                }
            }
        },
    }
}

/// Whether these cues are the old ones after an edit.
pub(crate) fn are_after(edit: &Edit, old: &[CueEntry], new: &[CueEntry]) -> bool
    ensures { IsTrue result → map editing.seen new.now ≡ editing.cues_after edit.now old.now }
{
    match &edit.change {
        Change::Sign(sign) => are_signed(edit.cue, sign, old, new),
        Change::Before(before) => are_carried(before, edit.cue, old, new),
        Change::Copy(number) => are_copied(edit.cue, *number, old, new),
    }
}

// Whether a device is as it was, but for its line.
fn is_same_device(old: &DeviceEntry, new: &DeviceEntry) -> bool
    ensures { IsTrue result → editing.seen_device new.now ≡ editing.seen_device old.now }
{
    new.number == old.number
        && new.port == old.port
        && new.address == old.address
        && are_same_texts(&old.name, &new.name)
}

// Whether the devices are as they were, but for their lines.
fn are_same_devices(old: &[DeviceEntry], new: &[DeviceEntry]) -> bool
    ensures { IsTrue result → map editing.seen_device new.now ≡ map editing.seen_device old.now }
{
    match old {
        [] => new.is_empty(),
        [first, rest @ ..] => match new {
            [] => false,
            [other, others @ ..] => is_same_device(first, other) && are_same_devices(rest, others),
        },
    }
}

/// Whether a file says the same as before beside its cues.
pub(crate) fn is_same_beside(old: &ShowFile, new: &ShowFile) -> bool
    ensures port { IsTrue result → new.now.port ≡ old.now.port }
    ensures listen { IsTrue result → new.now.listen ≡ old.now.listen }
    ensures devices { IsTrue result
        → map editing.seen_device new.now.devices.items ≡ map editing.seen_device old.now.devices.items }
{
    new.port == old.port && new.listen == old.listen && are_same_devices(&old.devices, &new.devices)
}
