//! How long fields are, before they are written. A length that 64 bits do not hold counts as the most that they hold.
ghost use Rattle.std.specs.Prelude.{◌≡◌, ◌+◌, ◌≤◌, length, min};
ghost use Rattle.std.specs.List.{flat_map};
ghost use Rattle.cue_show.specs.declared.limits.TheConstants.{MAX_CUE_BYTES};
ghost use Rattle.cue_records.specs.Fields.{text_text, flag_text, part_text, parts_text};

use crate::parts_form::PartsForm;
use cue_show::{CueNo, Part, Parts};

/// How long a cue number is, with its length before it.
pub(crate) fn cue_len(cue: CueNo) -> u64
    ensures value { result ≡ length (text_text cue) }
    ensures short { result ≤ 1 + MAX_CUE_BYTES }
{
    1 + cue.text().len() as u64
}

fn flag_len(form: PartsForm, optional: bool) -> u64
    ensures { result ≡ length (flag_text form optional) }
{
    match form {
        PartsForm::Plain => 0,
        PartsForm::Flagged => 1,
    }
}

fn part_len(form: PartsForm, part: &Part) -> u64
    ensures { result ≡ min (length (part_text form part.now)) u64.MAX }
{
    let frame = flag_len(form, part.optional) + 2;
    (part.bytes.as_slice().len() as u64).saturating_add(frame)
}

fn part_list_len(form: PartsForm, parts: &[Part]) -> u64
    ensures { result ≡ min (length (flat_map (part_text form) parts.now)) u64.MAX }
{
    let mut len: u64 = 0;
    for part in parts {
        len = len.saturating_add(part_len(form, part));
    }
    len
}

/// How long the parts of a cue are, with their count before them.
pub(crate) fn parts_len(form: PartsForm, parts: &Parts) -> u64
    ensures { result ≡ min (length (parts_text form parts.now)) u64.MAX }
{
    part_list_len(form, parts.as_slice()).saturating_add(1)
}
