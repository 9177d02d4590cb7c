//! A show file with one change, as a new text of it.
ghost use Rattle.std.specs.Prelude.{◌≡◌, IfOk, IfSome, IsTrue, None, Some, false, string_bytes};
ghost use Rattle.cue_edit.specs.Editing as editing;
ghost use Rattle.cue_edit.specs.Outcome.{IsEdited, IfEdited, IfRefused, is_by_numbers};
ghost use Rattle.cue_edit.specs.Rewriting as rewriting;

use crate::comparing::{are_after, is_same_beside};
use crate::edit::{Change, Edit, EditFault, Sign, fault_of};
use crate::finding::{Block, Lines, Span};
use crate::rewriting::{Rewrite, ended, rewritten};
use cue_show::CueNo;
use cue_show_file::{Checked, Draft, Quoted, ShowFile, check, condensed, cue_text, read};
use std::alloc::{AllocError, Global};

/// A show file after an edit.
#[derive(Drop)]
pub struct Edited {
    /// Its new text.
    pub text: String,
    /// What that text says.
    pub file: ShowFile,
    /// How the text before was written anew.
    pub rewrite: Rewrite,
}

/// The keys of a cue in the order in which they are written, as far as people see what they say.
const KEYS: [&str; 5] = ["number", "name", "note", "color", "flag"];

// The key of a sign, and what it is to say; none: it is taken away.
fn key_and_value(sign: &Sign) -> (&'static str, Option<&str>) {
    match sign {
        Sign::Name(text) => ("name", text.as_deref()),
        Sign::Note(text) => ("note", text.as_deref()),
        Sign::Color(color) => ("color", color.map(|color| color.word())),
        Sign::Flag(flag) => ("flag", flag.map(|flag| flag.word())),
    }
}

// A text as TOML writes it.
fn quoted(alloc: Global, text: &str) -> Result<String, AllocError> {
    let quoted = Quoted { text };
    format!(in alloc; "{quoted}")
}

// Other bytes in place of these.
fn replace(span: Span, put: String) -> Rewrite
    ensures { IsTrue (rewriting.is_replacement result) }
{
    Rewrite::Replace {
        from: span.from,
        to: span.to,
        put,
    }
}

// The place at which a line with this key is put: after the last line with an earlier key, or after the header.
fn place_for(lines: &Lines<'_>, block: Block, key: &str) -> usize {
    let mut line = block.header;
    for earlier in KEYS {
        if earlier == key {
            break;
        }
        if let Some((found, _)) = lines.value(block, earlier) {
            line = line.max(found);
        }
    }
    lines.start(line.saturating_add(1))
}

// What is to go if the value of a line goes: the whole line, unless a comment stands in it.
fn span_without(lines: &Lines<'_>, line: usize, value: Span) -> Span {
    if lines.after(line, value).is_empty() {
        lines.span(line, line.saturating_add(1))
    } else {
        Span {
            from: lines.start(line),
            to: value.to,
        }
    }
}

// A cue with another value at a key that it has in a line.
fn set_value(
    alloc: Global,
    lines: &Lines<'_>,
    found: (usize, Span),
    value: Option<&str>,
) -> Result<Rewrite, AllocError>
    ensures { IfOk result (λ r. IsTrue (rewriting.is_replacement r)) }
{
    let (line, found) = found;
    match value {
        Some(value) => Ok(replace(found, quoted(alloc, value)?)),
        None => Ok(replace(span_without(lines, line, found), String::new(alloc))),
    }
}

// A cue with one line more.
fn add_line(
    alloc: Global,
    lines: &Lines<'_>,
    block: Block,
    key: &str,
    value: &str,
) -> Result<Rewrite, AllocError>
    ensures { IfOk result (λ r. IsTrue (rewriting.is_replacement r)) }
{
    let place = place_for(lines, block, key);
    let value = Quoted { text: value };
    let put = format!(in alloc; "{key} = {value}\n")?;
    Ok(replace(
        Span {
            from: place,
            to: place,
        },
        put,
    ))
}

// The text with a sign of a cue; none if its value cannot be seen.
fn sign_rewrite(
    alloc: Global,
    lines: &Lines<'_>,
    block: Block,
    sign: &Sign,
) -> Result<Option<Rewrite>, AllocError>
    ensures { IfOk result (λ found. IfSome found (λ r. IsTrue (rewriting.is_replacement r))) }
{
    let (key, value) = key_and_value(sign);
    if let Some(found) = lines.value(block, key) {
        return Ok(Some(set_value(alloc, lines, found, value)?));
    }
    if lines.has_key(block, key) {
        return Ok(None);
    }
    match value {
        Some(value) => Ok(Some(add_line(alloc, lines, block, key, value)?)),
        None => Ok(Some(replace(Span { from: 0, to: 0 }, String::new(alloc)))),
    }
}

// The lines of a cue of the file; none if its header cannot be seen.
fn block_of(lines: &Lines<'_>, file: &ShowFile, cue: CueNo) -> Option<Block> {
    let entry = file.cue(cue)?;
    Some(lines.block(entry.line?))
}

// The place after the last cue.
fn place_of_last(lines: &Lines<'_>, file: &ShowFile) -> Option<usize> {
    let entry = file.cues.last()?;
    Some(lines.start(lines.block(entry.line?).end))
}

// The place before this cue; after the last one, if none is given.
fn place_before(lines: &Lines<'_>, file: &ShowFile, before: Option<CueNo>) -> Option<usize> {
    match before {
        Some(before) => Some(lines.start(block_of(lines, file, before)?.first)),
        None => place_of_last(lines, file),
    }
}

// The text with these lines at another place.
fn carry(lines: Span, place: usize) -> Rewrite
    ensures { IsTrue (rewriting.is_carrying result) }
{
    if place <= lines.from {
        Rewrite::Carry {
            from: place,
            middle: lines.from,
            to: lines.to,
        }
    } else {
        Rewrite::Carry {
            from: lines.from,
            middle: lines.to,
            to: place,
        }
    }
}

// A line without anything, if these lines have none at their end.
fn gap_after(lines: &str) -> &'static str {
    if lines.ends_with("\n\n") { "" } else { "\n" }
}

// The text with a copy of a cue after it; none if its number cannot be seen.
fn copy_rewrite(
    alloc: Global,
    text: &str,
    lines: &Lines<'_>,
    block: Block,
    number: CueNo,
) -> Result<Option<Rewrite>, AllocError>
    ensures { IfOk result (λ found. IfSome found (λ r. IsTrue (rewriting.is_insertion r))) }
{
    let Some((_, value)) = lines.value(block, KEYS[0]) else {
        return Ok(None);
    };
    let whole = lines.span(block.header, block.end);
    let before = text.get(whole.from..value.from).unwrap_or("");
    let after = text.get(value.to..whole.to).unwrap_or("");
    let number = Quoted {
        text: cue_text(&number),
    };
    let gap = gap_after(after);
    let put = format!(in alloc; "{gap}{before}{number}{after}")?;
    Ok(Some(Rewrite::Replace {
        from: whole.to,
        to: whole.to,
        put,
    }))
}

// How a text is to be written anew; none if that cannot be seen in it.
fn rewrite_of(
    alloc: Global,
    text: &str,
    file: &ShowFile,
    edit: &Edit,
) -> Result<Option<Rewrite>, AllocError>
    ensures { IfOk result (λ found. IfSome found (λ r. IsTrue (rewriting.is_for edit.now.change r))) }
{
    let lines = Lines::of(alloc, text)?;
    let Some(block) = block_of(&lines, file, edit.cue) else {
        return Ok(None);
    };
    match &edit.change {
        Change::Sign(sign) => sign_rewrite(alloc, &lines, block, sign),
        Change::Before(before) => match place_before(&lines, file, *before) {
            Some(place) => Ok(Some(carry(lines.span(block.first, block.end), place))),
            None => Ok(None),
        },
        Change::Copy(number) => copy_rewrite(alloc, text, &lines, block, *number),
    }
}

// A text that was written anew, if it says what was asked for; else why it is not taken.
fn judged(
    alloc: Global,
    file: &ShowFile,
    edit: &Edit,
    text: String,
    rewrite: Rewrite,
) -> Result<Result<Edited, EditFault>, AllocError>
    ensures edited { IfEdited result (IsEdited edit.now file.now) }
    ensures text { IfEdited result (λ e. string_bytes e.text ≡ string_bytes text) }
    ensures rewrite { IfEdited result (λ e. e.rewrite ≡ rewrite) }
    ensures refused { IfRefused result (λ fault. is_by_numbers fault ≡ false) }
{
    let Draft {
        file: new,
        findings,
        ..
    } = read(alloc, text.as_str())?;
    let Checked {
        findings: refused,
        ..
    } = check(alloc, &new)?;
    if !findings.is_empty() || !refused.is_empty() {
        return Ok(Err(EditFault::Mistakes(condensed(alloc, findings, refused)?)));
    }
    if !is_same_beside(file, &new) || !are_after(edit, &file.cues, &new.cues) {
        return Ok(Err(EditFault::Form));
    }
    Ok(Ok(Edited {
        text,
        file: new,
        rewrite,
    }))
}

/// A show file with one change: its new text is made of the old one, read again, and compared with what was asked for.
/// The file has to be the one that the text says, without a mistake; of any other one nothing is taken. It takes time
/// and memory for a reading of the whole text.
///
/// `NoCue`, `NoPlace` and `Taken` come of the numbers alone, and before anything else; `Mistakes` if the changed file
/// would have some, and `Form` if the change cannot be made in this text.
pub fn apply(
    alloc: Global,
    text: &str,
    file: &ShowFile,
    edit: &Edit,
) -> Result<Result<Edited, EditFault>, AllocError>
    ensures edited { IfEdited result (IsEdited edit.now file.now) }
    ensures text { IfEdited result (λ e. string_bytes e.text
        ≡ rewriting.rewritten e.rewrite (rewriting.ended text.now)) }
    ensures shape { IfEdited result (λ e. IsTrue (rewriting.is_for edit.now.change e.rewrite)) }
    ensures refused { IfRefused result (λ fault. IsTrue (is_by_numbers fault)
        → editing.fault_of edit.now file.now.cues.items ≡ Some fault) }
    ensures never { IfEdited result (λ _. editing.fault_of edit.now file.now.cues.items ≡ None) }
{
    if let Some(fault) = fault_of(edit, &file.cues) {
        return Ok(Err(fault));
    }
    let whole = ended(alloc, text)?;
    let Some(rewrite) = rewrite_of(alloc, whole.as_str(), file, edit)? else {
        return Ok(Err(EditFault::Form));
    };
    match rewritten(alloc, whole.as_str(), &rewrite)? {
        Some(text) => judged(alloc, file, edit, text, rewrite),
        None => Ok(Err(EditFault::Form)),
    }
}
