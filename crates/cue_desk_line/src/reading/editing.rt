//! The command `edit`, and what stands after it.
ghost use Rattle.std.specs.Prelude.{◌≡◌, IfOk, option_map, string_bytes};
ghost use Rattle.cue_desk_line.specs.Edits as edits;

use super::arguments::{Argument, Declared, FILE};
use super::words::Line;
use super::{cue_in, cue_of, or_unfit, text_in};
use clap::ArgMatches;
use cue_desk::line::{LineFault, unfit};
use cue_edit::{Change, Edit, Sign};
use cue_show_file::{Color, Flag};
use std::alloc::Global;

/// The command `edit`.
pub(super) const EDIT_COMMAND: Declared = Declared {
    name: "edit",
    about: "Change one thing of a cue of a show file:  cuedesk edit evening.toml 6 --name \"Wagons meet\"",
    arguments: &[
        FILE,
        Argument::OptionalWord("CUE", "The number of the cue, as 12.5"),
        Argument::OptionOf(
            "name",
            "TEXT",
            "What it is called; \"\" takes the name away",
        ),
        Argument::OptionOf(
            "note",
            "TEXT",
            "What the operator is to think of; \"\" takes the note away",
        ),
        Argument::OptionOf(
            "color",
            "COLOR",
            "red, orange, yellow, green, blue, purple or white; none takes it away",
        ),
        Argument::OptionOf("flag", "FLAG", "danger, fly or trap; none takes it away"),
        Argument::OptionOf("before", "OTHER", "Put it before this cue"),
        Argument::Flag("last", "Make it the last cue"),
        Argument::OptionOf(
            "copy",
            "NUMBER",
            "Put a copy of it after it, with this number",
        ),
        Argument::Flag(
            "undo",
            "Take the last change of the file back; once more, and it is made again",
        ),
    ],
};

/// What `edit` is to do.
#[derive(Drop)]
pub enum Editing {
    /// Change this.
    Change(Edit),
    /// Take the last change back.
    Undo,
}

/// The options of `edit` with a word after them.
const OPTIONS: [&str; 6] = ["name", "note", "color", "flag", "before", "copy"];

// How many changes are asked for.
fn count_of(found: &ArgMatches<'_>) -> usize {
    let options = OPTIONS.iter();
    let said = options.filter(|option| found.get_str(option).is_some());
    let flags = ["last", "undo"].iter().filter(|flag| found.get_flag(flag));
    said.count().saturating_add(flags.count())
}

// What a text is to be; an empty one is none.
fn text_of(alloc: Global, text: &str) -> Result<Option<String>, LineFault>
    ensures { IfOk result (λ said. option_map string_bytes said ≡ edits.text_said text.now) }
{
    if text.is_empty() {
        Ok(None)
    } else {
        Ok(Some(String::from_str(alloc, text)?))
    }
}

// The colour that a word is.
fn color_of(alloc: Global, word: &str) -> Result<Option<Color>, LineFault>
    ensures { IfOk result (λ color. edits.IsColorBy word.now color) }
{
    if word == "none" {
        return Ok(None);
    }
    let wanted = "is no colour: take red, orange, yellow, green, blue, purple, white, or none";
    Ok(Some(or_unfit(alloc, Color::read(word), word, wanted)?))
}

// The flag that a word is.
fn flag_of(alloc: Global, word: &str) -> Result<Option<Flag>, LineFault>
    ensures { IfOk result (λ flag. edits.IsFlagBy word.now flag) }
{
    if word == "none" {
        return Ok(None);
    }
    let wanted = "is no flag: take danger, fly, trap, or none";
    Ok(Some(or_unfit(alloc, Flag::read(word), word, wanted)?))
}

// The sign that stands there, if one does.
fn sign_in(alloc: Global, found: &ArgMatches<'_>) -> Result<Option<Sign>, LineFault>
    ensures { IfOk result (edits.IsSignBy found.now) }
{
    if let Some(text) = found.get_str("name") {
        return Ok(Some(Sign::Name(text_of(alloc, text)?)));
    }
    if let Some(text) = found.get_str("note") {
        return Ok(Some(Sign::Note(text_of(alloc, text)?)));
    }
    if let Some(word) = found.get_str("color") {
        return Ok(Some(Sign::Color(color_of(alloc, word)?)));
    }
    match found.get_str("flag") {
        Some(word) => Ok(Some(Sign::Flag(flag_of(alloc, word)?))),
        None => Ok(None),
    }
}

// The change that stands there; without any it is the last cue.
fn change_in(alloc: Global, found: &ArgMatches<'_>) -> Result<Change, LineFault>
    ensures { IfOk result (edits.IsChangeBy found.now) }
{
    if let Some(sign) = sign_in(alloc, found)? {
        return Ok(Change::Sign(sign));
    }
    if let Some(number) = found.get_str("before") {
        return Ok(Change::Before(Some(cue_of(alloc, number)?)));
    }
    match found.get_str("copy") {
        Some(number) => Ok(Change::Copy(cue_of(alloc, number)?)),
        None => Ok(Change::Before(None)),
    }
}

// What is to be done with the file.
fn editing_in(alloc: Global, found: &ArgMatches<'_>) -> Result<Editing, LineFault>
    ensures { IfOk result (edits.IsEditingBy found.now) }
{
    if found.get_flag("undo") {
        return Ok(Editing::Undo);
    }
    Ok(Editing::Change(Edit {
        cue: cue_in(alloc, found)?,
        change: change_in(alloc, found)?,
    }))
}

/// The command `edit`, with what stands after it: one change, and not two.
pub(super) fn edit_in(alloc: Global, found: &ArgMatches<'_>) -> Result<Line, LineFault>
    ensures { IfOk result (edits.IsEditBy found.now) }
{
    if count_of(found) != 1 {
        return Err(unfit(
            alloc,
            "edit",
            "wants one change: --name, --note, --color, --flag, --before, --last, --copy or --undo",
        ));
    }
    Ok(Line::Edit {
        file: text_in(alloc, found, "FILE")?,
        editing: editing_in(alloc, found)?,
    })
}
