//! The command `report`, and who asks: what stands after it.
ghost use Rattle.std.specs.Prelude.{◌≡◌, IfOk, IsTrue, Some};
ghost use Rattle.cue_desk_line.specs.Ends as spec;
ghost use Rattle.cue_desk_line.specs.declared.reading.reporting.End.TheVariants.{Mark};

use super::arguments::{Argument, Declared};
use super::words::Line;
use super::{option_in, or_unfit, text_in};
use clap::ArgMatches;
use cue_asker::AskerName;
use cue_desk::line::{LineFault, unfit};
use std::alloc::Global;

/// Which evening is told, and how.
#[derive(Drop)]
pub struct Report {
    /// The log of `serve`, or the file of a day.
    pub log: String,
    /// The show file, for names.
    pub file: String,
    /// As what it is told.
    pub form: Form,
    /// What the show is called; empty if that is not said.
    pub title: String,
    /// From where to where; the whole evening if that is not said.
    pub from: Option<End>,
    pub to: Option<End>,
    /// How many minutes the clock on the wall is ahead of UTC.
    pub ahead: i16,
    /// The file with the marks of the curtain, if there is one.
    pub marks: Option<String>,
}

/// Where what is told begins or ends.
#[derive(Clone, Copy, PartialEq, Eq, Debug)]
pub enum End {
    /// At this minute of the day.
    Minute(u16),
    /// At a mark of the curtain: where it first went up, or where it last came down.
    Mark,
}

/// As what an evening is told.
#[derive(Clone, Copy, PartialEq, Eq, Debug)]
pub enum Form {
    Text,
    Page,
    Table,
}

/// The command `report`.
pub(super) const REPORT_COMMAND: Declared = Declared {
    name: "report",
    about: "Tell an evening by the log of serve:  cuedesk report evening.log evening.toml --html >evening.html",
    arguments: &[
        Argument::Word("LOG", "The log of serve, or the file of a day"),
        Argument::Word("FILE", "The show file, for names"),
        Argument::Flag(
            "html",
            "As a page that stands alone, to look at and to print",
        ),
        Argument::Flag(
            "csv",
            "As a table for a spreadsheet, a row for each attempt",
        ),
        Argument::OptionOf("title", "TITLE", "What the show is called"),
        Argument::OptionOf(
            "marks",
            "FILE",
            "The marks of the curtain, as `mark` writes them",
        ),
        Argument::OptionOf(
            "from",
            "HH:MM|up",
            "From this time of the day on, or from the first curtain up of the marks on",
        ),
        Argument::OptionOf(
            "to",
            "HH:MM|down",
            "Up to this time of the day, or up to the last curtain down of the marks",
        ),
        Argument::OptionOf(
            "zone",
            "+HH:MM",
            "How far the clock on the wall is ahead of UTC, as +01:00 in Vienna in winter; else the times are UTC",
        ),
    ],
};

// The number that two digits are.
fn two_digits(tens: u8, ones: u8) -> Option<u16>
    ensures { result ≡ spec.two_digits tens ones }
{
    if tens.is_ascii_digit() && ones.is_ascii_digit() {
        Some(u16::from(tens.saturating_sub(b'0')) * 10 + u16::from(ones.saturating_sub(b'0')))
    } else {
        None
    }
}

// The minute of the day of an hour and a minute.
fn minute_at(hours: Option<u16>, minutes: Option<u16>) -> Option<u16>
    ensures { result ≡ spec.minute_at hours minutes }
{
    match (hours, minutes) {
        (Some(hours), Some(minutes)) if hours < 24 && minutes < 60 => Some(hours * 60 + minutes),
        _ => None,
    }
}

// The minute of the day that a text is, as `19:30`.
fn minute_of(text: &str) -> Option<u16>
    ensures { result ≡ spec.minute_of text.now }
{
    match text.as_bytes() {
        [tens, ones, b':', ten, one] => {
            minute_at(two_digits(*tens, *ones), two_digits(*ten, *one))
        }
        _ => None,
    }
}

// The end that a text is: this word of a mark, or a minute of the day.
fn end_of(text: &str, mark: &str) -> Option<End>
    ensures { result ≡ spec.end_of mark.now text.now }
{
    if text == mark {
        return Some(End::Mark);
    }
    match minute_of(text) {
        Some(minute) => Some(End::Minute(minute)),
        None => None,
    }
}

// An end, if the command line says it after this option. One that is a mark wants a file of marks.
fn end_in(
    alloc: Global,
    found: &ArgMatches<'_>,
    option: &str,
    mark: &str,
    has_marks: bool,
) -> Result<Option<End>, LineFault>
    ensures said { IfOk result (λ end. end ≡ spec.end_in found.now option.now mark.now) }
    ensures marked { IfOk result (λ end. end ≡ Some Mark → IsTrue has_marks) }
{
    let Some(text) = found.get_str(option) else {
        return Ok(None);
    };
    let wanted =
        "is no time of the day: write it as 19:30; or with --marks say --from up, or --to down";
    match or_unfit(alloc, end_of(text, mark), text, wanted)? {
        End::Minute(minute) => Ok(Some(End::Minute(minute))),
        End::Mark if has_marks => Ok(Some(End::Mark)),
        End::Mark => Err(unfit(
            alloc,
            text,
            "is a mark of the curtain: say with --marks FILE where the marks are",
        )),
    }
}

// How many minutes ahead of UTC a text is, as `+01:00`.
fn ahead_of(text: &str) -> Option<i16> {
    let (is_behind, time) = match text.strip_prefix("-") {
        Some(time) => (true, time),
        None => (false, text.strip_prefix("+")?),
    };
    let minutes = i16::try_from(minute_of(time)?).ok()?;
    if is_behind {
        minutes.checked_neg()
    } else {
        Some(minutes)
    }
}

// How many minutes the clock on the wall is ahead of UTC.
fn ahead_in(alloc: Global, found: &ArgMatches<'_>) -> Result<i16, LineFault> {
    let Some(text) = found.get_str("zone") else {
        return Ok(0);
    };
    let wanted = "is no distance from UTC: write it as +01:00 or -05:00";
    or_unfit(alloc, ahead_of(text), text, wanted)
}

// As what it is told.
fn form_in(found: &ArgMatches<'_>) -> Form {
    if found.get_flag("csv") {
        Form::Table
    } else if found.get_flag("html") {
        Form::Page
    } else {
        Form::Text
    }
}

// What is told by the command `report`.
fn told_in(alloc: Global, found: &ArgMatches<'_>) -> Result<Report, LineFault>
    ensures { IfOk result (λ report. spec.IsToldBy found.now report) }
{
    let marks = option_in(alloc, found, "marks")?;
    let from = end_in(alloc, found, "from", "up", marks.is_some())?;
    let to = end_in(alloc, found, "to", "down", marks.is_some())?;
    Ok(Report {
        log: text_in(alloc, found, "LOG")?,
        file: text_in(alloc, found, "FILE")?,
        form: form_in(found),
        title: String::from_str(alloc, found.get_str("title").unwrap_or(""))?,
        from,
        to,
        ahead: ahead_in(alloc, found)?,
        marks,
    })
}

/// The command `report`, with what stands after it.
pub fn report_in(alloc: Global, found: &ArgMatches<'_>) -> Result<Line, LineFault>
    ensures { IfOk result (λ line. spec.IsReportBy found.now line) }
{
    Ok(Line::Report(told_in(alloc, found)?))
}

/// The command `mark`.
pub(super) const MARK_COMMAND: Declared = Declared {
    name: "mark",
    about: "Mark that the curtain goes up or down, for the report:  cuedesk mark evening.marks up",
    arguments: &[
        Argument::Word("FILE", "The file with the marks, beside the log"),
        Argument::Word("CURTAIN", "up or down"),
    ],
};

/// The command `mark`, with what stands after it.
pub(super) fn mark_in(alloc: Global, found: &ArgMatches<'_>) -> Result<Line, LineFault> {
    let said = found.get_str("CURTAIN").unwrap_or("");
    let is_up = match said {
        "up" => Some(true),
        "down" => Some(false),
        _ => None,
    };
    Ok(Line::Mark {
        file: text_in(alloc, found, "FILE")?,
        is_up: or_unfit(
            alloc,
            is_up,
            said,
            "is not what a curtain does: say up or down",
        )?,
    })
}

/// Who asks, if the command line says it.
pub fn asker_in(alloc: Global, found: &ArgMatches<'_>) -> Result<Option<AskerName>, LineFault> {
    let Some(text) = found.get_str("as") else {
        return Ok(None);
    };
    let wanted = "is no name of who asks: take a to z, digits and -, 1 to 16 of them";
    let name = or_unfit(alloc, AskerName::read(text.as_bytes()), text, wanted)?;
    Ok(Some(name))
}

/// Who asks, as CUEDESK_AS says it.
pub fn asker_said(alloc: Global, text: &str) -> Result<AskerName, LineFault> {
    let wanted =
        "is no name of who asks, and CUEDESK_AS says it: take a to z, digits and -, 1 to 16 of them";
    or_unfit(alloc, AskerName::read(text.as_bytes()), text, wanted)
}
