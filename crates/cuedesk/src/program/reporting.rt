//! The command `report`: an evening, by the log of `serve`.
ghost use Rattle.std.specs.Prelude.{◌≡◌, ◌++◌, IfErr, IfOk, OnOk, string_bytes};
ghost use Rattle.cue_desk.specs.declared.ending.Ending.TheVariants.{Failed, Refused};
ghost use Rattle.cuedesk.specs.Reporting as reporting;

mod marking;

use cue_curtain::marks_in;
use cue_desk::ending::Ending;
use cue_desk_line::{End, Form, Report};
use cue_files_run::read_file;
use cue_report::ends::{self, NoRange, range_of};
use cue_report::marks::Marks;
use cue_report::{Evening, Names, Range, Told, csv, html, text};
use cue_saying::{print, say};
use cue_show_file::ShowFile;
pub use marking::{mark_curtain, write_mark};
use std::alloc::{AllocError, Global};
use std::fs::{File, Files};
use std::io::{self, Eprint, Read, Write};

/// How many bytes of the log are read at once.
const PIECE: usize = 65_536;

// Takes the names of a show file.
fn names_of(alloc: Global, title: &str, file: &ShowFile) -> Result<Names, AllocError> {
    let mut names = Names::new(alloc, title)?;
    for device in file.devices.iter() {
        names.add_device(alloc, &device.number, device.name.as_deref().unwrap_or(""))?;
    }
    for cue in file.cues.iter() {
        names.add_cue(alloc, &cue.number, cue.name.as_deref().unwrap_or(""))?;
    }
    Ok(names)
}

// Why a log was not read.
fn unread<R: Eprint>(rt: &R, path: &str, why: &io::Error) -> Ending
    ensures { result ≡ Failed }
{
    say(rt, format_args!("{path}: {why}"));
    Ending::Failed
}

// Reads a file of marks.
fn read_marks<R: Files<File = File> + AllocGlobal>(rt: &R, path: &str) -> io::Result<Marks> {
    let mut text = Vec::new(rt.alloc());
    let _ = File::open(rt, path)?.read_to_end(&mut text)?;
    Ok(marks_in(rt.alloc(), &text)?)
}

// The marks of a file, if one is said; none else.
fn said_marks<R: Files<File = File> + Eprint + AllocGlobal>(
    rt: &R,
    path: Option<&str>,
) -> Result<Marks, Ending> {
    let Some(path) = path else {
        return Ok(Marks::new(rt.alloc()));
    };
    match read_marks(rt, path) {
        Ok(marks) => Ok(marks),
        Err(why) => Err(unread(rt, path, &why)),
    }
}

// Hears a log to its end, as many bytes at once as there is room for.
fn hear_all(file: &mut File, room: &mut [u8], evening: &mut Evening) -> io::Result<()> {
    for _ in 0..u64::MAX {
        let count = file.read(room)?;
        if count == 0 {
            break;
        }
        evening.hear(&room[..count])?;
    }
    evening.finish()?;
    Ok(())
}

// Hears a log to its end.
fn hear<R: Files<File = File> + AllocGlobal>(
    rt: &R,
    path: &str,
    evening: &mut Evening,
) -> io::Result<()> {
    let mut file = File::open(rt, path)?;
    let mut room = vec![in rt.alloc(); 0u8; PIECE]?;
    let heard = hear_all(&mut file, &mut room, evening);
    drop(room);
    drop(file);
    heard
}

// Puts a line with its end after the others.
fn push_line(text: &mut String, line: &str) -> Result<(), AllocError>
    ensures { OnOk result (string_bytes text.new ≡ string_bytes text.old ++ reporting.line_text line.now) }
{
    text.push_str(line)?;
    text.push_str("\n")
}

// Each line with its end.
fn joined(alloc: Global, lines: &[String]) -> Result<String, AllocError>
    ensures { IfOk result (λ text. string_bytes text ≡ reporting.joined lines.now) }
{
    let mut text = String::new(alloc);
    for line in lines {
        push_line(&mut text, line.as_str())?;
    }
    Ok(text)
}

// The report as text.
fn text_of(told: Told<'_>, evening: &Evening) -> Result<String, AllocError>
    ensures { IfOk result (λ text. reporting.HasFitLines (string_bytes text)) }
{
    let alloc = told.alloc;
    let lines = text::report_lines(told, evening)?;
    joined(alloc, &lines)
}

// The report of an evening that was heard, with the names of a show file.
fn report_of(
    alloc: Global,
    report: &Report,
    evening: &Evening,
    file: &ShowFile,
) -> Result<String, AllocError> {
    let names = names_of(alloc, report.title.as_str(), file)?;
    let told = Told {
        alloc,
        times: evening.times(),
        names: &names,
    };
    match report.form {
        Form::Text => text_of(told, evening),
        Form::Page => html::page_of(told, evening),
        Form::Table => csv::table_of(told, evening),
    }
}

// An end of what is told, as the report knows it.
fn end_of(said: Option<End>) -> ends::End
    ensures { result ≡ reporting.end_of said }
{
    match said {
        None => ends::End::Clock(None),
        Some(End::Minute(minute)) => ends::End::Clock(Some(minute)),
        Some(End::Mark) => ends::End::Mark,
    }
}

// Why marks give nothing to tell, in words.
fn range_words(why: NoRange) -> &'static str
    ensures { result.now ≡ reporting.range_words why }
{
    match why {
        NoRange::NeverUp => "no line says `curtain up`, where the report would begin",
        NoRange::NeverDown => "no line says `curtain down`, where the report would end",
        NoRange::DownBeforeUp => "the last `curtain down` is before the first `curtain up`",
    }
}

// Says why the marks of a file give nothing to tell.
fn no_range<R: Eprint>(rt: &R, path: &str, why: NoRange) -> Ending
    ensures { result ≡ Refused }
{
    let why = range_words(why);
    say(rt, format_args!("{path}: {why}"));
    Ending::Refused
}

// Which part of an evening is told.
fn range_in<R: Eprint>(rt: &R, report: &Report, marks: &Marks, ahead: i64) -> Result<Range, Ending>
    ensures told { IfOk result (λ range. reporting.IsTold report.now marks.now.list.items ahead range) }
    ensures refused { IfErr result (λ ending. ending ≡ Refused) }
{
    let (from, to) = (end_of(report.from), end_of(report.to));
    match range_of(from, to, &marks.list, ahead) {
        Ok(range) => Ok(range),
        Err(why) => Err(no_range(rt, report.marks.as_deref().unwrap_or("--marks"), why)),
    }
}

// The evening that is told, of which nothing was heard yet but its marks.
fn evening_of<R: Files<File = File> + Eprint + AllocGlobal>(
    rt: &R,
    report: &Report,
) -> Result<Evening, Ending> {
    let marks = said_marks(rt, report.marks.as_deref())?;
    let mut evening = Evening::new(rt.alloc());
    evening.ahead = i64::from(report.ahead) * 60;
    evening.range = range_in(rt, report, &marks, evening.ahead)?;
    evening.take_marks(&marks)?;
    Ok(evening)
}

/// The command `report`. A line that is none of the log is counted, and no mistake; a file that cannot be read ends it
/// with status 3, a show file with mistakes with status 1, and so do marks that give nothing to tell.
pub fn report_evening<R: Files<File = File> + Eprint + AllocGlobal, W: Write>(
    rt: &R,
    report: &Report,
    writer: &mut W,
) -> Result<(), Ending> {
    let file = read_file(rt, report.file.as_str())?;
    let mut evening = evening_of(rt, report)?;
    let log = report.log.as_str();
    if let Err(why) = hear(rt, log, &mut evening) {
        return Err(unread(rt, log, &why));
    }
    let told = report_of(rt.alloc(), report, &evening, &file)?;
    print(writer, told.as_str())
}
