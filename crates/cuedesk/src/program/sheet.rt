//! The command `sheet`.
ghost use Rattle.std.specs.Prelude.{◌≡◌};
ghost use Rattle.cuedesk.specs.Titles as titles;

use cue_desk::ending::Ending;
use cue_files_run::read_file;
use cue_report::printed_words;
use cue_saying::print;
use cue_sheet::{sheet_page, sheet_text};
use cue_show_file::ShowFile;
use std::alloc::{AllocError, Global};
use std::fs::{File, Files};
use std::io::{Eprint, Write};
use std::path::Path;
use std::time::Clock;

// The title of a sheet: the one that was said, else the name of its file, without its folders and its ending.
fn title_of<'a>(title: &'a str, path: &'a str) -> &'a str
    ensures { result.now ≡ titles.title_of title.now path.now }
{
    if title.is_empty() {
        Path::new(path).file_stem().unwrap_or(path)
    } else {
        title
    }
}

// When the sheet is printed; empty if the machine's clock has no time.
fn printed_at<R: Clock>(alloc: Global, clock: &R) -> Result<String, AllocError> {
    match clock.since_1970() {
        Ok(since) => printed_words(alloc, since.as_secs()),
        Err(_) => Ok(String::new(alloc)),
    }
}

// The cue sheet of a show file, as text or as a page for a browser.
fn sheet_of(
    alloc: Global,
    title: &str,
    printed: &str,
    file: &ShowFile,
    html: bool,
) -> Result<String, AllocError> {
    if html {
        sheet_page(alloc, title, printed, file)
    } else {
        sheet_text(alloc, title, printed, file)
    }
}

/// Prints the cue sheet of a show file that has no mistake, as text or as a page for a browser.
pub fn print_sheet<R: Files<File = File> + Clock + Eprint + AllocGlobal, W: Write>(
    rt: &R,
    path: &str,
    title: &str,
    html: bool,
    writer: &mut W,
) -> Result<(), Ending> {
    let file = read_file(rt, path)?;
    let printed = printed_at(rt.alloc(), rt)?;
    let text = sheet_of(
        rt.alloc(),
        title_of(title, path),
        printed.as_str(),
        &file,
        html,
    );
    drop(file);
    print(writer, text?.as_str())
}
