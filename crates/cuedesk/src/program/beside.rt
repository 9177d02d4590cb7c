//! What the board has beside the store: the log of the evening, the status of a relay, what is told of the show file.
ghost use Rattle.std.specs.Prelude.{◌≡◌, [], ◌∷◌, IfOk, map, option_copied, string_bytes};
ghost use Rattle.cuedesk.specs.Beside as beside;

use cue_board::log_lines;
use cue_desk_run::{open_plain, read_status};
use cue_files_run::words;
use std::alloc::{AllocError, Global};
use std::fs::{File, Files};
use std::io::{self, Read, Seek, SeekFrom};

/// The most lines of the log that are shown.
const MAX_LOG_LINES: usize = 3;

/// The most bytes of the log that are read, from its end.
const MAX_LOG_BYTES: u64 = 4_096;

/// What a file has from its place on, as text, but no more than so many bytes.
pub fn text_of(alloc: Global, file: File, most: u64) -> io::Result<String> {
    let mut bytes = Vec::new(alloc);
    file.take(most).read_to_end(&mut bytes)?;
    Ok(String::from_utf8_lossy(alloc, &bytes)?)
}

// The end of a file, as text.
fn end_of<R: Files<File = File> + AllocGlobal>(rt: &R, path: &str) -> io::Result<String> {
    let mut file = open_plain(rt, path)?;
    let len = file.metadata()?.len();
    file.seek(SeekFrom::Start(len.saturating_sub(MAX_LOG_BYTES)))?;
    text_of(rt.alloc(), file, MAX_LOG_BYTES)
}

/// One line alone.
pub fn only(alloc: Global, line: String) -> Result<Vec<String>, AllocError>
    ensures { IfOk result (λ lines. lines.items ≡ line ∷ []) }
{
    let mut lines = Vec::new(alloc);
    lines.push(line)?;
    Ok(lines)
}

/// What is told of the show file, as one line; no line if nothing is told.
pub fn file_line(alloc: Global, told: Option<&str>) -> Result<Vec<String>, AllocError>
    ensures { IfOk result (λ lines. map string_bytes lines.items ≡ beside.file_lines (option_copied told.entry)) }
{
    match told {
        Some(told) => {
            let line = format!(in alloc; "FILE   {told}")?;
            only(alloc, line)
        }
        None => Ok(Vec::new(alloc)),
    }
}

// One line that says why a file is not shown.
fn why_not(alloc: Global, path: &str, why: &io::Error) -> Result<Vec<String>, AllocError> {
    let text = words(alloc, path, why);
    let line = format!(in alloc; "?      {}", text.as_str())?;
    only(alloc, line)
}

/// The last lines of the log of `serve`, without their dates.
pub fn read_log<R: Files<File = File> + AllocGlobal>(
    rt: &R,
    path: &str,
) -> Result<Vec<String>, AllocError> {
    match end_of(rt, path) {
        Ok(text) => log_lines(rt.alloc(), text.as_str(), MAX_LOG_LINES),
        Err(why) => why_not(rt.alloc(), path, &why),
    }
}

/// Why a board without the devices of a relay has none, as one line.
pub fn relay_line<R: Files<File = File> + AllocGlobal>(
    rt: &R,
    path: &str,
) -> Result<Vec<String>, AllocError> {
    let alloc = rt.alloc();
    match read_status(rt, path) {
        Ok(Some(_)) => only(
            alloc,
            String::from_str(alloc, "HEARD  the relay has stopped")?,
        ),
        Ok(None) => {
            let text = format!(in alloc; "?      {path}: this is no status of a relay")?;
            only(alloc, text)
        }
        Err(why) => why_not(alloc, path, &why),
    }
}
