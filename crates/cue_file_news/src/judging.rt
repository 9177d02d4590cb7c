//! Whether a text is a show file that a desk can show.
ghost use Rattle.std.specs.Prelude.{◌≡◌, ◌==◌, ◌&&◌, IfErr, IfOk, is_ok, length};
ghost use Rattle.cue_file_news.specs.Judging as judging;

use cue_show_file::{Checked, Draft, Finding, ShowFile, check, condensed, read};
use std::alloc::{AllocError, Global};

// Whether a file has nothing: an editor that is at work may have emptied it.
fn is_empty(file: &ShowFile) -> bool
    ensures { result ≡ judging.is_empty file.now }
{
    file.devices.is_empty() && file.cues.is_empty()
}

// Whether a file in which this was found can be shown; else the line of its first mistake, if it has one.
fn judged(
    alloc: Global,
    file: &ShowFile,
    found: Vec<Finding>,
) -> Result<Result<(), Option<usize>>, AllocError>
    ensures { IfOk result (λ verdict. is_ok verdict ≡ ((length found.items == 0) && judging.is_shown file.now)) }
{
    let Checked { show, findings } = check(alloc, file)?;
    drop(show);
    let told = condensed(alloc, found, findings)?;
    Ok(match told.first() {
        Some(finding) => Err(finding.line),
        None if is_empty(file) => Err(None),
        None => Ok(()),
    })
}

/// The show file that a text is, if it has no mistake and makes a show; else the line of its first mistake, from 1, if
/// that has one.
pub fn judge(alloc: Global, text: &str) -> Result<Result<ShowFile, Option<usize>>, AllocError>
    ensures shown { IfOk result (λ verdict. IfOk verdict (λ file. judging.IsShown text.now file)) }
    ensures wrong { IfOk result (λ verdict. IfErr verdict (λ line. judging.HasMistake text.now)) }
{
    let Draft {
        file,
        findings,
        table,
        ..
    } = read(alloc, text)?;
    drop(table);
    match judged(alloc, &file, findings) {
        Ok(Ok(())) => Ok(Ok(file)),
        Ok(Err(line)) => {
            drop(file);
            Ok(Err(line))
        }
        Err(why) => {
            drop(file);
            Err(why)
        }
    }
}
