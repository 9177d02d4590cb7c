//! What is told of a show file that has changed.
ghost use Rattle.std.specs.Prelude.{◌≡◌, IfOk, option_map, string_bytes};
ghost use Rattle.cue_file_news.specs.Told as told;

use crate::keeping::Later;
use std::alloc::{AllocError, Global};

/// How long it is told that the file was read again, in milliseconds.
const TOLD: u64 = 10_000;

/// What has become of the text of a show file.
#[derive(Clone, Copy, Debug, PartialEq, Eq)]
pub enum News {
    /// It is that of the start.
    Old,
    /// It is new and has no mistake, and is not shown yet.
    Taken(Later),
    /// It is shown since this moment, in milliseconds of a clock that never goes back.
    Shown(u64, Later),
    /// It has mistakes, the first in this line, from 1; none if the file does not say.
    Wrong(Option<usize>),
}

/// Why the text of a show file cannot be had.
#[derive(Clone, Copy, Debug, PartialEq, Eq)]
pub enum Trouble {
    /// The file is there, and cannot be read, or is longer than a show file can be.
    Unreadable,
    /// It is not there.
    Missing,
}

// What follows after the words that the file was read.
fn later_words(later: Later) -> &'static str
    ensures { result.now ≡ told.later_words later }
{
    match later {
        Later::Nothing => "",
        Later::Port => "; its port counts from the next start",
        Later::Relay => "; its relay counts from the next start",
        Later::Both => "; port and relay count from the next start",
    }
}

// That the file has mistakes, the first in this line.
fn wrong_words(alloc: Global, line: Option<usize>) -> Result<String, AllocError>
    ensures { IfOk result (λ text. string_bytes text ≡ told.wrong_words line) }
{
    match line {
        Some(line) => {
            format!(in alloc; "the show file has mistakes (line {line}): the one before is shown")
        }
        None => String::from_str(alloc, "the show file has mistakes: the one before is shown"),
    }
}

// That the file was read, which is shown since this moment, as long as that is told.
fn read_words(alloc: Global, at: u64, later: Later, now: u64) -> Result<Option<String>, AllocError>
    ensures { IfOk result (λ text. option_map string_bytes text ≡ told.read_words at later now) }
{
    if now.saturating_sub(at) >= TOLD {
        return Ok(None);
    }
    let words = later_words(later);
    Ok(Some(format!(in alloc; "the show file was read again{words}")?))
}

// What is told of the text.
fn news_words(alloc: Global, news: News, now: u64) -> Result<Option<String>, AllocError>
    ensures { IfOk result (λ text. option_map string_bytes text ≡ told.news_words news now) }
{
    match news {
        News::Old => Ok(None),
        News::Taken(_) => Ok(None),
        News::Shown(at, later) => read_words(alloc, at, later, now),
        News::Wrong(line) => Ok(Some(wrong_words(alloc, line)?)),
    }
}

// Why the text cannot be had.
fn trouble_words(trouble: Trouble) -> &'static str
    ensures { result.now ≡ told.trouble_words trouble }
{
    match trouble {
        Trouble::Unreadable => "the show file cannot be read: the one before is shown",
        Trouble::Missing => "the show file is not there: the one before is shown",
    }
}

/// What is told of the file now, in milliseconds of a clock that never goes back; none if nothing is. Board and page
/// show it. A trouble is told before what became of the text.
pub fn told_words(
    alloc: Global,
    trouble: Option<Trouble>,
    news: News,
    now: u64,
) -> Result<Option<String>, AllocError>
    ensures { IfOk result (λ text. option_map string_bytes text ≡ told.told_words trouble news now) }
{
    match trouble {
        Some(trouble) => Ok(Some(String::from_str(alloc, trouble_words(trouble))?)),
        None => news_words(alloc, news, now),
    }
}
