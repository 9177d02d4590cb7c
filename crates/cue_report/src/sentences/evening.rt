//! What the report says of an evening as a whole: what was refused, how long it ran, and how much there was of each.
ghost use Rattle.std.specs.Prelude.{◌≡◌, IfOk, string_bytes};
ghost use Rattle.cue_report.specs.Telling as spec;

use super::{Told, Words};
use crate::evening::{Counts, Evening, Refusal, Totals};
use crate::running::Stretch;
use std::alloc::Global;

/// What was refused, and to whom: `anna, /cue/12/go: code 13, not every device is ready`.
pub fn refusal_words(told: Told<'_>, refusal: &Refusal) -> Words {
    let by = told.who(refusal.by)?;
    let comma = if by.is_empty() { "" } else { ", " };
    format!(in told.alloc; "{}{comma}{}", by.as_str(), refusal.said.as_str())
}

/// How many more there were than are kept.
pub fn more_words(alloc: Global, more: u64) -> Words
    ensures { IfOk result (λ text. string_bytes text ≡ spec.more_words more) }
{
    format!(in alloc; "and {more} more")
}

// A length of time: `2:31:04`.
fn length_words(alloc: Global, seconds: u64) -> Words {
    let (minutes, second) = (seconds / 60 % 60, seconds % 60);
    format!(in alloc; "{}:{minutes:02}:{second:02}", seconds / 3600)
}

/// How long a stretch of the show was, and from when to when: `0:56:04, from 19:32:10 to 20:28:14`.
pub fn run_words(told: Told<'_>, seconds: u64, stretch: Stretch, words: (&str, &str)) -> Words {
    let (from, to) = words;
    let length = length_words(told.alloc, seconds)?;
    let (begun, ended) = (told.moment(stretch.from)?, told.moment(stretch.to)?);
    let (length, begun, ended) = (length.as_str(), begun.as_str(), ended.as_str());
    format!(in told.alloc; "{length}, from {from}{begun} to {to}{ended}")
}

/// From when to when an evening went: `Friday 2026-11-20, 19:30:12 to 21:34:00 UTC+01:00`.
pub fn span_words(told: Told<'_>, evening: &Evening) -> Words {
    let (Some(first), Some(last)) = (evening.first, evening.last) else {
        return String::from_str(
            told.alloc,
            "no line of this file is one of the log of serve",
        );
    };
    let day = told.times.date(told.alloc, first)?;
    let (from, to) = (told.moment(first)?, told.moment(last)?);
    let zone = told.times.zone(told.alloc)?;
    let (day, zone) = (day.as_str(), zone.as_str());
    format!(in told.alloc; "{day}, {} to {} {zone}", from.as_str(), to.as_str())
}

/// How many attempts ended how.
#[tactic(auto, unfolding(crate::specs::Telling::totals_words))]
pub fn totals_words(alloc: Global, totals: Totals) -> Words
    ensures { IfOk result (λ text. string_bytes text ≡ spec.totals_words totals) }
{
    let word = if totals.all == 1 {
        "attempt"
    } else {
        "attempts"
    };
    let mut text = format!(in alloc;
        "{} {word}: {} complete, {} cancelled, {} failed",
        totals.all, totals.complete, totals.cancelled, totals.failed
    )?;
    text.push_str(unended_words(alloc, totals.unended)?.as_str())?;
    Ok(text)
}

// So many attempts without an end, after a comma; nothing if there is none.
#[tactic(auto, unfolding(crate::specs::Telling::unended_words))]
fn unended_words(alloc: Global, count: usize) -> Words
    ensures { IfOk result (λ text. string_bytes text ≡ spec.unended_words count) }
{
    if count == 0 {
        return Ok(String::new(alloc));
    }
    format!(in alloc; ", {count} without an end in this log")
}

// So many lines of a kind, after a comma; nothing if there is none.
#[tactic(auto, unfolding(crate::specs::Telling::some_words))]
fn some_words(alloc: Global, count: u64, kind: &str) -> Words
    ensures { IfOk result (λ text. string_bytes text ≡ spec.some_words count kind.now) }
{
    if count == 0 {
        return Ok(String::new(alloc));
    }
    format!(in alloc; ", {count} {kind}")
}

/// How many lines were read.
pub fn counts_words(alloc: Global, counts: Counts) -> Words {
    let others = some_words(alloc, counts.others, "that are none of it")?;
    let outside = some_words(alloc, counts.outside, "of another time")?;
    let repeated = some_words(alloc, counts.repeated, "that stood there twice")?;
    let (others, outside, repeated) = (others.as_str(), outside.as_str(), repeated.as_str());
    format!(in alloc;
        "lines: {} of the log{others}{outside}{repeated}",
        counts.told
    )
}
