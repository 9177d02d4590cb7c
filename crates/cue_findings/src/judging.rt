//! Whether the text of a show file is taken.
ghost use Rattle.std.specs.Prelude.{IfOk};
ghost use Rattle.cue_findings.specs.Judging as judging;

use cue_show::Show;
use cue_show_file::{Draft, Finding, ShowFile, check, condensed, read};
use std::alloc::{AllocError, Global};
use toml::Table;

/// What was read of a text, the show that it makes, and what is told of the mistakes in it.
#[derive(Drop)]
pub struct Looked {
    pub file: ShowFile,
    /// All that TOML reads from the text.
    pub table: Table,
    /// The line of the table `[rehearse]`, from 1, if it can be seen.
    pub rehearse: Option<usize>,
    /// None if a device or a cue is refused.
    pub show: Option<Show>,
    /// By their lines.
    pub told: Vec<Finding>,
}

/// A show file that has no mistake, with all that TOML reads from it, and the show that it makes.
#[derive(Drop)]
pub struct Sound {
    pub file: ShowFile,
    pub table: Table,
    /// The line of the table `[rehearse]`, from 1, if it can be seen.
    pub rehearse: Option<usize>,
    pub show: Show,
}

/// What became of the text of a show file.
#[derive(Drop)]
pub enum Judged {
    /// It has no mistake.
    Sound(Sound),
    /// It has these, by their lines.
    Wrong(Vec<Finding>),
}

// Reads a text, with each mistake.
pub(crate) fn look_at(alloc: Global, text: &str) -> Result<Looked, AllocError>
    ensures { IfOk result (judging.IsLookedAt text.now) }
{
    let Draft {
        file,
        findings,
        table,
        rehearse,
    } = read(alloc, text)?;
    let trial = check(alloc, &file)?;
    let told = condensed(alloc, findings, trial.findings)?;
    Ok(Looked {
        file,
        table,
        rehearse,
        show: trial.show,
        told,
    })
}

// What becomes of a text that was looked at.
fn verdict_of(looked: Looked) -> Judged
    ensures { judging.IsJudged looked result }
{
    let Looked {
        file,
        table,
        rehearse,
        show,
        told,
    } = looked;
    match show {
        Some(show) if told.is_empty() => Judged::Sound(Sound {
            file,
            table,
            rehearse,
            show,
        }),
        _ => Judged::Wrong(told),
    }
}

/// What becomes of the text of a show file. It is sound only if the text says exactly the devices and cues of the file
/// that is given, and a controller takes all of them; else one mistake at least is told.
pub fn judge(alloc: Global, text: &str) -> Result<Judged, AllocError>
    ensures sound { IfOk result (λ found. judging.IfSound found (judging.IsSaidBy text.now)) }
    ensures wrong { IfOk result (λ found. judging.IfWrong found (judging.HasMistake text.now)) }
{
    let looked = look_at(alloc, text)?;
    Ok(verdict_of(looked))
}
