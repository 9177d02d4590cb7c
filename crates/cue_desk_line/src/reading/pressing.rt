//! The words `standby` and `go` without a number, and `go --wait`: a press at the desk.

ghost use Rattle.std.specs.Prelude.{◌≡◌, ◌∷◌, ◌++◌, [], IfOk, IfSome, None, OnOk, Some, codes, map};
ghost use Rattle.std.specs.Prelude.{option_map};
ghost use Rattle.cue_desk_line.specs.Orders.{IsPressedBy, cue_word, cue_words};

use super::arguments::{ASKER, Argument, Declared, PORT};
use super::reporting::asker_in;
use super::words::{Environment, Line};
use super::{cue_of, or_unfit, owned, port_in};
use clap::ArgMatches;
use cue_asker::AskerName;
use cue_desk::line::{LineFault, unfit};
use cue_presses::Intent;
use cue_show::CueNo;
use std::alloc::{AllocError, Global};

/// How long `--wait` waits at most, in seconds: a cue that is stood by has no longer.
const MOST: u64 = 10;

/// How many cues can be live at once.
const MAX_TOGETHER: usize = 8;

/// What is said if neither a cue nor the store is named.
const NO_STORE: &str =
    "wants the number of a cue, as 12.5; or else the folder of the store, to see which cue it is: \
--store show, or `export CUEDESK_STORE=show`";

/// What is pressed by a word, at a desk without a browser.
#[derive(Drop)]
pub struct Pressed {
    pub intent: Intent,
    /// The folder of the store.
    pub dir: String,
    /// The show file, for the cues that stand by together, and for the port.
    pub file: Option<String>,
    /// How long it is waited for until it can be pressed, in seconds, if it is.
    pub wait: Option<u64>,
    /// The port of the controller, if the command line or the environment says it.
    pub port: Option<u16>,
    /// Who asks, if the command line or the environment says it.
    pub name: Option<AskerName>,
}

/// The folder of the store, for a command without a number.
const STORE: Argument = Argument::OptionOf(
    "store",
    "DIR",
    "Without a cue: the folder that a.area and b.area stand in; else CUEDESK_STORE says it",
);

/// The command `standby`.
pub(super) const STANDBY_COMMAND: Declared = Declared {
    name: "standby",
    about: "Have the devices of a cue stand by:  cuedesk standby 12.5",
    arguments: &[
        Argument::Words(
            "CUE",
            MAX_TOGETHER,
            "The number of the cue, as 12.5; of several: they stand by together; else it is the cue that is next",
        ),
        STORE,
        Argument::OptionOf(
            "file",
            "FILE",
            "Without a cue: the show file, for the cues that stand by together; else CUEDESK_FILE says it",
        ),
        PORT,
        ASKER,
    ],
};

/// The command `go`. How long it waits stands after `=`: `go --wait 5` is a go of cue 5.
pub(super) const GO_COMMAND: Declared = Declared {
    name: "go",
    about: "Give a cue that is stood by:  cuedesk go 12.5",
    arguments: &[
        Argument::OptionalWord(
            "CUE",
            "The number of the cue, as 12.5; else it is the only one that stands by",
        ),
        STORE,
        Argument::OptionElse(
            "wait",
            "SECONDS",
            "10",
            "Wait until the cue is ready, so many seconds at most; 10 where nothing is said",
        ),
        PORT,
        ASKER,
    ],
};

// The cue that stands there, if one does.
fn some_cue_in(alloc: Global, found: &ArgMatches<'_>) -> Result<Option<CueNo>, LineFault>
    ensures { IfOk result (λ cue. cue ≡ cue_word found.now) }
{
    match found.get_str("CUE") {
        Some(text) => Ok(Some(cue_of(alloc, text)?)),
        None => Ok(None),
    }
}

// How long is waited, if it is.
fn wait_in(alloc: Global, text: Option<&str>) -> Result<Option<u64>, LineFault> {
    let Some(text) = text else {
        return Ok(None);
    };
    match text.parse::<u64>() {
        Ok(seconds) if seconds >= 1 && seconds <= MOST => Ok(Some(seconds)),
        _ => Err(unfit(
            alloc,
            text,
            "is no time to wait: write 1 to 10, as --wait=5",
        )),
    }
}

// One cue more.
fn push_cue(cues: &mut Vec<CueNo>, cue: CueNo) -> Result<(), AllocError>
    ensures { OnOk result (cues.new.items ≡ cues.old.items ++ cue ∷ []) }
{
    cues.push(cue)?;
    Ok(())
}

// The cue that a word names, if it is not there yet.
fn add_cue(alloc: Global, cues: &mut Vec<CueNo>, word: &str) -> Result<(), LineFault>
    ensures { OnOk result (cues.new.items ≡ cues.old.items ++ word.now ∷ []) }
{
    let cue = cue_of(alloc, word)?;
    if cues.contains(&cue) {
        return Err(unfit(alloc, word, "is named twice: name each cue once"));
    }
    push_cue(cues, cue)?;
    Ok(())
}

// The cues that these words name, each once.
fn cues_of(alloc: Global, words: &[&str]) -> Result<Vec<CueNo>, LineFault>
    ensures { IfOk result (λ cues. cues.items ≡ map (λ w. w.now) words.now) }
{
    let mut cues: Vec<CueNo> = Vec::new(alloc);
    for word in words {
        add_cue(alloc, &mut cues, word)?;
    }
    Ok(cues)
}

// A cue stands by, and with it the others.
fn stand_by_in(
    alloc: Global,
    found: &ArgMatches<'_>,
    cue: CueNo,
    others: &[CueNo],
) -> Result<Line, LineFault>
    ensures { cue_words found.now ≡ Some (cue ∷ others.now)
        → IfOk result (IsPressedBy (codes "standby") found.now) }
{
    Ok(Line::StandBy {
        cue,
        port: port_in(alloc, found)?,
        name: asker_in(alloc, found)?,
        others: Vec::from_slice(alloc, others)?,
    })
}

// The command `standby` of several cues.
fn together_in(alloc: Global, found: &ArgMatches<'_>, words: &[&str]) -> Result<Line, LineFault>
    ensures { cue_words found.now ≡ Some (map (λ w. w.now) words.now)
        → IfOk result (IsPressedBy (codes "standby") found.now) }
{
    let cues = cues_of(alloc, words)?;
    match cues.as_slice() {
        [first, rest @ ..] => stand_by_in(alloc, found, *first, rest),
        [] => Err(unfit(alloc, "standby", NO_STORE)),
    }
}

// The words of the command `standby` that name cues, if there are several.
fn several<'a>(found: &'a ArgMatches<'_>) -> Option<&'a [&'a str]>
    ensures { IfSome result (λ words. cue_words found.now ≡ Some (map (λ w. w.now) words.now)) }
{
    match found.get_strs("CUE") {
        Some(words) if words.len() > 1 => Some(words),
        _ => None,
    }
}

// The command `standby` without a number.
fn standby_in(
    alloc: Global,
    found: &ArgMatches<'_>,
    environment: &Environment<'_>,
) -> Result<Line, LineFault>
    ensures { cue_word found.now ≡ None → IfOk result (IsPressedBy (codes "standby") found.now) }
{
    let dir = found.get_str("store").or(environment.store);
    let dir = or_unfit(alloc, dir, "standby", NO_STORE)?;
    Ok(Line::Press(Pressed {
        intent: Intent::Standby(None),
        wait: None,
        port: port_in(alloc, found)?,
        name: asker_in(alloc, found)?,
        dir: String::from_str(alloc, dir)?,
        file: owned(alloc, found.get_str("file").or(environment.file))?,
    }))
}

// The command `go` without a number, or that waits.
fn go_in(
    alloc: Global,
    found: &ArgMatches<'_>,
    environment: Option<&str>,
) -> Result<Line, LineFault>
    ensures { IfOk result (IsPressedBy (codes "go") found.now) }
{
    let intent = Intent::Go(some_cue_in(alloc, found)?);
    let dir = or_unfit(
        alloc,
        found.get_str("store").or(environment),
        "go",
        NO_STORE,
    )?;
    Ok(Line::Press(Pressed {
        intent,
        wait: wait_in(alloc, found.get_str("wait"))?,
        port: port_in(alloc, found)?,
        name: asker_in(alloc, found)?,
        dir: String::from_str(alloc, dir)?,
        file: None,
    }))
}

/// The commands `standby` without a number or of several cues, and `go` without one or with `--wait`; none if it is
/// another one, which asks by its words alone. The environment says the folder of the store and the show file if the
/// command line does not.
pub fn pressed_in(
    alloc: Global,
    name: &str,
    found: &ArgMatches<'_>,
    environment: &Environment<'_>,
) -> Option<Result<Line, LineFault>>
    ensures { IfSome result (λ line. IfOk line (IsPressedBy name.now found.now)) }
{
    match name {
        "standby" if found.get_str("CUE").is_none() => {
            Some(standby_in(alloc, found, environment))
        }
        "standby" => match several(found) {
            Some(words) => Some(together_in(alloc, found, words)),
            None => None,
        },
        "go" if found.get_str("CUE").is_none() || found.get_str("wait").is_some() => {
            Some(go_in(alloc, found, environment.store))
        }
        _ => None,
    }
}
