//! The command line, read over `clap`.
ghost use Rattle.std.specs.Prelude.{◌≡◌, IfOk, IfSome, Some, codes};
ghost use Rattle.cue_operator.specs.Methods.{cue_verb_text};
ghost use Rattle.cue_desk.specs.Orders.{spelling_of, word_of};
ghost use Rattle.cue_desk_line.specs.Orders.{IsAskedBy, IsNamed, IsOfEvening, IsRemovedBy, IsSaidBy, cue_word};
ghost use Rattle.cue_desk_line.specs.Orders.{device_by, device_word};

mod arguments;
pub mod buttons;
mod commands;
pub mod editing;
pub mod pressing;
pub mod rehearsing;
pub mod reporting;
mod sheet;
pub mod web;
pub mod words;

use buttons::buttons_in;
use clap::ArgMatches;
use commands::cuedesk;
use cue_desk::line::{LineFault, fault_of, unfit};
use cue_desk::orders::{CommandWord, DeskCommand, word_in};
use cue_loading::Manner;
use cue_operator::CueVerb;
use cue_show::{CueNo, DeviceNo};
use editing::edit_in;
use pressing::pressed_in;
use rehearsing::rehearsal_in;
use reporting::{asker_in, asker_said, mark_in, report_in};
use sheet::{check_in, export_in, new_in, sheet_in};
use std::alloc::Global;
use web::web_in;
use words::{Environment, Line, Watched};

// What has to stand there and does not. `clap` sees to it before, so nobody meets it.
fn lacking(alloc: Global, id: &str) -> LineFault {
    unfit(alloc, id, "is missing")
}

// What a word was read as; if it is nothing, `wanted` says what to write.
fn or_unfit<T>(alloc: Global, read: Option<T>, word: &str, wanted: &str) -> Result<T, LineFault>
    ensures { IfOk result (λ value. read ≡ Some value) }
{
    match read {
        Some(value) => Ok(value),
        None => Err(unfit(alloc, word, wanted)),
    }
}

// A text of its own, if there is one.
fn owned(alloc: Global, text: Option<&str>) -> Result<Option<String>, LineFault> {
    match text {
        Some(text) => Ok(Some(String::from_str(alloc, text)?)),
        None => Ok(None),
    }
}

// The word that stands there.
fn text_in(alloc: Global, found: &ArgMatches<'_>, id: &str) -> Result<String, LineFault> {
    match found.get_str(id) {
        Some(text) => Ok(String::from_str(alloc, text)?),
        None => Err(lacking(alloc, id)),
    }
}

// The word that stands there, if one does.
fn option_in(alloc: Global, found: &ArgMatches<'_>, id: &str) -> Result<Option<String>, LineFault> {
    owned(alloc, found.get_str(id))
}

// A word that is no port.
fn no_port(alloc: Global, word: &str) -> LineFault {
    unfit(alloc, word, "is no port: take one of 1 to 65535")
}

// The port that stands there, if one does.
fn port_in(alloc: Global, found: &ArgMatches<'_>) -> Result<Option<u16>, LineFault> {
    match found.get_one::<u16>("port") {
        Some(port) if port >= 1 => Ok(Some(port)),
        Some(_) => Err(no_port(alloc, "0")),
        None => Ok(None),
    }
}

// The cue that a word names.
fn cue_of(alloc: Global, text: &str) -> Result<CueNo, LineFault>
    ensures { IfOk result (λ cue. cue ≡ text.now) }
{
    let wanted =
        "is no cue number: write digits with single points, as 12.5, 16 characters at most";
    or_unfit(alloc, CueNo::read(text.as_bytes()), text, wanted)
}

// The cue that stands there.
fn cue_in(alloc: Global, found: &ArgMatches<'_>) -> Result<CueNo, LineFault>
    ensures { IfOk result (λ cue. cue_word found.now ≡ Some cue) }
{
    match found.get_str("CUE") {
        Some(text) => cue_of(alloc, text),
        None => Err(lacking(alloc, "CUE")),
    }
}

// The device with the number that a word is.
fn device_of(text: &str) -> Option<DeviceNo>
    ensures { IfSome result (λ device. device_by text.now ≡ Some device) }
{
    match text.parse::<i32>() {
        Ok(number) => DeviceNo::of(number),
        Err(_) => None,
    }
}

// The device that stands there.
fn device_in(alloc: Global, found: &ArgMatches<'_>) -> Result<DeviceNo, LineFault>
    ensures { IfOk result (λ device. device_word found.now ≡ Some device) }
{
    match found.get_str("DEVICE") {
        Some(text) => or_unfit(
            alloc,
            device_of(text),
            text,
            "is no device: write its number, 0 to 111",
        ),
        None => Err(lacking(alloc, "DEVICE")),
    }
}

// The command that asks this of what stands there, with the port and the name that stand there.
fn ask_in(alloc: Global, order: DeskCommand, found: &ArgMatches<'_>) -> Result<Line, LineFault>
    ensures { IsNamed found.now order → IfOk result (IsAskedBy (word_of order) found.now) }
{
    Ok(Line::Ask {
        order,
        port: port_in(alloc, found)?,
        name: asker_in(alloc, found)?,
    })
}

// What is asked of a cue.
fn of_cue_in(alloc: Global, verb: CueVerb, found: &ArgMatches<'_>) -> Result<Line, LineFault>
    ensures { IfOk result (IsAskedBy (cue_verb_text verb) found.now) }
{
    let cue = cue_in(alloc, found)?;
    ask_in(alloc, DeskCommand::OfCue(verb, cue), found)
}

// The command `remove device`.
fn remove_device_in(alloc: Global, found: &ArgMatches<'_>) -> Result<Line, LineFault>
    ensures { IfOk result (IsAskedBy (codes "remove") found.now) }
{
    ask_in(
        alloc,
        DeskCommand::RemoveDevice(device_in(alloc, found)?),
        found,
    )
}

// What is removed.
fn remove_in(alloc: Global, found: &ArgMatches<'_>) -> Result<Line, LineFault>
    ensures { IfOk result (IsRemovedBy found.now) }
{
    match found.subcommand() {
        Some((name, of)) if name == "cue" => of_cue_in(alloc, CueVerb::Remove, of),
        Some((_, of)) => remove_device_in(alloc, of),
        None => Err(unfit(
            alloc,
            "remove",
            "is of a cue or of a device: remove cue 12.5, or remove device 4",
        )),
    }
}

// What becomes of what is in the store already.
fn manner_of(found: &ArgMatches<'_>) -> Manner {
    if found.get_flag("exact") {
        Manner::IsExact
    } else if found.get_flag("replace") {
        Manner::Replaces
    } else {
        Manner::Adds
    }
}

// The same. If something is to be replaced, the folder of the store is wanted.
fn manner_in(alloc: Global, found: &ArgMatches<'_>) -> Result<Manner, LineFault> {
    let manner = manner_of(found);
    if manner == Manner::Adds || found.get_str("DIR").is_some() {
        return Ok(manner);
    }
    Err(unfit(
        alloc,
        "load",
        "wants the folder of the store, to see what it has: load evening.toml show --replace",
    ))
}

// The command `load`, with what stands after it.
fn load_in(alloc: Global, found: &ArgMatches<'_>) -> Result<Line, LineFault> {
    Ok(Line::Load {
        manner: manner_in(alloc, found)?,
        port: port_in(alloc, found)?,
        file: text_in(alloc, found, "FILE")?,
        dir: option_in(alloc, found, "DIR")?,
    })
}

// A command over a file or a folder; none if the name is of another kind.
fn file_line_in(
    alloc: Global,
    name: &str,
    found: &ArgMatches<'_>,
) -> Option<Result<Line, LineFault>> {
    match name {
        "check" => Some(check_in(alloc, found)),
        "load" => Some(load_in(alloc, found)),
        "export" => Some(export_in(alloc, found)),
        "new" => Some(new_in(alloc, found)),
        "edit" => Some(edit_in(alloc, found)),
        "sheet" => Some(sheet_in(alloc, found)),
        "board" => Some(board_in(alloc, found)),
        "web" => Some(web_in(alloc, found).map(Line::Web)),
        "buttons" => Some(buttons_in(alloc, found)),
        "rehearse" => Some(rehearsal_in(alloc, found)),
        "relay" => Some(relay_in(alloc, found)),
        "report" => Some(report_in(alloc, found)),
        "mark" => Some(mark_in(alloc, found)),
        _ => None,
    }
}

// The command `relay`, with what stands after it.
fn relay_in(alloc: Global, found: &ArgMatches<'_>) -> Result<Line, LineFault> {
    Ok(Line::Relay {
        port: port_in(alloc, found)?,
        file: text_in(alloc, found, "FILE")?,
        status: option_in(alloc, found, "status")?,
    })
}

// What a board is made of.
fn watched_in(alloc: Global, found: &ArgMatches<'_>) -> Result<Watched, LineFault> {
    Ok(Watched {
        port: port_in(alloc, found)?,
        dir: text_in(alloc, found, "DIR")?,
        file: option_in(alloc, found, "FILE")?,
        log: option_in(alloc, found, "log")?,
        alarms: option_in(alloc, found, "alarms")?,
        relay: option_in(alloc, found, "relay")?,
    })
}

// The command `board`, with what stands after it.
fn board_in(alloc: Global, found: &ArgMatches<'_>) -> Result<Line, LineFault> {
    Ok(Line::Board {
        watched: watched_in(alloc, found)?,
        once: found.get_flag("once"),
        rows: found.get_one::<u16>("rows"),
    })
}

// The command `release`.
fn release_in(alloc: Global, found: &ArgMatches<'_>) -> Result<Line, LineFault>
    ensures { IfOk result (IsAskedBy (codes "release") found.now) }
{
    ask_in(alloc, DeskCommand::Release(device_in(alloc, found)?), found)
}

// A command that asks of the controller what this word says.
fn asked_in(alloc: Global, word: CommandWord, found: &ArgMatches<'_>) -> Result<Line, LineFault>
    ensures { IfOk result (IsSaidBy (spelling_of word) found.now) }
{
    match word {
        CommandWord::OfCue(verb) => of_cue_in(alloc, verb, found),
        CommandWord::Release => release_in(alloc, found),
        CommandWord::Remove => remove_in(alloc, found),
        CommandWord::Status => ask_in(alloc, DeskCommand::Status, found),
    }
}

// A command that asks of the controller what its word says.
fn order_in(alloc: Global, name: &str, found: &ArgMatches<'_>) -> Result<Line, LineFault>
    ensures { IfOk result (IsSaidBy name.now found.now) }
{
    match word_in(name) {
        Some(word) => asked_in(alloc, word, found),
        None => Err(unfit(alloc, name, "is no command")),
    }
}

// A command that presses, or else one that asks by its words alone.
fn pressed_or_asked(
    alloc: Global,
    name: &str,
    found: &ArgMatches<'_>,
    environment: &Environment<'_>,
) -> Result<Line, LineFault>
    ensures { IfOk result (IsOfEvening name.now found.now) }
{
    match pressed_in(alloc, name, found, environment) {
        Some(line) => line,
        None => order_in(alloc, name, found),
    }
}

// The command of this name.
fn line_in(
    alloc: Global,
    name: &str,
    found: &ArgMatches<'_>,
    environment: &Environment<'_>,
) -> Result<Line, LineFault> {
    match file_line_in(alloc, name, found) {
        Some(line) => line,
        None => pressed_or_asked(alloc, name, found, environment),
    }
}

// The command that was matched, if one was.
fn line_of(
    alloc: Global,
    matches: &ArgMatches<'_>,
    environment: &Environment<'_>,
) -> Result<Line, LineFault> {
    match matches.subcommand() {
        Some((name, found)) => line_in(alloc, name, found, environment),
        None => Err(unfit(alloc, "cuedesk", "wants a command after it")),
    }
}

// The command that `clap` finds.
fn matched(
    alloc: Global,
    words: &[String],
    environment: &Environment<'_>,
) -> Result<Line, LineFault> {
    let command = cuedesk(alloc)?;
    match command.try_get_matches_from(words) {
        Ok(matches) => line_of(alloc, &matches, environment),
        Err(error) => Err(fault_of(alloc, &error)),
    }
}

// The port that CUEDESK_PORT says.
fn port_of(alloc: Global, text: &str) -> Result<u16, LineFault> {
    match text.parse::<u16>() {
        Ok(port) if port >= 1 => Ok(port),
        _ => Err(unfit(
            alloc,
            text,
            "is no port, and CUEDESK_PORT says it: let it be one of 1 to 65535, or unset it",
        )),
    }
}

// What the words leave out, and the environment says.
fn complete(
    alloc: Global,
    line: &mut Line,
    environment: &Environment<'_>,
) -> Result<(), LineFault> {
    if let (Some(port), Some(text)) = (line.port(), environment.port) {
        if port.is_none() {
            *port = Some(port_of(alloc, text)?);
        }
    }
    if let (Some(name), Some(text)) = (line.name(), environment.name) {
        if name.is_none() {
            *name = Some(asker_said(alloc, text)?);
        }
    }
    Ok(())
}

/// Reads a command line, the program's name first, as `clap` matches it. If a command speaks to the controller and
/// its words name no port, the port is the one that CUEDESK_PORT says, if that is set; and if they do not name
/// who asks, that is who CUEDESK_AS says. CUEDESK_STORE says the folder of the store, and CUEDESK_FILE the show
/// file, for `standby` and `go` without a cue.
pub fn line(
    alloc: Global,
    words: &[String],
    environment: &Environment<'_>,
) -> Result<Line, LineFault> {
    let mut line = matched(alloc, words, environment)?;
    complete(alloc, &mut line, environment)?;
    Ok(line)
}
