//! The command line, read over `clap`.
ghost use Rattle.std.specs.Prelude.{◌≡◌, ◌⊎◌, [], None, map, IfOk, IfErr, IsErrOf, OnOk, codes, false};
ghost use Rattle.std.specs.Prelude.{string_bytes};
ghost use Rattle.clap.specs.Words.{
  rule_of,
  found_of,
  rows_of,
  app_of,
  fault_of,
  kind_of,
  new_app,
  subcommand_of,
  with_rule,
};
ghost use Rattle.cue_command_line.specs.Added.{FitsAnywhere};
ghost use Rattle.cue_command_line.specs.Lines.{
  dir_rule,
  port_rule,
  turns_rule,
  IsDirIn,
  IsPortIn,
  AreTurnsIn,
  IsNoCommand,
  IsLine,
  IsLineOf,
  IsFaultOf,
  IsHelp,
  AsksForText,
  cuectl_app,
  serve_app,
};
ghost use Rattle.cue_command_line.specs.Unread.{LacksDir, LacksPort, LacksTurns, IsNoLine};
ghost use Rattle.cue_command_line.specs.declared.words.LineFault.TheVariants.{Usage};

use crate::words::{Line, LineFault};
use clap::error::ErrorKind;
use clap::{Arg, ArgAction, ArgMatches, Command, Error, value_parser};
use std::alloc::{AllocError, Global};

// The folder that the two area files stand in.
fn dir<'a>(alloc: Global) -> Arg<'a>
    ensures rule { rule_of result ≡ dir_rule }
    ensures local { result.global ≡ false }
{
    Arg::new(alloc, "DIR")
        .help("The folder that a.area and b.area stand in")
        .required(true)
        .action(ArgAction::Set)
}

// The port to listen on.
fn port<'a>(alloc: Global) -> Arg<'a>
    ensures rule { rule_of result ≡ port_rule }
    ensures local { result.global ≡ false }
{
    Arg::new(alloc, "port")
        .help("The UDP port on 127.0.0.1 to listen on, 1 to 65535")
        .long("port")
        .required(true)
        .action(ArgAction::Set)
        .value_parser(value_parser!(u16))
}

// How many turns to run.
fn turns<'a>(alloc: Global) -> Arg<'a>
    ensures rule { rule_of result ≡ turns_rule }
    ensures local { result.global ≡ false }
{
    Arg::new(alloc, "turns")
        .help("How many datagrams and ticks to take before it ends")
        .long("turns")
        .required(true)
        .action(ArgAction::Set)
        .value_parser(value_parser!(u64))
}

// A command over a folder.
fn over_dir<'a>(alloc: Global, name: &'a str, about: &'a str) -> Result<Command<'a>, AllocError>
    ensures app { IfOk result (λ command. app_of command ≡ with_rule (new_app name.now) dir_rule) }
    ensures fits { IfOk result FitsAnywhere }
{
    Command::new(alloc, name).about(about).arg(dir(alloc))
}

// The command `serve`.
fn serve<'a>(alloc: Global) -> Result<Command<'a>, AllocError>
    ensures app { IfOk result (λ command. app_of command ≡ serve_app) }
    ensures fits { IfOk result FitsAnywhere }
{
    Command::new(alloc, "serve")
        .about("Run the show of a folder over UDP")
        .arg(dir(alloc))?
        .arg(port(alloc))?
        .arg(turns(alloc))
}

// All commands.
fn cuectl<'a>(alloc: Global) -> Result<Command<'a>, AllocError>
    ensures { IfOk result (λ command. app_of command ≡ cuectl_app) }
{
    Command::new(alloc, "cuectl")
        .version("1.1")
        .about("A two-phase cue controller for theatre machinery")
        .subcommand(over_dir(
            alloc,
            "form",
            "Make an empty show in a folder that has none",
        )?)?
        .subcommand(serve(alloc)?)?
        .subcommand(over_dir(
            alloc,
            "show",
            "Print the show of a folder, and change nothing",
        )?)?
        .subcommand(Command::new(alloc, "script").about(
            "Run a script from standard input on two disks in memory",
        ))
}

// The folder that stands there.
fn dir_in(alloc: Global, found: &ArgMatches<'_>) -> Result<String, LineFault>
    ensures dir { IfOk result (λ dir. IsDirIn (rows_of (found_of found.now)) (string_bytes dir)) }
    ensures usage { IsErrOf result Usage → LacksDir (rows_of (found_of found.now)) }
    ensures no_help { IfErr result (λ fault. IsHelp fault → ⊥) }
{
    match found.get_str("DIR") {
        Some(dir) => Ok(String::from_str(alloc, dir)?),
        None => Err(LineFault::Usage),
    }
}

// The port that stands there, if it is one.
fn port_in(found: &ArgMatches<'_>) -> Result<u16, LineFault>
    ensures port { IfOk result (λ port. IsPortIn (rows_of (found_of found.now)) port) }
    ensures usage { IsErrOf result Usage → LacksPort (rows_of (found_of found.now)) }
    ensures no_help { IfErr result (λ fault. IsHelp fault → ⊥) }
{
    match found.get_one::<u16>("port") {
        Some(port) if port >= 1 => Ok(port),
        _ => Err(LineFault::Usage),
    }
}

// The number of turns that stands there.
fn turns_in(found: &ArgMatches<'_>) -> Result<u64, LineFault>
    ensures turns { IfOk result (λ turns. AreTurnsIn (rows_of (found_of found.now)) turns) }
    ensures usage { IsErrOf result Usage → LacksTurns (rows_of (found_of found.now)) }
    ensures no_help { IfErr result (λ fault. IsHelp fault → ⊥) }
{
    match found.get_one::<u64>("turns") {
        Some(turns) => Ok(turns),
        None => Err(LineFault::Usage),
    }
}

// The command `serve`, with what stands after it.
fn serve_in(alloc: Global, found: &ArgMatches<'_>) -> Result<Line, LineFault>
    ensures line { IfOk result (λ line. IsLine (codes "serve", rows_of (found_of found.now)) line) }
    ensures usage { IsErrOf result Usage → IsNoLine (codes "serve", rows_of (found_of found.now)) }
    ensures no_help { IfErr result (λ fault. IsHelp fault → ⊥) }
{
    let port = port_in(found)?;
    let turns = turns_in(found)?;
    let dir = dir_in(alloc, found)?;
    Ok(Line::Serve { dir, port, turns })
}

// The command that was matched.
fn line_in(alloc: Global, name: &str, found: &ArgMatches<'_>) -> Result<Line, LineFault>
    ensures line { IfOk result (λ line. IsLine (name.now, rows_of (found_of found.now)) line) }
    ensures usage { IsErrOf result Usage → IsNoLine (name.now, rows_of (found_of found.now)) }
    ensures no_help { IfErr result (λ fault. IsHelp fault → ⊥) }
{
    if name == "form" {
        let dir = dir_in(alloc, found)?;
        return Ok(Line::Form { dir });
    }
    if name == "serve" {
        return serve_in(alloc, found);
    }
    if name == "show" {
        let dir = dir_in(alloc, found)?;
        return Ok(Line::Show { dir });
    }
    if name == "script" {
        return Ok(Line::Script);
    }
    Err(LineFault::Usage)
}

// Why there is no match: the text of the help and of the version is clap's.
fn fault_of(alloc: Global, error: &Error) -> LineFault
    ensures { IsFaultOf (kind_of error.now) result }
{
    match error.kind() {
        ErrorKind::DisplayHelp | ErrorKind::DisplayVersion => match error.to_string(alloc) {
            Ok(text) => LineFault::Help(text),
            Err(_) => LineFault::Memory,
        },
        ErrorKind::OutOfMemory => LineFault::Memory,
        _ => LineFault::Usage,
    }
}

/// Reads a command line, the program's name first, as `clap` matches it.
pub fn line(alloc: Global, words: &[String]) -> Result<Line, LineFault>
    // The line is the command that the words name, with what stands after it there.
    ensures line { IfOk result (λ line. IsLineOf (subcommand_of cuectl_app (map string_bytes words.now)) line) }
    // Words at which clap stops are no command, and words that ask for help or for the version are kept apart.
    ensures taken { OnOk result (fault_of cuectl_app (map string_bytes words.now) ≡ []) }
    // They are refused only if clap stops for another reason, if they name no command, or if the port is 0.
    ensures usage { IsErrOf result Usage → IsNoCommand (map string_bytes words.now) }
    ensures help { IfErr result (λ fault. IsHelp fault
        → AsksForText (fault_of cuectl_app (map string_bytes words.now))) }
{
    let command = cuectl(alloc)?;
    match command.try_get_matches_from(words) {
        Ok(matches) => match matches.subcommand() {
            Some((name, found)) => line_in(alloc, name, found),
            None => Err(LineFault::Usage),
        },
        Err(error) => Err(fault_of(alloc, &error)),
    }
}
