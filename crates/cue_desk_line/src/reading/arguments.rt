//! What stands after a command, and how `clap` is told of it.
use clap::builder::ValueParser;
use clap::{Arg, ArgAction, Command, value_parser};
use std::alloc::{AllocError, Global};

/// What may stand after a command: how it is written, its name, and what help says of it.
#[derive(Clone, Copy)]
pub(super) enum Argument {
    /// A word that has to be there.
    Word(&'static str, &'static str),
    /// A word that can be left out.
    OptionalWord(&'static str, &'static str),
    /// So many words at most.
    Words(&'static str, usize, &'static str),
    /// A flag, which is there or not.
    Flag(&'static str, &'static str),
    /// An option with a word after it.
    Option(&'static str, &'static str),
    /// The same, which has to be there.
    RequiredOption(&'static str, &'static str),
    /// An option with a word after it that help calls so.
    OptionOf(&'static str, &'static str, &'static str),
    /// The same, with the word after `=`; if it is left out, it is this one.
    OptionElse(&'static str, &'static str, &'static str, &'static str),
    /// An option with a number of these bits after it.
    Number(Bits, &'static str, &'static str),
    /// The same, which has to be there.
    RequiredNumber(Bits, &'static str, &'static str),
}

/// How large a number can be.
#[derive(Clone, Copy)]
pub(super) enum Bits {
    Of16,
    Of32,
    Of64,
}

/// A command: its name, what help says of it, and what stands after it.
#[derive(Clone, Copy)]
pub(super) struct Declared {
    pub name: &'static str,
    pub about: &'static str,
    pub arguments: &'static [Argument],
}

/// The folder of a store.
pub(super) const DIR: Argument = Argument::Word(
    "DIR",
    "The folder that a.area and b.area stand in",
);

/// A show file.
pub(super) const FILE: Argument = Argument::Word("FILE", "The show file");

/// The show file of a command that can do without.
pub(super) const NAMES: Argument = Argument::OptionalWord(
    "FILE",
    "The show file, for names and notes",
);

/// The port of the controller, of a command that reads no show file.
pub(super) const PORT: Argument = Argument::Number(
    Bits::Of16,
    "port",
    "The controller's port at 127.0.0.1; else CUEDESK_PORT says it, or it is 9100",
);

/// The port of the controller, of a command that reads a show file.
pub(super) const PORT_OR_FILE: Argument = Argument::Number(
    Bits::Of16,
    "port",
    "The controller's port at 127.0.0.1; else CUEDESK_PORT says it, or the show file, or it is 9100",
);

/// The file in which a relay reports.
pub(super) const RELAY_STATUS: Argument = Argument::Option(
    "relay",
    "What `cuedesk relay --status` writes: when each device was heard",
);

/// Who asks.
pub(super) const ASKER: Argument = Argument::Option(
    "as",
    "Who asks, for the log and the report: a to z, digits and -, 16 at most; else CUEDESK_AS says it",
);

// A word that can be left out.
fn word<'a>(alloc: Global, name: &'a str, help: &'a str) -> Arg<'a> {
    Arg::new(alloc, name).help(help).action(ArgAction::Set)
}

// A word that has to be there.
fn required_word<'a>(alloc: Global, name: &'a str, help: &'a str) -> Arg<'a> {
    word(alloc, name, help).required(true)
}

// So many words at most.
fn words<'a>(alloc: Global, name: &'a str, most: usize, help: &'a str) -> Arg<'a> {
    word(alloc, name, help).num_args(0..=most)
}

// A flag.
fn flag<'a>(alloc: Global, name: &'a str, help: &'a str) -> Arg<'a> {
    Arg::new(alloc, name)
        .help(help)
        .long(name)
        .action(ArgAction::SetTrue)
}

// An option with a word after it.
fn option<'a>(alloc: Global, name: &'a str, help: &'a str) -> Arg<'a> {
    word(alloc, name, help).long(name)
}

// The same, which has to be there.
fn required_option<'a>(alloc: Global, name: &'a str, help: &'a str) -> Arg<'a> {
    option(alloc, name, help).required(true)
}

// An option with a word after it that help calls so.
fn option_of<'a>(alloc: Global, name: &'a str, value: &'a str, help: &'a str) -> Arg<'a> {
    option(alloc, name, help).value_name(value)
}

// The same, with the word after `=`: without that sign it is no word of the option.
fn option_else<'a>(
    alloc: Global,
    name: &'a str,
    value: &'a str,
    missing: &'a str,
    help: &'a str,
) -> Arg<'a> {
    option_of(alloc, name, value, help)
        .num_args(0..=1)
        .require_equals(true)
        .default_missing_value(missing)
}

// How a number of these bits is read.
fn parser_of(bits: Bits) -> ValueParser<'static> {
    match bits {
        Bits::Of16 => value_parser!(u16),
        Bits::Of32 => value_parser!(u32),
        Bits::Of64 => value_parser!(u64),
    }
}

// An option with a number after it.
fn number<'a>(alloc: Global, bits: Bits, name: &'a str, help: &'a str) -> Arg<'a> {
    option(alloc, name, help).value_parser(parser_of(bits))
}

// The same, which has to be there.
fn required_number<'a>(alloc: Global, bits: Bits, name: &'a str, help: &'a str) -> Arg<'a> {
    number(alloc, bits, name, help).required(true)
}

// An argument, as `clap` knows it.
fn arg_of<'a>(alloc: Global, argument: Argument) -> Arg<'a> {
    match argument {
        Argument::Word(name, help) => required_word(alloc, name, help),
        Argument::OptionalWord(name, help) => word(alloc, name, help),
        Argument::Words(name, most, help) => words(alloc, name, most, help),
        Argument::Flag(name, help) => flag(alloc, name, help),
        Argument::Option(name, help) => option(alloc, name, help),
        Argument::RequiredOption(name, help) => required_option(alloc, name, help),
        Argument::OptionOf(name, value, help) => option_of(alloc, name, value, help),
        Argument::OptionElse(name, value, missing, help) => {
            option_else(alloc, name, value, missing, help)
        }
        Argument::Number(bits, name, help) => number(alloc, bits, name, help),
        Argument::RequiredNumber(bits, name, help) => required_number(alloc, bits, name, help),
    }
}

/// A command, as `clap` knows it.
pub(super) fn command_of<'a>(
    alloc: Global,
    declared: &Declared,
) -> Result<Command<'a>, AllocError> {
    let mut command = Command::new(alloc, declared.name).about(declared.about);
    for argument in declared.arguments {
        command = command.arg(arg_of(alloc, *argument))?;
    }
    Ok(command)
}

/// A command with these below it.
pub(super) fn with_all<'a>(
    alloc: Global,
    mut command: Command<'a>,
    below: &[Declared],
) -> Result<Command<'a>, AllocError> {
    for declared in below {
        command = with(command, command_of(alloc, declared))?;
    }
    Ok(command)
}

/// A command with one more below it.
pub(super) fn with<'a>(
    command: Command<'a>,
    below: Result<Command<'a>, AllocError>,
) -> Result<Command<'a>, AllocError> {
    command.subcommand(below?)
}
