//! The commands over one file or folder alone, and what stands after them.
use super::arguments::{Argument, Declared, FILE};
use super::text_in;
use super::words::Line;
use clap::ArgMatches;
use cue_desk::line::LineFault;
use std::alloc::Global;

/// The command `sheet`.
pub(super) const SHEET_COMMAND: Declared = Declared {
    name: "sheet",
    about: "Print the cue sheet of a show file:  cuedesk sheet evening.toml",
    arguments: &[
        FILE,
        Argument::Flag(
            "html",
            "Print it as a page for a browser:  cuedesk sheet evening.toml --html > sheet.html",
        ),
        Argument::OptionOf("title", "TITLE", "What the show is called"),
    ],
};

/// The command `new`.
pub(super) const NEW_COMMAND: Declared = Declared {
    name: "new",
    about: "Write a show file to begin with:  cuedesk new evening.toml",
    arguments: &[Argument::Word("FILE", "The show file to write, which is not there yet")],
};

/// The command `sheet`, with what stands after it.
pub(super) fn sheet_in(alloc: Global, found: &ArgMatches<'_>) -> Result<Line, LineFault> {
    Ok(Line::Sheet {
        file: text_in(alloc, found, "FILE")?,
        html: found.get_flag("html"),
        title: String::from_str(alloc, found.get_str("title").unwrap_or(""))?,
    })
}

/// The command `new`, with what stands after it.
pub(super) fn new_in(alloc: Global, found: &ArgMatches<'_>) -> Result<Line, LineFault> {
    Ok(Line::New {
        file: text_in(alloc, found, "FILE")?,
    })
}

/// The command `check`, with what stands after it.
pub(super) fn check_in(alloc: Global, found: &ArgMatches<'_>) -> Result<Line, LineFault> {
    Ok(Line::Check {
        file: text_in(alloc, found, "FILE")?,
    })
}

/// The command `export`, with what stands after it.
pub(super) fn export_in(alloc: Global, found: &ArgMatches<'_>) -> Result<Line, LineFault> {
    Ok(Line::Export {
        dir: text_in(alloc, found, "DIR")?,
    })
}
