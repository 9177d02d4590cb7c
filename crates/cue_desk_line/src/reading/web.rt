//! The command `web`, and what stands after it.
ghost use Rattle.std.specs.Prelude.{◌≡◌, ◌↔◌, string_bytes, IfOk, IfSome, IsTrue};
ghost use Rattle.cue_request.specs.Identity.{IsName};
ghost use Rattle.cue_desk_line.specs.Pages.{fit_of, IsLock, IsShown, IsUse};

use super::arguments::{ASKER, Argument, Bits, DIR, Declared, NAMES, PORT_OR_FILE, RELAY_STATUS};
use super::reporting::asker_in;
use super::{no_port, option_in, port_in, text_in};
use clap::ArgMatches;
use cue_asker::AskerName;
use cue_desk::line::{LineFault, unfit};
use cue_request::identity::is_name;
use cue_request::lock::is_word;
use std::alloc::Global;

/// The word of the lock of a show, or where it stands.
#[derive(Drop)]
pub enum LockWord {
    Said(String),
    /// The first line of this file is the word.
    InFile(String),
}

/// What a page is for.
#[derive(Drop)]
pub enum PageUse {
    /// Its buttons are pressed; some of them want a word, if one is given.
    Plays(Option<LockWord>),
    /// It only shows. A proxy gives it this name, if there is one.
    Shows(Option<String>),
}

/// What is shown as a page, and where.
#[derive(Drop)]
pub struct Web {
    /// The folder of the store.
    pub dir: String,
    /// The show file, for names and notes.
    pub file: Option<String>,
    /// The file in which a relay reports.
    pub relay: Option<String>,
    /// The file in which the alarms are kept.
    pub alarms: Option<String>,
    /// The file of the marks of the evening, which the page shows and writes.
    pub marks: Option<String>,
    /// The port of 127.0.0.1 at which the page is.
    pub http: u16,
    /// The port of the controller, if the command line or the environment says it.
    pub port: Option<u16>,
    /// Who presses, if the command line or the environment says it.
    pub name: Option<AskerName>,
    pub page_use: PageUse,
}

/// Whether the options of a page go together.
#[derive(Clone, Copy)]
pub enum Fit {
    Together,
    /// A page with buttons stays on this machine: it has no other name.
    NameOfButtons,
    /// A page that only shows has nothing to lock.
    LockWithoutButtons,
    /// The word of the lock is said twice.
    TwoWords,
}

/// The command `web`.
pub(super) const WEB_COMMAND: Declared = Declared {
    name: "web",
    about: "Show the board with buttons in a browser:  cuedesk web show evening.toml --http 8080",
    arguments: &[
        DIR,
        NAMES,
        Argument::RequiredNumber(
            Bits::Of16,
            "http",
            "The port of 127.0.0.1 at which the page is served",
        ),
        Argument::Flag(
            "read-only",
            "The page only shows: it has no buttons, and takes no press",
        ),
        Argument::Option(
            "host",
            "With --read-only: the name that a proxy gives the page, as fly.example or fly.example:8443",
        ),
        Argument::Option(
            "lock",
            "Goto and release want this word first; others of this machine can read it here",
        ),
        Argument::Option(
            "lock-file",
            "The same, with the first line of this file as the word",
        ),
        RELAY_STATUS,
        Argument::Option(
            "alarms",
            "Keeps the alarms that nobody has seen in this file; with --read-only: those of the page that keeps them",
        ),
        Argument::Option(
            "marks",
            "Shows how long the act has lasted, by the marks in this file; with buttons, it writes them there, too",
        ),
        PORT_OR_FILE,
        ASKER,
    ],
};

// Whether the options go together that are given.
fn fit_of(is_read_only: bool, has_host: bool, has_lock: bool, has_file: bool) -> Fit
    ensures { result ≡ fit_of is_read_only has_host has_lock has_file }
{
    if is_read_only && (has_lock || has_file) {
        Fit::LockWithoutButtons
    } else if has_host && !is_read_only {
        Fit::NameOfButtons
    } else if has_lock && has_file {
        Fit::TwoWords
    } else {
        Fit::Together
    }
}

// Why the options do not go together, in words; none if they do.
fn misfit(alloc: Global, fit: Fit) -> Option<LineFault> {
    let (option, words) = match fit {
        Fit::Together => return None,
        Fit::NameOfButtons => (
            "--host",
            "wants --read-only beside it: a page that gives cues stays on this machine",
        ),
        Fit::LockWithoutButtons => (
            "--read-only",
            "takes no press, so there is nothing to lock: leave out one of the two",
        ),
        Fit::TwoWords => (
            "--lock-file",
            "has the word, and so has --lock: leave out one of the two",
        ),
    };
    Some(unfit(alloc, option, words))
}

// The name that a proxy gives the page, in lower case as browsers say it.
fn host_in(alloc: Global, found: &ArgMatches<'_>) -> Result<Option<String>, LineFault>
    ensures { IfOk result (λ host. IfSome host (λ name. IsName (string_bytes name))) }
{
    let Some(text) = found.get_str("host") else {
        return Ok(None);
    };
    let name = text.to_ascii_lowercase(alloc)?;
    if is_name(name.as_bytes()) {
        return Ok(Some(name));
    }
    Err(unfit(
        alloc,
        text,
        "is no name of a page: write what the browser has between https:// and the next slash, \
        as fly.example, or fly.example:8443; 443 and 80 are left out",
    ))
}

// The word of the lock, as it is said.
fn said_lock(alloc: Global, word: &str) -> Result<LockWord, LineFault>
    ensures { IfOk result IsLock }
{
    if !is_word(word.as_bytes()) {
        return Err(unfit(
            alloc,
            "--lock",
            "wants a word of 1 to 64 letters, digits and signs of ASCII, without spaces",
        ));
    }
    Ok(LockWord::Said(String::from_str(alloc, word)?))
}

// The word of the lock, or where it stands.
fn lock_in(alloc: Global, found: &ArgMatches<'_>) -> Result<Option<LockWord>, LineFault>
    ensures { IfOk result (λ lock. IfSome lock IsLock) }
{
    if let Some(word) = found.get_str("lock") {
        return Ok(Some(said_lock(alloc, word)?));
    }
    match found.get_str("lock-file") {
        Some(path) => Ok(Some(LockWord::InFile(String::from_str(alloc, path)?))),
        None => Ok(None),
    }
}

// What the page is for, if it is read-only or not, and its other options go together.
fn use_of(alloc: Global, found: &ArgMatches<'_>, is_read_only: bool) -> Result<PageUse, LineFault>
    ensures words { IfOk result IsUse }
    ensures shows { IfOk result (λ page_use. IsShown page_use ↔ IsTrue is_read_only) }
{
    if is_read_only {
        Ok(PageUse::Shows(host_in(alloc, found)?))
    } else {
        Ok(PageUse::Plays(lock_in(alloc, found)?))
    }
}

// What the page is for.
fn use_in(alloc: Global, found: &ArgMatches<'_>) -> Result<PageUse, LineFault>
    ensures { IfOk result IsUse }
{
    let is_read_only = found.get_flag("read-only");
    let fit = fit_of(
        is_read_only,
        found.contains_id("host"),
        found.contains_id("lock"),
        found.contains_id("lock-file"),
    );
    match misfit(alloc, fit) {
        Some(fault) => Err(fault),
        None => use_of(alloc, found, is_read_only),
    }
}

// The port of 127.0.0.1 at which the page is.
fn http_in(alloc: Global, found: &ArgMatches<'_>) -> Result<u16, LineFault> {
    match found.get_one::<u16>("http") {
        Some(http) if http >= 1 => Ok(http),
        _ => Err(no_port(alloc, "0")),
    }
}

/// The command `web`, with what stands after it.
pub fn web_in(alloc: Global, found: &ArgMatches<'_>) -> Result<Web, LineFault>
    ensures { IfOk result (λ web. IsUse web.page_use) }
{
    Ok(Web {
        http: http_in(alloc, found)?,
        port: port_in(alloc, found)?,
        name: asker_in(alloc, found)?,
        page_use: use_in(alloc, found)?,
        dir: text_in(alloc, found, "DIR")?,
        file: option_in(alloc, found, "FILE")?,
        relay: option_in(alloc, found, "relay")?,
        alarms: option_in(alloc, found, "alarms")?,
        marks: option_in(alloc, found, "marks")?,
    })
}
