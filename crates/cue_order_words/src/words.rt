//! The words for what is told of a command.
ghost use Rattle.std.specs.Prelude.{◌≡◌};
ghost use Rattle.std.specs.Fmt.{WritesOnOk};
ghost use Rattle.cue_order_words.specs.Words as words;

use crate::told::Told;
use cue_desk::orders::DeskCommand;
use cue_desk::replying::Status;
use cue_exchange::Outcome;
use cue_show::CueNo;
use cue_show_file::cue_text;
use cue_words::{code_words, outcome_words};
use std::fmt;

/// What is told of a command that was asked at this port, as one line; a status is four.
#[derive(Clone, Copy, Drop)]
pub struct Answer<'a> {
    pub told: &'a Told,
    pub order: &'a DeskCommand,
    pub port: u16,
}

// The outcome with this number, if there is one.
fn outcome_in(number: i32) -> Option<Outcome>
    ensures { result ≡ words.outcome_in number }
{
    match u8::try_from(number) {
        Ok(number) => Outcome::of_number(number),
        Err(_) => None,
    }
}

// How the attempt with this outcome ended; there is none before the first has ended.
fn ended_words(outcome: i32) -> &'static str
    ensures { result.now ≡ words.ended_words outcome }
{
    match outcome_in(outcome) {
        Some(outcome) => outcome_words(outcome),
        None => "none has ended",
    }
}

// What is known of a command to which nobody replied.
fn open_words(order: &DeskCommand) -> &'static str
    ensures { result.now ≡ words.open_words order.now }
{
    match order {
        DeskCommand::Status => "is serve running, and not stopped?",
        DeskCommand::OfCue(_, _) | DeskCommand::Release(_) | DeskCommand::RemoveDevice(_) => {
            "it was carried out whole, or not at all, or will be when serve goes on: look at the board"
        }
    }
}

// The place; a dash if there is none.
fn place_words(place: &Option<CueNo>) -> &str
    ensures { result.now ≡ words.place_words place.now }
{
    match place {
        Some(cue) => cue_text(cue),
        None => "-",
    }
}

// How the show stands, a line for each fact.
fn write_status<W: fmt::Write>(f: &mut fmt::Formatter<W>, status: &Status) -> fmt::Result
    ensures { WritesOnOk W.write_str_gives f.old result (words.status_words status.now) f.new }
{
    let (last, live) = (status.last, status.live);
    let place = place_words(&status.place);
    let ended = status.ended;
    let how = ended_words(status.outcome);
    write!(
        f,
        "last attempt {last}\nlive {live}\nplace {place}\nended {ended}, {how}"
    )
}

// That it was refused, and why.
fn write_refused<W: fmt::Write>(f: &mut fmt::Formatter<W>, code: i32) -> fmt::Result
    ensures { WritesOnOk W.write_str_gives f.old result (words.refused_words code) f.new }
{
    let why = code_words(code);
    write!(f, "refused, code {code}: {why}")
}

// That only some of several cues stand by, and why.
fn write_partly<W: fmt::Write>(f: &mut fmt::Formatter<W>, code: i32) -> fmt::Result
    ensures { WritesOnOk W.write_str_gives f.old result (words.partly_words code) f.new }
{
    let why = code_words(code);
    write!(
        f,
        "NOT ALL of them stand by, code {code}: {why}: look at the board"
    )
}

// That nobody listens at the port.
fn write_nobody<W: fmt::Write>(f: &mut fmt::Formatter<W>, port: u16) -> fmt::Result
    ensures { WritesOnOk W.write_str_gives f.old result (words.nobody_words port) f.new }
{
    write!(
        f,
        "nobody listens at 127.0.0.1:{port}: nothing was carried out"
    )
}

// That nobody replied, and what is known then.
fn write_silent<W: fmt::Write>(f: &mut fmt::Formatter<W>, known: &str, port: u16) -> fmt::Result
    ensures { WritesOnOk W.write_str_gives f.old result (words.silent_words known.now port) f.new }
{
    write!(
        f,
        "nobody replied at 127.0.0.1:{port} within a second: {known}"
    )
}

impl fmt::Display for Answer<'_> {
    ghost use Rattle.std.specs.Prelude.{Some};
    ghost use Rattle.cue_order_words.specs.Words.{answer_words};

    ghost output = { λ answer. Some (answer_words answer.told.now answer.order.now answer.port) };

    fn fmt<W: fmt::Write>(&self, f: &mut fmt::Formatter<W>) -> fmt::Result {
        match self.told {
            Told::Made => f.write_str("made"),
            Told::Known => f.write_str("known: it was so already"),
            Told::Refused(code) => write_refused(f, *code),
            Told::Partly(code) => write_partly(f, *code),
            Told::Status(status) => write_status(f, status),
            Told::Nobody => write_nobody(f, self.port),
            Told::Silent => write_silent(f, open_words(self.order), self.port),
            Told::Unclear => {
                f.write_str("the reply does not say what became of it: look at the board")
            }
        }
    }
}
