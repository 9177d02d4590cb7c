//! What the report says, in words: the same in each of its forms.
ghost use Rattle.std.specs.Prelude.{◌≡◌, ◌++◌, [], codes, decimal, IfNone, IfOk, IsTrue, OnOk, string_bytes};
ghost use Rattle.std.specs.List.{list_all};
ghost use Rattle.std.specs.Str.{chars};
ghost use Rattle.cue_words.specs.Signs.{is_shown};
ghost use Rattle.cue_report.specs.Names as names;
ghost use Rattle.cue_report.specs.Seen as seen;
ghost use Rattle.cue_report.specs.Telling as spec;

mod devices;
mod evening;

use crate::attempt::{Attempt, Ended, Moment, Who};
use crate::dates::Times;
use crate::names::Names;
use cue_log_lines::{Asked, Count, Why};
use cue_show::{CueNo, DeviceNo};
use cue_words::{code_words, outcome_words, reason_words, shown_text};
pub use devices::{courses_words, end_words, remark_words};
pub use evening::{counts_words, more_words, refusal_words, run_words, span_words, totals_words};
use std::alloc::{AllocError, Global};
use std::fmt::Write;

/// What is said, if there is memory for it.
pub type Words = Result<String, AllocError>;

/// What is said of a whole evening: how its times are shown, and the names of its show file.
#[derive(Clone, Copy)]
pub struct Told<'a> {
    pub alloc: Global,
    pub times: Times,
    pub names: &'a Names,
}

/// Bytes of a log as text that a terminal may get.
pub fn shown_bytes(alloc: Global, bytes: &[u8]) -> Words
    ensures { IfOk result (λ text. IsTrue (list_all is_shown (chars (string_bytes text)))) }
{
    let text = String::from_utf8_lossy(alloc, bytes)?;
    shown_text(alloc, text.as_str())
}

/// Why a preparation was given up: `device 3 aborted`.
pub fn why_words(alloc: Global, why: Why) -> Words
    ensures { IfOk result (λ text. string_bytes text ≡ seen.why_words why) }
{
    match why {
        Why::Aborted(device) => format!(in alloc; "device {} aborted", device.number()),
        Why::Released(device) => format!(in alloc; "device {} was released", device.number()),
        Why::Said(reason) => String::from_str(alloc, reason_words(reason)),
    }
}

/// How often refusals were counted, after these words: `, 80 times more in 1.0 s`.
pub fn counted_words(alloc: Global, said: &str, count: Count) -> Words
    ensures { IfOk result (λ text. string_bytes text ≡ spec.counted_words said.now count) }
{
    let word = if count.times == 1 { "time" } else { "times" };
    let span = count.span;
    format!(in alloc;
        "{said}, {} {word} more in {}.{} s",
        count.times, span.seconds, span.tenths
    )
}

/// What was refused, and why: `/cue/12/go: code 13, not every device is ready`.
pub fn refused_words(alloc: Global, reply: &Asked<'_>, code: u16, count: Option<Count>) -> Words {
    let address = shown_bytes(alloc, reply.address.bytes())?;
    let mut text = format!(in alloc;
        "{}: code {code}, {}",
        address.as_str(),
        code_words(i32::from(code))
    )?;
    if !reply.more.bytes().is_empty() {
        text.push_str(": ")?;
        text.push_str(shown_bytes(alloc, reply.more.bytes())?.as_str())?;
    }
    if !reply.is_sent {
        text.push_str(", the reply was not sent")?;
    }
    match count {
        Some(count) => counted_words(alloc, text.as_str(), count),
        None => Ok(text),
    }
}

/// Puts a piece after a text, with a comma between them; nothing if one of them is empty.
pub fn push_piece(text: &mut String, piece: &str) -> Result<(), AllocError>
    ensures { OnOk result (string_bytes text.new ≡ spec.joined (string_bytes text.old) piece.now) }
{
    if !text.is_empty() && !piece.is_empty() {
        text.push_str(", ")?;
    }
    text.push_str(piece)
}

/// How an attempt ended, by the line of its end; if the log has none, that is said.
pub fn ending_words(ended: Option<Ended>) -> &'static str
    ensures { result.now ≡ spec.ending_words ended }
{
    match ended {
        Some(ended) => outcome_words(ended.outcome),
        None => "no end in this log",
    }
}

impl Told<'_> {
    /// The time of day of a second.
    pub fn moment(self, at: u64) -> Words {
        self.times.moment(self.alloc, at)
    }

    // A name in quotation marks; empty if there is none.
    fn quoted(self, name: &str) -> Words
        ensures { IfOk result (λ text. IsTrue (spec.is_none name.now) → string_bytes text ≡ []) }
    {
        if name.is_empty() {
            return Ok(String::new(self.alloc));
        }
        let shown = shown_text(self.alloc, name)?;
        format!(in self.alloc; " \"{}\"", shown.as_str())
    }

    /// A device with its name: `device 4 "Lamp"`.
    pub fn device(self, device: DeviceNo) -> Words
        ensures { IfOk result (λ text. spec.IsNamed (codes "device " ++ decimal device)
            (names.device_name self.entry.names.now device) (string_bytes text)) }
    {
        let name = self.quoted(self.names.device_name(&device))?;
        format!(in self.alloc; "device {}{}", device.number(), name.as_str())
    }

    /// A cue with its name: `cue 12 "Blackout"`.
    pub fn cue(self, cue: Option<CueNo>) -> Words {
        let Some(cue) = cue else {
            return String::from_str(self.alloc, "a cue of which the log does not say which");
        };
        let name = self.quoted(self.names.cue_name(&cue))?;
        let lost = match self.names.place_of(&cue) {
            Some(_) => "",
            None => ", which is not in the file",
        };
        format!(in self.alloc; "cue {}{}{lost}", cue.text().escape_ascii(), name.as_str())
    }

    /// Who asked: a device with its name, the name that was sent, or the port; empty if the log does not say.
    pub fn who(self, who: Who) -> Words
        ensures { IfOk result (λ text. spec.IsAsker who (string_bytes text)) }
    {
        match who {
            Who::Device(device) => self.device(device),
            Who::Named(name) => shown_bytes(self.alloc, name.text()),
            Who::Port(port) => format!(in self.alloc; "port {port}"),
            Who::Unseen => Ok(String::new(self.alloc)),
        }
    }

    /// When something was done, and by whom: `given 12:13:38 by anna`; empty if it was not.
    pub fn done(self, what: &str, moment: Option<Moment>) -> Words
        ensures { IfOk result (λ text. IfNone moment (string_bytes text ≡ [])) }
    {
        let Some(moment) = moment else {
            return Ok(String::new(self.alloc));
        };
        let clock = self.moment(moment.at)?;
        let by = self.who(moment.by)?;
        let word = if by.is_empty() { "" } else { " by " };
        format!(in self.alloc; "{what}{}{word}{}", clock.as_str(), by.as_str())
    }

    // When an attempt ended, and how long after its standby.
    fn end(self, attempt: &Attempt) -> Words {
        let mut text = String::new(self.alloc);
        if let Some(ended) = attempt.ended {
            write!(text, "ended {}", self.moment(ended.at)?.as_str())?;
        }
        if let Some(after) = attempt.after {
            let (seconds, tenths) = (after.seconds, after.tenths);
            write!(text, ", {seconds}.{tenths} s after the standby")?;
        }
        Ok(text)
    }

    /// When an attempt was stood by, given, given up and ended, and by whom.
    pub fn times(self, attempt: &Attempt) -> Words {
        let mut text = String::new(self.alloc);
        if attempt.begun.is_none() {
            text.push_str("begun before this log")?;
        }
        push_piece(&mut text, self.done("stood by ", attempt.begun)?.as_str())?;
        push_piece(&mut text, self.done("given ", attempt.given)?.as_str())?;
        push_piece(
            &mut text,
            self.done("given up ", attempt.given_up)?.as_str(),
        )?;
        push_piece(&mut text, self.end(attempt)?.as_str())?;
        Ok(text)
    }
}
