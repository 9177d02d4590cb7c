//! Wishes, keys and presses in words, and why nothing is pressed.
ghost use Rattle.std.specs.Prelude.{◌≡◌, IfOk, string_bytes};
ghost use Rattle.cue_press_words.specs.Words as words;
ghost use Rattle.cue_press_words.specs.Words.{IsTrouble};

use cue_board::{alarm_words, with_words};
use cue_exchange::{Answer, Answers, Stage};
use cue_presses::{Intent, Key, Spoken, Why};
use cue_show::CueNo;
use cue_show_file::{Group, cue_text, others_of};
use cue_view::button::Button;
use cue_view::view::{Alarm, LiveAttempt, Next, View};
use std::alloc::{AllocError, Global};
use std::fmt::Write as _;

/// A key in words, as `note 62`.
pub fn key_words(alloc: Global, key: Key) -> Result<String, AllocError>
    ensures { IfOk result (λ text. string_bytes text ≡ words.key_words key) }
{
    match key {
        Key::Note(note) => format!(in alloc; "note {note}"),
        Key::Controller(number) => format!(in alloc; "controller {number}"),
    }
}

// A word, and the cue that stands after it, if one does.
fn named_words(alloc: Global, word: &str, cue: Option<CueNo>) -> Result<String, AllocError>
    ensures { IfOk result (λ text. string_bytes text ≡ words.named_words word.now cue) }
{
    match cue {
        Some(cue) => {
            let cue = cue_text(&cue);
            format!(in alloc; "{word} of cue {cue}")
        }
        None => String::from_str(alloc, word),
    }
}

/// An intent in words, as `GO of cue 12`.
pub fn intent_words(alloc: Global, intent: &Intent) -> Result<String, AllocError>
    ensures { IfOk result (λ text. string_bytes text ≡ words.intent_words intent.now) }
{
    match intent {
        Intent::Standby(cue) => named_words(alloc, "STANDBY", *cue),
        Intent::Go(cue) => named_words(alloc, "GO", *cue),
        Intent::Cancel => String::from_str(alloc, "CANCEL"),
    }
}

// STANDBY of a cue, with those that stand by together with it.
fn standby_words(alloc: Global, cue: CueNo, groups: &[Group]) -> Result<String, AllocError>
    ensures { IfOk result (λ text. string_bytes text ≡ words.standby_words groups.now cue) }
{
    let with = with_words(alloc, others_of(groups, cue))?;
    let (cue, with) = (cue_text(&cue), with.as_str());
    format!(in alloc; "STANDBY of cue {cue}{with}")
}

/// A button in words, as `GO of cue 12`. These cues are stood by together.
pub fn button_words(alloc: Global, button: Button, groups: &[Group]) -> Result<String, AllocError>
    ensures { IfOk result (λ text. string_bytes text ≡ words.button_words groups.now button) }
{
    match button {
        Button::Standby(cue) => standby_words(alloc, cue, groups),
        Button::Go(cue, _) => named_words(alloc, "GO", Some(cue)),
        Button::Cancel(cue, _) => named_words(alloc, "CANCEL", Some(cue)),
        Button::MoveTo(cue) => named_words(alloc, "move", Some(cue)),
        Button::Release(_, device) => {
            let device = device.number();
            format!(in alloc; "release of device {device}")
        }
        Button::Choose(attempt) => format!(in alloc; "choice of attempt {attempt}"),
        Button::Seen(attempt) => format!(in alloc; "attempt {attempt} was seen"),
    }
}

// Whether the alarm says that nothing is lit.
fn is_dark(alarm: &Alarm) -> bool
    ensures { result ≡ words.is_dark alarm.now }
{
    match alarm {
        Alarm::NobodyListens | Alarm::Silent(_) | Alarm::OtherStore(_) => true,
        Alarm::Unread(_) | Alarm::Old(_) => true,
        Alarm::NotShown(_) | Alarm::RelayStopped(_) | Alarm::ClockPutBack(_) => false,
        Alarm::Failed(_) | Alarm::DeviceSilent(_) => false,
    }
}

// The first of the alarms that says that nothing is lit.
fn first_dark(alarms: &[Alarm]) -> Option<Alarm>
    ensures { result ≡ words.first_dark alarms.now }
{
    match alarms {
        [] => None,
        [alarm, others @ ..] => if is_dark(alarm) {
            Some(*alarm)
        } else {
            first_dark(others)
        },
    }
}

/// The alarm by which no button of the view is lit, if there is one: the loudest.
pub fn trouble_of(view: &View) -> Option<Alarm>
    ensures { result ≡ words.trouble_of view.now }
{
    first_dark(&view.alarms)
}

/// Why no button of the view is lit, if that is so. `port` is that of the controller.
pub fn trouble_words(alloc: Global, view: &View, port: u16) -> Result<Option<String>, AllocError>
    ensures { IfOk result (λ said. IsTrouble (words.trouble_of view.now) port view.now.at said) }
{
    match trouble_of(view) {
        Some(alarm) => Ok(Some(alarm_words(alloc, alarm, view.at, port)?)),
        None => Ok(None),
    }
}

// The numbers of the devices that are waited for, with commas.
fn waited_for(alloc: Global, answers: &Answers) -> Result<String, AllocError> {
    let mut text = String::new(alloc);
    for answer in answers.as_slice() {
        if answer.answer == Answer::Waiting {
            let (comma, device) = (
                if text.is_empty() { "" } else { ", " },
                answer.device.number(),
            );
            write!(text, "{comma}{device}")?;
        }
    }
    Ok(text)
}

// How an attempt that prepares keeps GO waiting.
fn preparing_words(alloc: Global, attempt: &LiveAttempt) -> Result<String, AllocError> {
    let cue = attempt.cue.text().escape_ascii();
    let devices = waited_for(alloc, &attempt.devices)?;
    if attempt.left == 0 {
        return format!(in alloc; "the ten seconds of cue {cue} are over");
    }
    if attempt.ready {
        return format!(in alloc; "cue {cue} is ready");
    }
    if devices.is_empty() {
        return format!(in alloc; "cue {cue} is held");
    }
    let (word, devices) = (
        if devices.contains(",") {
            "devices"
        } else {
            "device"
        },
        devices.as_str(),
    );
    format!(in alloc; "cue {cue} waits for {word} {devices}")
}

// How far an attempt has come.
fn attempt_words(alloc: Global, attempt: &LiveAttempt) -> Result<String, AllocError> {
    let cue = attempt.cue.text().escape_ascii();
    match attempt.stage {
        Stage::Preparing => preparing_words(alloc, attempt),
        Stage::Decided => format!(in alloc; "cue {cue} is given"),
        Stage::Cancelling(_) => format!(in alloc; "cue {cue} is given up"),
    }
}

// How far each attempt has come that may be meant, joined by semicolons; empty if there is none.
fn each_attempt(alloc: Global, view: &View, cue: Option<CueNo>) -> Result<String, AllocError> {
    let mut text = String::new(alloc);
    for attempt in &view.live {
        if cue.is_none() || cue == Some(attempt.cue) {
            let (semicolon, words) = (
                if text.is_empty() { "" } else { "; " },
                attempt_words(alloc, attempt)?,
            );
            let words = words.as_str();
            write!(text, "{semicolon}{words}")?;
        }
    }
    Ok(text)
}

// What is said if nothing is live that is meant.
fn none_words(view: &View, intent: &Intent) -> &'static str {
    match intent {
        Intent::Go(None) | Intent::Cancel if view.chosen.is_some() => {
            "the cue that was stood by here last is not live any more"
        }
        _ => "this cue does not stand by",
    }
}

// What is said of the attempts, or these words if there is none.
fn attempts_or(
    alloc: Global,
    view: &View,
    cue: Option<CueNo>,
    none: &str,
) -> Result<String, AllocError> {
    let text = each_attempt(alloc, view, cue)?;
    if text.is_empty() {
        return String::from_str(alloc, none);
    }
    Ok(text)
}

// That no cue is next.
fn no_next_words(next: Next) -> &'static str {
    match next {
        Next::Cue(_) => "another cue is next",
        Next::Empty => "the stack has no cue",
        Next::End => "no cue is next: the stack is at its end",
        Next::Unknown => "which cue is next is not known: move to a cue",
    }
}

// That another cue is next.
fn other_next_words(alloc: Global, next: Next) -> Result<String, AllocError> {
    match next {
        Next::Cue(cue) => {
            let cue = cue.text().escape_ascii();
            format!(in alloc; "cue {cue} is next: nothing moves the place but `goto` and GO")
        }
        _ => String::from_str(alloc, no_next_words(next)),
    }
}

// The cue that the chosen attempt is at.
fn chosen_cue(view: &View) -> Option<CueNo> {
    let chosen = view
        .live
        .iter()
        .find(|attempt| view.chosen == Some(attempt.seq));
    chosen.map(|attempt| attempt.cue)
}

// The cue that an intent is of.
fn cue_of(view: &View, intent: &Intent) -> Option<CueNo> {
    match intent {
        Intent::Standby(Some(cue)) | Intent::Go(Some(cue)) => Some(*cue),
        Intent::Standby(None) => match view.next {
            Next::Cue(cue) => Some(cue),
            _ => None,
        },
        Intent::Go(None) | Intent::Cancel => chosen_cue(view),
    }
}

// How far the attempt has come that is meant.
fn this_words(alloc: Global, view: &View, intent: &Intent) -> Result<String, AllocError> {
    let none = none_words(view, intent);
    match cue_of(view, intent) {
        Some(cue) => attempts_or(alloc, view, Some(cue), none),
        None => String::from_str(alloc, none),
    }
}

// A cue that prepares, as an example; if there is none, any.
fn example_cue(view: &View) -> &str {
    let prepares = view
        .live
        .iter()
        .find(|attempt| attempt.stage.is_preparing());
    match prepares {
        Some(attempt) => cue_text(&attempt.cue),
        None => "12",
    }
}

/// Why an intent presses nothing, in words. The view is the one that it was looked up in.
pub fn why_words(
    alloc: Global,
    view: &View,
    intent: &Intent,
    why: Why,
) -> Result<String, AllocError> {
    match why {
        Why::NoNext => String::from_str(alloc, no_next_words(view.next)),
        Why::OtherNext => other_next_words(alloc, view.next),
        Why::Nobody => attempts_or(alloc, view, None, "no cue stands by"),
        Why::IsLive | Why::NotThis => this_words(alloc, view, intent),
        Why::Many => {
            let each = each_attempt(alloc, view, None)?;
            let (each, example) = (each.as_str(), example_cue(view));
            format!(in alloc; "more than one: {each}: name one, as `cuedesk go {example}`")
        }
        Why::Passed => {
            let each = each_attempt(alloc, view, None)?;
            let (each, example) = (each.as_str(), example_cue(view));
            format!(in alloc;
                "{each}, but it stood by before the last GO: give it by its number, as `cuedesk go {example}`"
            )
        }
        Why::Awaited => String::from_str(
            alloc,
            "the cue that was stood by last is not shown yet: press again",
        ),
    }
}

/// What a command of show control is that intends nothing, in words.
pub fn spoken_words(alloc: Global, spoken: &Spoken) -> Result<String, AllocError> {
    match spoken {
        Spoken::Intent(intent) => intent_words(alloc, intent),
        Spoken::Elsewhere => String::from_str(alloc, "it is for another device or format"),
        Spoken::OtherCommand(command) => {
            format!(in alloc; "command {command:02x} is none of GO and LOAD: nothing is pressed")
        }
        Spoken::NoCue => String::from_str(alloc, "LOAD names no cue: nothing is pressed"),
        Spoken::OtherList => String::from_str(
            alloc,
            "it names a cue of another list: nothing is pressed; --list takes one list",
        ),
        Spoken::Unfit => String::from_str(
            alloc,
            "it names no cue that a show can have, or a path: nothing is pressed",
        ),
    }
}
