//! The lines of a panel as text.
ghost use Rattle.std.specs.Prelude.{◌≡◌, ◌++◌, [], IfOk, OnOk, codes, string_bytes};
ghost use Rattle.cue_panel.specs.Lines as lines;
ghost use Rattle.cue_panel.specs.Lines.{IsLine, IsNotPressed, IsSpoken, Says};
ghost use Rattle.cue_panel.specs.Looking.{SaysEach};

use crate::line::Line;
use crate::pending::What;
use crate::taking::Source;
use cue_board::{alarm_words, became_words, unsent_words};
use cue_midi::Kind;
use cue_press_words::{button_words, intent_words, key_words, spoken_words, trouble_of, why_words};
use cue_presses::{Intent, Keys, Passed, Spoken, Tally, Why};
use cue_show_file::Group;
use cue_view::button::Button;
use cue_view::view::{Alarm, Became, Unsent, View};
use std::alloc::{AllocError, Global};
use std::mem;

/// The lines that are not printed yet, and what they need.
#[derive(Drop)]
pub struct Lines<'a> {
    alloc: Global,
    // The cues that STANDBY stands by together.
    together: &'a [Group],
    // The port of the controller.
    port: u16,
    tally: Tally,
    text: String,
}

/// What a panel says when it looks at a view.
#[derive(Clone, Copy)]
pub(crate) struct Looked {
    /// What became of the press before the newest one.
    pub before: Option<Line>,
    /// What became of the newest press.
    pub newest: Option<Line>,
    /// How many waited in the device.
    pub waited: Option<Line>,
    /// How many were too many at once.
    pub flooded: Option<Line>,
}

// A kind of message in words.
fn kind_words(kind: Kind) -> &'static str
    ensures { result.now ≡ lines.kind_words kind }
{
    match kind {
        Kind::NoteOff => "notes off",
        Kind::KeyPressure => "key pressure",
        Kind::Program => "program changes",
        Kind::ChannelPressure => "channel pressure",
        Kind::PitchBend => "pitch bends",
        Kind::Common => "common messages",
        Kind::RealTime => "real time",
        Kind::Exclusive => "exclusive messages",
        Kind::Long => "long exclusive messages",
        Kind::Cut => "cut messages",
    }
}

// A message in words.
fn passed_words(alloc: Global, passed: Passed) -> Result<String, AllocError>
    ensures { IfOk result (λ text. string_bytes text ≡ lines.passed_words passed) }
{
    match passed {
        Passed::Note(note) => format!(in alloc; "note {note}"),
        Passed::Controller(number) => format!(in alloc; "controller {number}"),
        Passed::Elsewhere => String::from_str(alloc, "show control for others"),
        Passed::Other(kind) => String::from_str(alloc, kind_words(kind)),
    }
}

// Where an intent comes from, in words.
fn source_words(alloc: Global, source: Source) -> Result<String, AllocError>
    ensures { IfOk result (λ text. string_bytes text ≡ lines.source_words source) }
{
    match source {
        Source::Key(passed) => passed_words(alloc, passed),
        Source::Show => String::from_str(alloc, "show control"),
    }
}

// These keys in words, and what each is.
fn keys_text(alloc: Global, standby: &str, go: &str, cancel: &str) -> Result<String, AllocError>
    ensures { IfOk result (λ text. string_bytes text ≡ lines.keys_text standby.now go.now cancel.now) }
{
    format!(in alloc; "{standby} is STANDBY, {go} is GO, {cancel} is CANCEL; Ctrl-C ends it")
}

// Which key is which.
fn keys_line(alloc: Global, keys: &Keys) -> Result<String, AllocError>
    ensures { IfOk result (λ text. string_bytes text ≡ lines.keys_line keys.now) }
{
    let standby = key_words(alloc, keys.standby)?;
    let go = key_words(alloc, keys.go)?;
    let cancel = key_words(alloc, keys.cancel)?;
    keys_text(alloc, standby.as_str(), go.as_str(), cancel.as_str())
}

// That a controller is down, and nobody knows since when.
fn held_line(alloc: Global, passed: Passed) -> Result<String, AllocError>
    ensures { IfOk result (λ text. string_bytes text ≡ lines.held_line passed) }
{
    let words = passed_words(alloc, passed)?;
    let words = words.as_str();
    format!(in alloc;
        "{words}: nobody knows since when it is held: nothing is sent: let it go, then it presses"
    )
}

// That a message is only counted.
fn not_taken_line(alloc: Global, passed: Passed) -> Result<String, AllocError>
    ensures { IfOk result (λ text. string_bytes text ≡ lines.not_taken_line passed) }
{
    let words = passed_words(alloc, passed)?;
    let words = words.as_str();
    format!(in alloc; "{words}: not taken, and only counted from now on")
}

// What a command of show control is that intends nothing.
fn spoken_line(alloc: Global, spoken: &Spoken) -> Result<String, AllocError>
    ensures { IfOk result (λ text. IsSpoken (string_bytes text)) }
{
    let words = spoken_words(alloc, spoken)?;
    let words = words.as_str();
    format!(in alloc; "show control: {words}")
}

// That a GO is the second tap of one finger.
fn tap_line(alloc: Global, source: Source) -> Result<String, AllocError>
    ensures { IfOk result (λ text. string_bytes text ≡ lines.tap_line source) }
{
    let source = source_words(alloc, source)?;
    let source = source.as_str();
    format!(in alloc; "{source}: GO: a second tap within a second: nothing is sent")
}

// That this presses nothing, and why.
fn unpressed_text(
    alloc: Global,
    source: &str,
    intent: &str,
    words: &str,
) -> Result<String, AllocError>
    ensures { IfOk result (λ text. string_bytes text ≡ lines.unpressed_text source.now intent.now words.now) }
{
    format!(in alloc; "{source}: {intent}: {words}: nothing is sent")
}

// One press, or several.
fn presses_word(count: u64) -> &'static str
    ensures { result.now ≡ lines.presses_word count }
{
    if count == 1 { "press" } else { "presses" }
}

// How many waited.
fn waited_line(alloc: Global, count: u64) -> Result<String, AllocError>
    ensures { IfOk result (λ text. string_bytes text ≡ lines.waited_line count) }
{
    let presses = presses_word(count);
    format!(in alloc; "{count} {presses} waited in the device, nobody knows how long: dropped")
}

// How many were too many.
fn flooded_line(alloc: Global, count: u64) -> Result<String, AllocError>
    ensures { IfOk result (λ text. string_bytes text ≡ lines.flooded_line count) }
{
    let presses = presses_word(count);
    format!(in alloc; "{count} {presses} more at once than fingers: dropped")
}

impl<'a> Lines<'a> {
    /// No lines. The port is that of the controller, and these cues are stood by together.
    pub fn new(alloc: Global, together: &'a [Group], port: u16) -> Lines<'a>
        ensures none { string_bytes result.text ≡ [] }
        ensures together { result.together.now ≡ together.now }
        ensures port { result.port ≡ port }
    {
        Lines {
            alloc,
            together,
            port,
            tally: Tally::new(alloc),
            text: String::new(alloc),
        }
    }

    // Why an intent presses nothing: that no button is lit, or what the view says.
    fn reason(&self, intent: &Intent, why: Why, view: &View) -> Result<String, AllocError> {
        match trouble_of(view) {
            Some(alarm) => alarm_words(self.alloc, alarm, view.at, self.port),
            None => why_words(self.alloc, view, intent, why),
        }
    }

    // That an intent presses nothing, and why.
    #[tactic(auto, using(crate::proofs::LineLemmas::not_pressed))]
    fn not_pressed(
        &self,
        source: Source,
        intent: &Intent,
        why: Why,
        view: &View,
    ) -> Result<String, AllocError>
        ensures { IfOk result (λ text. IsNotPressed source intent.now (string_bytes text)) }
    {
        let alloc = self.alloc;
        let words = self.reason(intent, why, view)?;
        let source = source_words(alloc, source)?;
        let intent = intent_words(alloc, intent)?;
        unpressed_text(alloc, source.as_str(), intent.as_str(), words.as_str())
    }

    // What pressed what, in words.
    fn what_words(&self, what: &What) -> Result<String, AllocError>
        ensures { IfOk result (λ text. string_bytes text ≡ lines.what_words self.now.together.now what.now) }
    {
        let alloc = self.alloc;
        let source = source_words(alloc, what.source)?;
        let button = button_words(alloc, what.button, self.together)?;
        let (source, button) = (source.as_str(), button.as_str());
        format!(in alloc; "{source}: {button}")
    }

    // That a press is the second tap of one finger.
    fn tapped(&self, what: &What) -> Result<String, AllocError>
        ensures { IfOk result (λ text. string_bytes text ≡ lines.tapped_line self.now.together.now what.now) }
    {
        let what = self.what_words(what)?;
        let what = what.as_str();
        format!(in self.alloc; "{what}: a second tap within a second: nothing is sent")
    }

    // That a press was not sent, since no button is lit.
    fn dark(&self, what: &What, alarm: Alarm, view: &View) -> Result<String, AllocError>
        ensures { IfOk result (λ text. string_bytes text
            ≡ lines.dark_line self.now.together.now self.now.port view.now.at what.now alarm) }
    {
        let words = alarm_words(self.alloc, alarm, view.at, self.port)?;
        let what = self.what_words(what)?;
        let (what, words) = (what.as_str(), words.as_str());
        format!(in self.alloc; "{what}: not sent: {words}")
    }

    // That a press was not sent, and why.
    fn unsent(&self, what: &What, unsent: Unsent) -> Result<String, AllocError>
        ensures { IfOk result (λ text. string_bytes text
            ≡ lines.unsent_line self.now.together.now what.now unsent) }
    {
        let what = self.what_words(what)?;
        let (what, words) = (what.as_str(), unsent_words(unsent));
        format!(in self.alloc; "{what}: {words}")
    }

    // The same; if no button is lit, that is why.
    fn not_sent(&self, what: &What, unsent: Unsent, view: &View) -> Result<String, AllocError>
        ensures { IfOk result (λ text. string_bytes text
            ≡ lines.not_sent_line self.now.together.now self.now.port view.now what.now unsent) }
    {
        match trouble_of(view) {
            Some(alarm) => self.dark(what, alarm, view),
            None => self.unsent(what, unsent),
        }
    }

    // That a press was not heard.
    fn unheard(&self, button: Button) -> Result<String, AllocError>
        ensures { IfOk result (λ text. string_bytes text ≡ lines.unheard_line self.now.together.now button) }
    {
        let button = button_words(self.alloc, button, self.together)?;
        let button = button.as_str();
        format!(in self.alloc; "{button}: out of memory: nothing is sent")
    }

    // What became of a press.
    fn became(&self, what: &What, became: Became) -> Result<String, AllocError>
        ensures { IfOk result (λ text. string_bytes text
            ≡ lines.became_line self.now.together.now self.now.port what.now became) }
    {
        let words = became_words(self.alloc, became, self.port)?;
        let what = self.what_words(what)?;
        let (what, words) = (what.as_str(), words.as_str());
        format!(in self.alloc; "{what}: {words}")
    }

    // The text of a line, while this view is shown.
    fn text_of(&self, line: &Line, view: &View) -> Result<String, AllocError>
        ensures { IfOk result (λ text. IsLine self.now.together.now self.now.port view.now line.now (string_bytes text)) }
    {
        let alloc = self.alloc;
        match line {
            Line::Keys(keys) => keys_line(alloc, keys),
            Line::Held(passed) => held_line(alloc, *passed),
            Line::NotTaken(passed) => not_taken_line(alloc, *passed),
            Line::Spoken(spoken) => spoken_line(alloc, spoken),
            Line::Tap(source) => tap_line(alloc, *source),
            Line::NotPressed(source, intent, why) => self.not_pressed(*source, intent, *why, view),
            Line::Tapped(what) => self.tapped(what),
            Line::NotSent(what, unsent) => self.not_sent(what, *unsent, view),
            Line::Unheard(button) => self.unheard(*button),
            Line::Became(what, became) => self.became(what, *became),
            Line::Waited(count) => waited_line(alloc, *count),
            Line::Flooded(count) => flooded_line(alloc, *count),
        }
    }

    /// Puts a line after the others.
    pub fn push(&mut self, line: &str) -> Result<(), AllocError>
        ensures said { OnOk result (string_bytes self.new.text
            ≡ (string_bytes self.old.text ++ line.now) ++ codes "\n") }
        ensures together { self.new.together.now ≡ self.old.together.now }
        ensures port { self.new.port ≡ self.old.port }
    {
        self.text.push_str(line)?;
        self.text.push_str("\n")
    }

    /// Says this line, if it is one, while this view is shown.
    pub fn say(&mut self, line: Option<Line>, view: &View) -> Result<(), AllocError>
        ensures { OnOk result (Says view.now line self.old self.new) }
    {
        match line {
            Some(line) => {
                let text = self.text_of(&line, view)?;
                self.push(text.as_str())
            }
            None => Ok(()),
        }
    }

    /// Says each of these, in order.
    pub(crate) fn say_each(&mut self, looked: &Looked, view: &View) -> Result<(), AllocError>
        ensures { OnOk result (SaysEach view.now looked.now self.old self.new) }
    {
        self.say(looked.before, view)?;
        self.say(looked.newest, view)?;
        self.say(looked.waited, view)?;
        self.say(looked.flooded, view)
    }

    /// Counts what is no key. Answers whether it is the first of its kind.
    pub fn count(&mut self, passed: Passed) -> Result<bool, AllocError>
        ensures text { self.new.text ≡ self.old.text }
        ensures together { self.new.together.now ≡ self.old.together.now }
        ensures port { self.new.port ≡ self.old.port }
    {
        self.tally.count(passed)
    }

    /// Says what was heard and is no key, if there is something.
    pub fn say_tally(&mut self) -> Result<(), AllocError> {
        let text = self.tally.text(self.alloc)?;
        if text.is_empty() {
            return Ok(());
        }
        let text = text.as_str();
        let line = format!(in self.alloc; "heard and not taken: {text}")?;
        self.push(line.as_str())
    }

    /// Takes the lines, each with its end.
    pub fn take(&mut self) -> String
        ensures { result ≡ self.old.text }
    {
        let empty = String::new(self.alloc);
        mem::replace(&mut self.text, empty)
    }
}
