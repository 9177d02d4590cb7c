//! The desk as a machine.
ghost use Rattle.std.specs.Prelude.{◌≡◌, [], IfOk, OnErr, OnOk};
ghost use Rattle.std.specs.Option.{option_copied, option_map};
ghost use Rattle.cue_station.specs.Keeping.{numbers_seen};
ghost use Rattle.cue_station.specs.Memory.{IsAfter, StepKeeps};
ghost use Rattle.cue_station.specs.Noting as noting;
ghost use Rattle.cue_station.specs.Pacing as pacing;
ghost use Rattle.cue_station.specs.Reading.{state_read};
ghost use Rattle.cue_station.specs.Stepping as stepping;

use crate::heard::{Heard, Input, Send};
use crate::hearing::{is_copy, put_back, seen_after, take_in};
use crate::keeping::{failed_after, handed_on};
use crate::limits::{KEPT_SEEN, KEPT_VIEWS};
use crate::memory::{Buttons, Choice, Notes, Pace, Reading, Relayed, Seen, Shown};
use crate::noting::{footing_by, notes_heard, notes_sent};
use crate::pacing::{is_due, pace_heard, pace_sent};
use crate::pressing::{order_of, refusal_of};
use crate::viewing::view_of;
use cue_core::State;
use cue_desk::orders::DeskCommand;
use cue_view::view::{Kept, Told, Unsent, View};
use std::alloc::{AllocError, Global};

/// The desk. All that it keeps is bounded: one copy, one status, eight attempts, four asks, the newest views, and what
/// went wrong and nobody has seen: that of the newest copy, and of 64 attempts beside it.
#[derive(Drop)]
pub struct Station {
    notes: Notes,
    pace: Pace,
    reading: Option<Reading>,
    relay: Option<Relayed>,
    seen: Vec<Seen>,
    failed: Vec<Told>,
    views: Vec<Shown>,
}

/// What a step gives.
#[derive(Drop)]
pub struct Step {
    pub view: View,
    pub send: Option<Send>,
}

// What a step makes before anything is kept.
#[derive(Drop)]
struct Made {
    notes: Notes,
    pace: Pace,
    seen: Vec<Seen>,
    failed: Vec<Told>,
    shown: Shown,
    step: Step,
}

// What is noted before anything was heard.
fn first_notes() -> Notes
    ensures { result ≡ stepping.first_notes }
{
    Notes {
        number: 0,
        next_ask: 0,
        answered: None,
        nobody: false,
        trouble: None,
        differs: None,
        choice: Choice::Nothing,
        question: None,
        press: None,
        beside: None,
        before: None,
        acknowledged: [0; KEPT_SEEN],
        moved: None,
    }
}

// Keeps the view with the newest ones.
fn keep_view(views: &mut Vec<Shown>, shown: Shown) -> Result<(), AllocError>
    ensures ok { OnOk result (views.new.items ≡ stepping.kept_with shown views.old.items) }
    ensures err { OnErr result (views.new.items ≡ views.old.items) }
{
    views.insert(0, shown)?;
    views.truncate(KEPT_VIEWS);
    Ok(())
}

// What is kept of a view.
fn shown_of(alloc: Global, view: &View) -> Result<Shown, AllocError>
    ensures { IfOk result (λ s. s ≡ stepping.shown_in view.now) }
{
    let lit = Vec::from_slice(alloc, &view.lit)?;
    Ok(Shown {
        number: view.number,
        at: view.at,
        lit: Buttons::of(lit),
    })
}

// The message: that of a press, else a question for the status, if one is due.
fn send_by(order: Option<DeskCommand>, due: bool, ask: u64) -> Option<Send>
    ensures { result ≡ noting.send_by order due ask }
{
    match order {
        Some(order) => Some(Send { ask, order }),
        None => if due {
            Some(Send {
                ask,
                order: DeskCommand::Status,
            })
        } else {
            None
        },
    }
}

// What is noted in a step, and what is sent.
#[derive(Clone, Copy)]
struct Noted {
    notes: Notes,
    pace: Pace,
    send: Option<Send>,
    unsent: Option<Unsent>,
}

impl Station {
    /// The desk before it has heard anything.
    pub fn new(alloc: Global) -> Station
        ensures after { IsAfter [] result }
    {
        Station {
            notes: first_notes(),
            pace: Pace {
                is_answered: false,
                is_wanted: false,
            },
            reading: None,
            relay: None,
            seen: Vec::new(alloc),
            failed: Vec::new(alloc),
            views: Vec::new(alloc),
        }
    }

    /// What the store stood for when it was read last; none if it was never read.
    pub fn state(&self) -> Option<&State>
        ensures { option_copied result ≡ option_map state_read self.now.reading }
    {
        match &self.reading {
            Some(reading) => Some(&reading.copy.state),
            None => None,
        }
    }

    /// Whether a question for the status is due: at once after a copy that differs and after each press, a tenth of a
    /// second after one that was answered or that nobody listened to, and half a second after one to which nothing came.
    /// A step that has no press to send asks it.
    pub fn due(&self, at: u64) -> bool
        ensures { result ≡ pacing.is_due self.now.notes self.now.pace at }
    {
        is_due(&self.notes, self.pace, at)
    }

    /// What another desk is to know, or this one once it is started again: it hears it as `Heard::Kept`.
    pub fn kept(&self, alloc: Global) -> Result<Kept, AllocError>
        ensures failed { IfOk result (λ kept. kept.failed.items ≡ self.now.failed.items) }
        ensures seen { IfOk result (λ kept. kept.seen.items ≡ numbers_seen self.now.notes.acknowledged) }
    {
        handed_on(alloc, &self.failed, &self.notes.acknowledged)
    }

    // Why the press that was heard is not heeded.
    fn refusal(&self, input: &Input) -> Option<Unsent>
        ensures heeded { stepping.IsRefusal self.now input.now result }
        ensures why { result ≡ stepping.unsent_now self.now input.now }
    {
        match &input.heard {
            Heard::Pressed(view, button) => {
                let footing = footing_by(&self.notes, &self.reading, input.at, input.wall);
                refusal_of(
                    &self.views,
                    *view,
                    button,
                    &self.notes.press,
                    &self.reading,
                    &self.seen,
                    &footing,
                )
            }
            _ => None,
        }
    }

    // The order of the press that was heard, if it is heeded.
    fn pressed(&self, input: &Input, refusal: Option<Unsent>) -> Option<DeskCommand>
        requires { stepping.IsRefusal self.now input.now refusal }
        ensures { result ≡ noting.order_by input.now.heard (stepping.is_heeded_by self.now input.now) }
    {
        match &input.heard {
            Heard::Pressed(_, button) => if refusal.is_none() {
                order_of(*button)
            } else {
                None
            },
            _ => None,
        }
    }

    // What is noted, and sent, once the store and the relay were taken in.
    fn notes_made(&self, input: &Input, is_new: bool) -> Result<Noted, AllocError>
        ensures { IfOk result (stepping.TakesNotes self.now input.now) }
    {
        let (at, heard) = (input.at, &input.heard);
        let noted = notes_heard(&self.notes, at, heard, &self.reading, &self.views);
        let unsent = self.refusal(input);
        let pace = pace_heard(self.pace, self.notes.question, heard, is_new);
        let due = is_due(&noted, pace, at);
        let send = send_by(self.pressed(input, unsent), due, noted.next_ask);
        let notes = notes_sent(&noted, at, heard, &self.reading, &send)?;
        Ok(Noted {
            notes,
            pace: pace_sent(pace, send),
            send,
            unsent,
        })
    }

    // What is kept of what went wrong, once this was heard; `notes`: what is noted then.
    fn failed_next(
        &self,
        alloc: Global,
        input: &Input,
        notes: &Notes,
    ) -> Result<Vec<Told>, AllocError>
        ensures { IfOk result (λ v. v.items ≡ stepping.failed_in self.now input.now notes.now) }
    {
        failed_after(
            alloc,
            &notes.acknowledged,
            &input.heard,
            &self.reading,
            &self.failed,
        )
    }

    // What the step makes of what was heard, once the store and the relay were taken in. Nothing is kept yet.
    fn make(&self, alloc: Global, input: &Input, is_new: bool) -> Result<Made, AllocError>
        ensures { IfOk result (stepping.MakesIn self.now input.now) }
    {
        let Noted {
            notes,
            pace,
            send,
            unsent,
        } = self.notes_made(input, is_new)?;
        let seen = seen_after(alloc, &self.seen, input.at, &self.reading)?;
        let failed = self.failed_next(alloc, input, &notes)?;
        let footing = footing_by(&notes, &self.reading, input.at, input.wall);
        let bare = view_of(
            alloc,
            &notes,
            &self.reading,
            &self.relay,
            &seen,
            &failed,
            footing,
        )?;
        let view = View {
            number: self.notes.number,
            unsent,
            ..bare
        };
        let shown = shown_of(alloc, &view)?;
        Ok(Made {
            notes,
            pace,
            seen,
            failed,
            shown,
            step: Step { view, send },
        })
    }

    // Keeps what the step made.
    fn keep(&mut self, made: Made) -> Result<Step, AllocError>
        ensures ok { IfOk result (stepping.KeepsMade self.old made self.new) }
        ensures err { OnErr result (stepping.IsSame self.old self.new) }
    {
        let Made {
            notes,
            pace,
            seen,
            failed,
            shown,
            step,
        } = made;
        keep_view(&mut self.views, shown)?;
        self.notes = notes;
        self.pace = pace;
        self.seen = seen;
        self.failed = failed;
        Ok(step)
    }

    // The step, once the store and the relay were taken in.
    fn step_in(&mut self, alloc: Global, input: &Input, is_new: bool) -> Result<Step, AllocError>
        ensures ok { IfOk result (stepping.StepsIn self.old input.now self.new) }
        ensures err { OnErr result (stepping.IsSame self.old self.new) }
    {
        let made = self.make(alloc, input, is_new)?;
        self.keep(made)
    }

    /// Hears one thing: the view that follows, and at most one message. If memory ran out, nothing was heard.
    pub fn step(&mut self, alloc: Global, input: Input) -> Result<Step, AllocError>
        ensures keeps { IfOk result (StepKeeps self.old input self.new) }
        ensures err { OnErr result (stepping.IsSame self.old self.new) }
    {
        let Input { at, wall, heard } = input;
        let (heard, before) = take_in(&mut self.reading, &mut self.relay, at, heard);
        let input = Input { at, wall, heard };
        match self.step_in(alloc, &input, is_copy(&before)) {
            Ok(step) => Ok(step),
            Err(error) => {
                put_back(&mut self.reading, &mut self.relay, before);
                Err(error)
            }
        }
    }
}
