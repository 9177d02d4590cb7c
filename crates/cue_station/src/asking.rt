//! What became of the presses that were sent.
ghost use Rattle.std.specs.Prelude.{◌≡◌, is_some};
ghost use Rattle.std.specs.List.{list_any};
ghost use Rattle.std.specs.Option.{option_map};
ghost use Rattle.cue_core.specs.Events as happening;
ghost use Rattle.cue_exchange.specs.Answers as stages;
ghost use Rattle.cue_exchange.specs.Live.{attempt_of, attempt_of_cue};
ghost use Rattle.cue_exchange.specs.Steps.{holds};
ghost use Rattle.cue_station.specs.Asking as asking;

use crate::evidence::is_shown_by;
use crate::heard::{Copied, Heard};
use crate::memory::{Answered, Pending, Reading, Word};
use cue_core::{Event, State};
use cue_desk::answered::are_counts;
use cue_desk::replying::Replied;
use cue_show::CueNo;
use cue_view::button::Button;
use cue_view::view::Became;

// What a reply of these numbers says of one press.
fn word_by(made: i32, known: i32, refused: i32, code: i32) -> Option<Became>
    ensures { result ≡ asking.word_by made known refused code }
{
    if are_counts(made, known, refused, 1, 0, 0) {
        Some(Became::Made)
    } else if are_counts(made, known, refused, 0, 1, 0) {
        Some(Became::Known)
    } else if are_counts(made, known, refused, 0, 0, 1) {
        Some(Became::Refused(code))
    } else if are_counts(made, known, refused, 1, 0, 1) {
        Some(Became::Partly(code))
    } else {
        None
    }
}

// What a reply says of one command.
fn word_in(replied: Replied) -> Option<Became>
    ensures { result ≡ asking.word_in replied }
{
    match replied {
        Replied::Reply {
            made,
            known,
            refused,
            code,
        } => word_by(made, known, refused, code),
        Replied::Status(_) => None,
    }
}

// What came to the socket of the ask, if it answers it.
fn word_to(ask: u64, heard: &Heard) -> Option<Became>
    ensures { result ≡ asking.word_to ask heard.now }
{
    match heard {
        Heard::Replied(to, replied) => if *to == ask { word_in(*replied) } else { None },
        Heard::Nobody(to) => if *to == ask {
            Some(Became::Nobody)
        } else {
            None
        },
        Heard::Copied(_) | Heard::Same(_) | Heard::Unread(_) => None,
        Heard::Pressed(_, _) | Heard::Relay(_) | Heard::Kept(_) | Heard::Tick => None,
    }
}

// The same, with the moment at which it came.
fn answer_to(ask: u64, heard: &Heard, at: u64) -> Option<Word>
    ensures { result ≡ asking.answer_to ask heard.now at }
{
    match word_to(ask, heard) {
        Some(became) => Some(Word { at, became }),
        None => None,
    }
}

/// Whether the attempt starts.
pub(crate) fn is_start_of(seq: u32, event: &Event) -> bool
    ensures { result ≡ happening.is_start_of seq event.now }
{
    match event {
        Event::Start(other, _, _) => *other == seq,
        Event::Device(_, _) | Event::NoDevice(_) | Event::Cue(_, _) => false,
        Event::NoCue(_) | Event::Place(_) | Event::Ready(_, _) => false,
        Event::Go(_) | Event::Done(_, _) | Event::Cancel(_, _) => false,
        Event::LetGo(_, _) | Event::Failed(_, _) | Event::Excuse(_, _) => false,
    }
}

// Whether the attempt is given.
fn is_go_of(seq: u32, event: &Event) -> bool
    ensures { result ≡ happening.is_go_of seq event.now }
{
    match event {
        Event::Go(other) => *other == seq,
        Event::Device(_, _) | Event::NoDevice(_) | Event::Cue(_, _) => false,
        Event::NoCue(_) | Event::Place(_) | Event::Start(_, _, _) => false,
        Event::Ready(_, _) | Event::Done(_, _) | Event::Cancel(_, _) => false,
        Event::LetGo(_, _) | Event::Failed(_, _) | Event::Excuse(_, _) => false,
    }
}

// Whether the attempt is given up.
fn is_cancel_of(seq: u32, event: &Event) -> bool
    ensures { result ≡ happening.is_cancel_of seq event.now }
{
    match event {
        Event::Cancel(other, _) => *other == seq,
        Event::Device(_, _) | Event::NoDevice(_) | Event::Cue(_, _) => false,
        Event::NoCue(_) | Event::Place(_) | Event::Start(_, _, _) => false,
        Event::Ready(_, _) | Event::Go(_) | Event::Done(_, _) => false,
        Event::LetGo(_, _) | Event::Failed(_, _) | Event::Excuse(_, _) => false,
    }
}

fn has_started(seq: u32, events: &[Event]) -> bool
    ensures { result ≡ list_any (happening.is_start_of seq) events.now }
{
    events.iter().any(|event| is_start_of(seq, event))
}

fn has_gone(seq: u32, events: &[Event]) -> bool
    ensures { result ≡ list_any (happening.is_go_of seq) events.now }
{
    events.iter().any(|event| is_go_of(seq, event))
}

fn has_cancelled(seq: u32, events: &[Event]) -> bool
    ensures { result ≡ list_any (happening.is_cancel_of seq) events.now }
{
    events.iter().any(|event| is_cancel_of(seq, event))
}

// Whether the attempt is live.
fn is_live(seq: u32, state: &State) -> bool
    ensures { result ≡ is_some (attempt_of state.now.live seq) }
{
    state.live().of_seq(seq).is_some()
}

// Whether it is live and decided.
fn is_decided(seq: u32, state: &State) -> bool
    ensures { result ≡ holds seq (λ a. stages.is_decided a.stage) state.now.live }
{
    let live = state.live().as_slice();
    live.iter().any(|a| a.seq == seq && a.stage.is_decided())
}

// Whether it is live and given up.
fn is_cancelling(seq: u32, state: &State) -> bool
    ensures { result ≡ holds seq (λ a. stages.is_cancelling a.stage) state.now.live }
{
    let live = state.live().as_slice();
    live.iter().any(|a| a.seq == seq && a.stage.is_cancelling())
}

/// Whether the attempt is in the copy, or its start is among the events.
pub(crate) fn is_known(seq: u32, copy: &Copied) -> bool
    ensures { result ≡ asking.is_known seq copy.now }
{
    is_live(seq, &copy.state) || has_started(seq, &copy.events)
}

/// Whether the attempt was given.
pub(crate) fn was_given(seq: u32, copy: &Copied) -> bool
    ensures { result ≡ asking.was_given seq copy.now }
{
    has_gone(seq, &copy.events) || is_decided(seq, &copy.state)
}

/// Whether its preparation was given up.
pub(crate) fn was_given_up(seq: u32, copy: &Copied) -> bool
    ensures { result ≡ asking.was_given_up seq copy.now }
{
    has_cancelled(seq, &copy.events) || is_cancelling(seq, &copy.state)
}

/// Whether an attempt is live at the cue.
pub(crate) fn is_live_at(cue: CueNo, state: &State) -> bool
    ensures { result ≡ is_some (attempt_of_cue state.now.live cue) }
{
    state.live().of_cue(cue).is_some()
}

// What is said if something was carried out, or if that is known not to be so.
fn if_known(known: bool, carried: bool) -> Became
    ensures { result ≡ asking.if_known known carried }
{
    if carried {
        Became::Carried
    } else if known {
        Became::Lost
    } else {
        Became::Unknown
    }
}

// What the copy shows of a press.
fn shown_of(button: Button, copy: &Copied) -> Became
    ensures { result ≡ asking.shown_of button copy.now }
{
    match button {
        Button::Go(_, seq) => if_known(is_known(seq, copy), was_given(seq, copy)),
        Button::Cancel(_, seq) => if_known(is_known(seq, copy), was_given_up(seq, copy)),
        Button::Standby(cue) => if_known(false, is_live_at(cue, &copy.state)),
        Button::Release(_, _) | Button::MoveTo(_) => Became::Unknown,
        Button::Choose(_) | Button::Seen(_) => Became::Unknown,
    }
}

// Whether a status was asked after the moment and answered, and the copy was begun later than that answer came.
fn is_settled(sent: u64, answered: &Option<Answered>, begun: u64) -> bool
    ensures { result ≡ asking.is_settled sent answered.now begun }
{
    match answered {
        Some(answered) => sent < answered.asked && answered.came < begun,
        None => false,
    }
}

// What the copy shows, if it settles what was sent at the moment.
fn settled_by(
    button: Button,
    sent: u64,
    answered: &Option<Answered>,
    reading: &Option<Reading>,
) -> Option<Became>
    ensures { result ≡ asking.settled_by button sent answered.now reading.now }
{
    match reading {
        Some(reading) => if is_settled(sent, answered, reading.at) {
            Some(shown_of(button, &reading.copy))
        } else {
            None
        },
        None => None,
    }
}

// What came first to the socket of the press.
fn answer_after(pending: &Pending, at: u64, heard: &Heard) -> Option<Word>
    ensures { result ≡ asking.first_of pending.now.answer (asking.answer_to pending.now.ask heard.now at) }
{
    match pending.answer {
        Some(word) => Some(word),
        None => answer_to(pending.ask, heard, at),
    }
}

// What the first copy showed that settled the press.
fn settled_after(
    pending: &Pending,
    answered: &Option<Answered>,
    reading: &Option<Reading>,
) -> Option<Became>
    ensures { result ≡ asking.first_of pending.now.settled
        (asking.settled_by pending.now.button pending.now.at answered.now reading.now) }
{
    match pending.settled {
        Some(became) => Some(became),
        None => settled_by(pending.button, pending.at, answered, reading),
    }
}

// A press that was sent, once something more was heard.
fn followed(
    pending: &Pending,
    at: u64,
    heard: &Heard,
    answered: &Option<Answered>,
    reading: &Option<Reading>,
) -> Pending
    ensures { result ≡ asking.followed heard.now at answered.now reading.now pending.now }
{
    Pending {
        at: pending.at,
        ask: pending.ask,
        button: pending.button,
        before: pending.before,
        answer: answer_after(pending, at, heard),
        settled: settled_after(pending, answered, reading),
        shown: pending.shown || is_shown_by(pending.button, pending.before, reading),
    }
}

/// The same of a press, if there is one.
pub(crate) fn followed_on(
    pending: &Option<Pending>,
    at: u64,
    heard: &Heard,
    answered: &Option<Answered>,
    reading: &Option<Reading>,
) -> Option<Pending>
    ensures { result ≡ option_map (asking.followed heard.now at answered.now reading.now) pending.now }
{
    match pending {
        Some(pending) => Some(followed(pending, at, heard, answered, reading)),
        None => None,
    }
}
